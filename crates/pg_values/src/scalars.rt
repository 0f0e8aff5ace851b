//! Values without parts, read.

ghost use Rattle.std.specs.Prelude.{◌≡◌, ◌↔◌, false, IsTrue};
ghost use Rattle.pg_values.specs.Scalars.{datum_of, IsValue, IsDate, IsTimestamp, IsUuid, IsLabel};
ghost use Rattle.pg_values.specs.Reading.{ReadsAs};

use crate::datum::Datum;
use pg_types::{Blob, FromSql, Text, Type, Value, ValueFault};
use std::alloc::Global;

/// The datum that a `Value` is.
fn datum_of(value: Value) -> Datum
    ensures { result ≡ datum_of value }
{
    match value {
        Value::Null => Datum::Null,
        Value::Bool(b) => Datum::Bool(b),
        Value::Int(n) => Datum::Int(n),
        Value::Text(text) => Datum::Text(text),
        Value::Bytes(bytes) => Datum::Bytes(bytes),
    }
}

/// A value of the types that a `Value` is read from.
pub(crate) fn read_value(alloc: Global, ty: &Type, raw: &[u8]) -> Result<Datum, ValueFault>
    ensures { ReadsAs (λ v. IsValue false ty.now.oid v raw.now) result }
{
    match Value::from_sql(alloc, ty, raw) {
        Ok(value) => Ok(datum_of(value)),
        Err(ValueFault::OutOfMemory) => Err(ValueFault::OutOfMemory),
        Err(_) => Err(ValueFault::BadValue),
    }
}

/// Days from 2000-01-01.
pub(crate) fn read_date(alloc: Global, ty: &Type, raw: &[u8]) -> Result<Datum, ValueFault>
    ensures { ReadsAs (λ v. IsDate v raw.now) result }
{
    match i32::from_sql(alloc, ty, raw) {
        Ok(days) => Ok(Datum::Date(days)),
        Err(_) => Err(ValueFault::BadValue),
    }
}

/// Microseconds from the begin of 2000-01-01.
pub(crate) fn read_timestamp(alloc: Global, ty: &Type, raw: &[u8]) -> Result<Datum, ValueFault>
    ensures { ReadsAs (λ v. IsTimestamp v raw.now) result }
{
    match i64::from_sql(alloc, ty, raw) {
        Ok(microseconds) => Ok(Datum::Timestamp(microseconds)),
        Err(_) => Err(ValueFault::BadValue),
    }
}

/// Sixteen bytes.
pub(crate) fn read_uuid(alloc: Global, raw: &[u8]) -> Result<Datum, ValueFault>
    ensures { ReadsAs (λ v. IsUuid v raw.now) result }
{
    if raw.len() != 16 {
        return Err(ValueFault::BadValue);
    }
    match Blob::from_slice(alloc, raw) {
        Ok(bytes) => Ok(Datum::Uuid(bytes)),
        Err(_) => Err(ValueFault::OutOfMemory),
    }
}

/// Whether these bytes are the label.
pub(crate) fn is_label(label: &Text, raw: &[u8]) -> bool
    ensures { IsTrue result ↔ (label.now ≡ raw.now) }
{
    label.as_str().as_bytes() == raw
}

/// One of the labels.
pub(crate) fn read_label(alloc: Global, labels: &[Text], raw: &[u8]) -> Result<Datum, ValueFault>
    ensures { ReadsAs (λ v. IsLabel labels.now v raw.now) result }
{
    for label in labels {
        if is_label(label, raw) {
            return match label.copy(alloc) {
                Ok(label) => Ok(Datum::Label(label)),
                Err(_) => Err(ValueFault::OutOfMemory),
            };
        }
    }
    Err(ValueFault::BadValue)
}
