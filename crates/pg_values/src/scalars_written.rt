//! Values without parts, written.

ghost use Rattle.std.specs.Prelude.{◌↔◌, Contains, IsTrue};
ghost use Rattle.pg_values.specs.Sending.{value_send, date_send, timestamp_send, uuid_send, enum_send};
ghost use Rattle.pg_values.specs.Writing.{WritesSent, Sends};
ghost use Rattle.pg_values.specs.declared.datum.Datum as d;

use crate::datum::Datum;
use crate::put::put;
use crate::scalars::is_label;
use bytes::BytesMut;
use pg_types::{Blob, IsNull, Text, ToSql, Type, Value, ValueFault};

/// What came of a value that isn't null; a fault of the value itself is BadValue.
fn sent(answer: Result<IsNull, ValueFault>) -> Result<(), ValueFault>
    ensures { Sends answer result }
{
    match answer {
        Ok(_) => Ok(()),
        Err(ValueFault::OutOfMemory) => Err(ValueFault::OutOfMemory),
        Err(_) => Err(ValueFault::BadValue),
    }
}

/// A truth value.
fn write_bool(b: bool, ty: &Type, out: &mut BytesMut) -> Result<(), ValueFault>
    ensures { WritesSent (value_send ty.now.oid (d.Bool b)) out.old.items out.new.items result }
{
    sent(Value::Bool(b).to_sql(ty, out))
}

/// A whole number.
fn write_int(n: i64, ty: &Type, out: &mut BytesMut) -> Result<(), ValueFault>
    ensures { WritesSent (value_send ty.now.oid (d.Int n)) out.old.items out.new.items result }
{
    sent(Value::Int(n).to_sql(ty, out))
}

/// A text.
fn write_text(text: &str, ty: &Type, out: &mut BytesMut) -> Result<(), ValueFault>
    ensures { WritesSent (value_send ty.now.oid (d.Text text.now)) out.old.items out.new.items result }
{
    sent(text.to_sql_checked(ty, out))
}

/// Bytes.
fn write_bytea(bytes: &Blob, ty: &Type, out: &mut BytesMut) -> Result<(), ValueFault>
    ensures { WritesSent (value_send ty.now.oid (d.Bytes bytes.now)) out.old.items out.new.items result }
{
    sent(bytes.to_sql_checked(ty, out))
}

/// A value of the types that a `Value` is written as.
pub(crate) fn write_value(value: &Datum, ty: &Type, out: &mut BytesMut) -> Result<(), ValueFault>
    ensures { WritesSent (value_send ty.now.oid value.now) out.old.items out.new.items result }
{
    match value {
        Datum::Bool(b) => write_bool(*b, ty, out),
        Datum::Int(n) => write_int(*n, ty, out),
        Datum::Text(text) => write_text(text.as_str(), ty, out),
        Datum::Bytes(bytes) => write_bytea(bytes, ty, out),
        _ => Err(ValueFault::BadValue),
    }
}

/// Days from 2000-01-01.
fn write_days(days: i32, ty: &Type, out: &mut BytesMut) -> Result<(), ValueFault>
    ensures { WritesSent (date_send (d.Date days)) out.old.items out.new.items result }
{
    sent(days.to_sql(ty, out))
}

/// Microseconds from the begin of 2000-01-01.
fn write_microseconds(microseconds: i64, ty: &Type, out: &mut BytesMut) -> Result<(), ValueFault>
    ensures { WritesSent (timestamp_send (d.Timestamp microseconds)) out.old.items out.new.items result }
{
    sent(microseconds.to_sql(ty, out))
}

/// A date.
pub(crate) fn write_date(value: &Datum, ty: &Type, out: &mut BytesMut) -> Result<(), ValueFault>
    ensures { WritesSent (date_send value.now) out.old.items out.new.items result }
{
    match value {
        Datum::Date(days) => write_days(*days, ty, out),
        _ => Err(ValueFault::BadValue),
    }
}

/// A timestamp.
pub(crate) fn write_timestamp(
    value: &Datum,
    ty: &Type,
    out: &mut BytesMut,
) -> Result<(), ValueFault>
    ensures { WritesSent (timestamp_send value.now) out.old.items out.new.items result }
{
    match value {
        Datum::Timestamp(microseconds) => write_microseconds(*microseconds, ty, out),
        _ => Err(ValueFault::BadValue),
    }
}

/// Sixteen bytes.
pub(crate) fn write_uuid(value: &Datum, out: &mut BytesMut) -> Result<(), ValueFault>
    ensures { WritesSent (uuid_send value.now) out.old.items out.new.items result }
{
    match value {
        Datum::Uuid(bytes) if bytes.as_slice().len() == 16 => put(bytes.as_slice(), out),
        _ => Err(ValueFault::BadValue),
    }
}

/// Whether these bytes are one of the labels.
fn is_known(labels: &[Text], bytes: &[u8]) -> bool
    ensures { IsTrue result ↔ Contains labels.now bytes.now }
{
    for label in labels {
        if is_label(label, bytes) {
            return true;
        }
    }
    false
}

/// This label, where it is one of them.
fn put_label(label: &[u8], labels: &[Text], out: &mut BytesMut) -> Result<(), ValueFault>
    ensures { WritesSent (enum_send labels.now (d.Label label.now)) out.old.items out.new.items result }
{
    if !is_known(labels, label) {
        return Err(ValueFault::BadValue);
    }
    put(label, out)
}

/// One of the labels.
pub(crate) fn write_label(
    value: &Datum,
    labels: &[Text],
    out: &mut BytesMut,
) -> Result<(), ValueFault>
    ensures { WritesSent (enum_send labels.now value.now) out.old.items out.new.items result }
{
    match value {
        Datum::Label(label) => put_label(label.as_str().as_bytes(), labels, out),
        _ => Err(ValueFault::BadValue),
    }
}
