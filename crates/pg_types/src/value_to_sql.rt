//! A `Value`, written.

ghost use Rattle.std.specs.Prelude.{◌≡◌, false};
ghost use Rattle.std.specs.Int.{w8, w16, w32, w64};
ghost use Rattle.pg_types.specs.AnyValues.{int_given, oid_given, number_given, is_int};
ghost use Rattle.pg_types.specs.Values.{Writes, wrong_type};
ghost use Rattle.pg_types.specs.declared.fault.ValueFault.TheVariants as fault;
ghost use Rattle.pg_types.specs.declared.fault.RustType.TheVariants as rust_type;

use crate::texts_to_sql::is_text;
use crate::to_sql::{ToSql, put};
use crate::{IsNull, RustType, Type, Value, ValueFault, WrongType, oid};
use byteorder::{BigEndian, ByteOrder};
use bytes::BytesMut;

/// Whether a type's values are whole numbers.
pub(crate) fn is_int(ty: &Type) -> bool
    ensures { result ≡ is_int ty.now.oid }
{
    matches!(
        ty.oid(),
        oid::CHAR | oid::INT2 | oid::INT4 | oid::INT8 | oid::OID
    )
}

/// The fault of a type under which the value may not stand.
pub(crate) fn wrong_type(ty: &Type) -> ValueFault
    ensures { result ≡ fault.WrongType (wrong_type ty.now.oid rust_type.Value) }
{
    ValueFault::WrongType(WrongType {
        postgres: ty.oid(),
        rust: RustType::Value,
    })
}

/// Appends a number of 8 bits.
fn put_char(n: i64, out: &mut BytesMut) -> Result<IsNull, ValueFault>
    ensures { Writes false (int_given w8 n) out.old.items out.new.items result }
{
    if n < -128 || n >= 128 {
        return Err(ValueFault::BadValue);
    }
    put(&(n as i8).to_be_bytes(), out)
}

/// Appends a number of 16 bits.
fn put_int2(n: i64, out: &mut BytesMut) -> Result<IsNull, ValueFault>
    ensures { Writes false (int_given w16 n) out.old.items out.new.items result }
{
    if n < -32_768 || n >= 32_768 {
        return Err(ValueFault::BadValue);
    }
    let mut bytes = [0; 2];
    BigEndian::write_i16(&mut bytes, n as i16);
    put(&bytes, out)
}

/// Appends a number of 32 bits.
fn put_int4(n: i64, out: &mut BytesMut) -> Result<IsNull, ValueFault>
    ensures { Writes false (int_given w32 n) out.old.items out.new.items result }
{
    if n < -2_147_483_648 || n >= 2_147_483_648 {
        return Err(ValueFault::BadValue);
    }
    let mut bytes = [0; 4];
    BigEndian::write_i32(&mut bytes, n as i32);
    put(&bytes, out)
}

/// Appends a number of 64 bits.
fn put_int8(n: i64, out: &mut BytesMut) -> Result<IsNull, ValueFault>
    ensures { Writes false (int_given w64 n) out.old.items out.new.items result }
{
    let mut bytes = [0; 8];
    BigEndian::write_i64(&mut bytes, n);
    put(&bytes, out)
}

/// Appends an unsigned number of 32 bits.
fn put_oid(n: i64, out: &mut BytesMut) -> Result<IsNull, ValueFault>
    ensures { Writes false (oid_given n) out.old.items out.new.items result }
{
    if n < 0 || n >= 4_294_967_296 {
        return Err(ValueFault::BadValue);
    }
    let mut bytes = [0; 4];
    BigEndian::write_u32(&mut bytes, n as u32);
    put(&bytes, out)
}

/// Appends a whole number as the type has it.
fn put_number(n: i64, ty: &Type, out: &mut BytesMut) -> Result<IsNull, ValueFault>
    ensures { Writes false (number_given n ty.now.oid) out.old.items out.new.items result }
{
    match ty.oid() {
        oid::CHAR => put_char(n, out),
        oid::INT2 => put_int2(n, out),
        oid::INT4 => put_int4(n, out),
        oid::INT8 => put_int8(n, out),
        oid::OID => put_oid(n, out),
        _ => Err(wrong_type(ty)),
    }
}

impl ToSql for Value {
    ghost use Rattle.std.specs.Prelude.{false, true};
    ghost use Rattle.pg_types.specs.AnyValues.{value_gives, is_accepted};

    ghost gives = { λ v ty. value_gives v ty.oid };

    ghost has_parts = { false };

    ghost accepted = { λ v ty. is_accepted v ty.oid };

    ghost stands_for = { λ _. true };

    ghost rust = { rust_type.Value };

    fn type_fault(_ty: &Type) -> Option<WrongType> {
        None
    }

    fn to_sql(&self, ty: &Type, out: &mut BytesMut) -> Result<IsNull, ValueFault> {
        if !self.accepts(ty) {
            return Err(wrong_type(ty));
        }
        match self {
            Value::Null => Ok(IsNull::Yes),
            Value::Bool(b) => b.to_sql(ty, out),
            Value::Int(n) => put_number(*n, ty, out),
            Value::Text(text) => text.to_sql(ty, out),
            Value::Bytes(bytes) => bytes.to_sql(ty, out),
        }
    }

    fn accepts(&self, ty: &Type) -> bool {
        match self {
            Value::Null => true,
            Value::Bool(_) => ty.oid() == oid::BOOL,
            Value::Int(_) => is_int(ty),
            Value::Text(_) => is_text(ty),
            Value::Bytes(_) => ty.oid() == oid::BYTEA,
        }
    }

    fn to_sql_checked(&self, ty: &Type, out: &mut BytesMut) -> Result<IsNull, ValueFault> {
        if self.accepts(ty) {
            self.to_sql(ty, out)
        } else {
            Err(wrong_type(ty))
        }
    }
}
