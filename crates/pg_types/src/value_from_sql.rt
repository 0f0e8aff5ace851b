//! A `Value`, read.

use crate::from_sql::{FromSql, FromSqlOwned};
use crate::texts_to_sql::is_text;
use crate::value_to_sql::{is_int, wrong_type};
use crate::{Blob, Text, Type, Value, ValueFault, oid};
use std::alloc::Global;

impl<'a> FromSql<'a> for Value {
    ghost use Rattle.std.specs.Prelude.{◌≡◌, true};
    ghost use Rattle.pg_types.specs.AnyValues.{SpellsValue, value_refusal, is_read};

    ghost stands_for = { λ ty. is_read ty.oid };

    ghost spelled = { λ ty raw v. SpellsValue ty.oid raw v };

    ghost refused = { λ ty raw fault. value_refusal ty.oid raw ≡ fault };

    ghost owns_memory = { true };

    fn from_sql(alloc: Global, ty: &Type, raw: &'a [u8]) -> Result<Value, ValueFault> {
        match ty.oid() {
            oid::BOOL => Ok(Value::Bool(bool::from_sql(alloc, ty, raw)?)),
            oid::CHAR => Ok(Value::Int(i8::from_sql(alloc, ty, raw)? as i64)),
            oid::INT2 => Ok(Value::Int(i16::from_sql(alloc, ty, raw)? as i64)),
            oid::INT4 => Ok(Value::Int(i32::from_sql(alloc, ty, raw)? as i64)),
            oid::INT8 => Ok(Value::Int(i64::from_sql(alloc, ty, raw)?)),
            oid::OID => Ok(Value::Int(u32::from_sql(alloc, ty, raw)? as i64)),
            oid::TEXT | oid::VARCHAR | oid::BPCHAR | oid::NAME | oid::UNKNOWN => {
                Ok(Value::Text(Text::from_sql(alloc, ty, raw)?))
            }
            oid::BYTEA => Ok(Value::Bytes(Blob::from_sql(alloc, ty, raw)?)),
            _ => Err(wrong_type(ty)),
        }
    }

    fn from_sql_null(_ty: &Type) -> Result<Value, ValueFault> {
        Ok(Value::Null)
    }

    fn from_sql_nullable(
        alloc: Global,
        ty: &Type,
        raw: Option<&'a [u8]>,
    ) -> Result<Value, ValueFault> {
        match raw {
            Some(raw) => Self::from_sql(alloc, ty, raw),
            None => Self::from_sql_null(ty),
        }
    }

    fn accepts(ty: &Type) -> bool {
        ty.oid() == oid::BOOL || is_int(ty) || is_text(ty) || ty.oid() == oid::BYTEA
    }
}

impl FromSqlOwned for Value {
    ghost use Rattle.std.specs.Prelude.{◌≡◌, true};
    ghost use Rattle.pg_types.specs.AnyValues.{SpellsValue, value_refusal, is_read};

    ghost stands_for = { λ ty. is_read ty.oid };

    ghost spelled = { λ ty raw v. SpellsValue ty.oid raw v };

    ghost refused = { λ ty raw fault. value_refusal ty.oid raw ≡ fault };

    ghost owns_memory = { true };

    fn from_sql_owned(alloc: Global, ty: &Type, raw: Option<&[u8]>) -> Result<Value, ValueFault> {
        <Value as FromSql>::from_sql_nullable(alloc, ty, raw)
    }

    fn accepts_owned(ty: &Type) -> bool {
        <Value as FromSql>::accepts(ty)
    }
}
