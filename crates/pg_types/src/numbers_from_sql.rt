//! Truth values and numbers, read.

use crate::from_sql::{FromSql, FromSqlOwned};
use crate::{Type, ValueFault, oid};
use byteorder::{BigEndian, ByteOrder};
use std::alloc::Global;

impl<'a> FromSql<'a> for bool {
    ghost use Rattle.std.specs.Prelude.{◌≡◌, ◌==◌, false};
    ghost use Rattle.pg_types.specs.Oids as oids;
    ghost use Rattle.pg_types.specs.Values.{Spells, refusal, has_length, bool_in};

    ghost stands_for = { λ ty. ty.oid == oids.bool };

    ghost spelled = { λ _ raw b. Spells bool_in raw b };

    ghost refused = { λ _ raw fault. refusal (has_length 1) raw ≡ fault };

    ghost owns_memory = { false };

    fn from_sql(_alloc: Global, _ty: &Type, raw: &'a [u8]) -> Result<bool, ValueFault> {
        if raw.len() != 1 {
            return Err(ValueFault::BadValue);
        }
        Ok(raw[0] != 0)
    }

    fn from_sql_null(_ty: &Type) -> Result<bool, ValueFault> {
        Err(ValueFault::WasNull)
    }

    fn from_sql_nullable(
        alloc: Global,
        ty: &Type,
        raw: Option<&'a [u8]>,
    ) -> Result<bool, ValueFault> {
        match raw {
            Some(raw) => Self::from_sql(alloc, ty, raw),
            None => Self::from_sql_null(ty),
        }
    }

    fn accepts(ty: &Type) -> bool {
        ty.oid() == oid::BOOL
    }
}

impl FromSqlOwned for bool {
    ghost use Rattle.std.specs.Prelude.{◌≡◌, ◌==◌, false};
    ghost use Rattle.pg_types.specs.Oids as oids;
    ghost use Rattle.pg_types.specs.Values.{Spells, refusal, has_length, bool_in};

    ghost stands_for = { λ ty. ty.oid == oids.bool };

    ghost spelled = { λ _ raw b. Spells bool_in raw b };

    ghost refused = { λ _ raw fault. refusal (has_length 1) raw ≡ fault };

    ghost owns_memory = { false };

    fn from_sql_owned(alloc: Global, ty: &Type, raw: Option<&[u8]>) -> Result<bool, ValueFault> {
        <bool as FromSql>::from_sql_nullable(alloc, ty, raw)
    }

    fn accepts_owned(ty: &Type) -> bool {
        <bool as FromSql>::accepts(ty)
    }
}

impl<'a> FromSql<'a> for i8 {
    ghost use Rattle.std.specs.Prelude.{◌≡◌, ◌==◌, false};
    ghost use Rattle.std.specs.Int.{w8};
    ghost use Rattle.pg_types.specs.Oids as oids;
    ghost use Rattle.pg_types.specs.Values.{Spells, refusal, has_length, int_in};

    ghost stands_for = { λ ty. ty.oid == oids.char };

    ghost spelled = { λ _ raw n. Spells (int_in w8) raw n };

    ghost refused = { λ _ raw fault. refusal (has_length 1) raw ≡ fault };

    ghost owns_memory = { false };

    fn from_sql(_alloc: Global, _ty: &Type, raw: &'a [u8]) -> Result<i8, ValueFault> {
        if raw.len() != 1 {
            return Err(ValueFault::BadValue);
        }
        Ok(i8::from_be_bytes([raw[0]]))
    }

    fn from_sql_null(_ty: &Type) -> Result<i8, ValueFault> {
        Err(ValueFault::WasNull)
    }

    fn from_sql_nullable(
        alloc: Global,
        ty: &Type,
        raw: Option<&'a [u8]>,
    ) -> Result<i8, ValueFault> {
        match raw {
            Some(raw) => Self::from_sql(alloc, ty, raw),
            None => Self::from_sql_null(ty),
        }
    }

    fn accepts(ty: &Type) -> bool {
        ty.oid() == oid::CHAR
    }
}

impl FromSqlOwned for i8 {
    ghost use Rattle.std.specs.Prelude.{◌≡◌, ◌==◌, false};
    ghost use Rattle.std.specs.Int.{w8};
    ghost use Rattle.pg_types.specs.Oids as oids;
    ghost use Rattle.pg_types.specs.Values.{Spells, refusal, has_length, int_in};

    ghost stands_for = { λ ty. ty.oid == oids.char };

    ghost spelled = { λ _ raw n. Spells (int_in w8) raw n };

    ghost refused = { λ _ raw fault. refusal (has_length 1) raw ≡ fault };

    ghost owns_memory = { false };

    fn from_sql_owned(alloc: Global, ty: &Type, raw: Option<&[u8]>) -> Result<i8, ValueFault> {
        <i8 as FromSql>::from_sql_nullable(alloc, ty, raw)
    }

    fn accepts_owned(ty: &Type) -> bool {
        <i8 as FromSql>::accepts(ty)
    }
}

impl<'a> FromSql<'a> for i16 {
    ghost use Rattle.std.specs.Prelude.{◌≡◌, ◌==◌, false};
    ghost use Rattle.std.specs.Int.{w16};
    ghost use Rattle.pg_types.specs.Oids as oids;
    ghost use Rattle.pg_types.specs.Values.{Spells, refusal, has_length, int_in};

    ghost stands_for = { λ ty. ty.oid == oids.int2 };

    ghost spelled = { λ _ raw n. Spells (int_in w16) raw n };

    ghost refused = { λ _ raw fault. refusal (has_length 2) raw ≡ fault };

    ghost owns_memory = { false };

    fn from_sql(_alloc: Global, _ty: &Type, raw: &'a [u8]) -> Result<i16, ValueFault> {
        if raw.len() != 2 {
            return Err(ValueFault::BadValue);
        }
        Ok(BigEndian::read_i16(raw))
    }

    fn from_sql_null(_ty: &Type) -> Result<i16, ValueFault> {
        Err(ValueFault::WasNull)
    }

    fn from_sql_nullable(
        alloc: Global,
        ty: &Type,
        raw: Option<&'a [u8]>,
    ) -> Result<i16, ValueFault> {
        match raw {
            Some(raw) => Self::from_sql(alloc, ty, raw),
            None => Self::from_sql_null(ty),
        }
    }

    fn accepts(ty: &Type) -> bool {
        ty.oid() == oid::INT2
    }
}

impl FromSqlOwned for i16 {
    ghost use Rattle.std.specs.Prelude.{◌≡◌, ◌==◌, false};
    ghost use Rattle.std.specs.Int.{w16};
    ghost use Rattle.pg_types.specs.Oids as oids;
    ghost use Rattle.pg_types.specs.Values.{Spells, refusal, has_length, int_in};

    ghost stands_for = { λ ty. ty.oid == oids.int2 };

    ghost spelled = { λ _ raw n. Spells (int_in w16) raw n };

    ghost refused = { λ _ raw fault. refusal (has_length 2) raw ≡ fault };

    ghost owns_memory = { false };

    fn from_sql_owned(alloc: Global, ty: &Type, raw: Option<&[u8]>) -> Result<i16, ValueFault> {
        <i16 as FromSql>::from_sql_nullable(alloc, ty, raw)
    }

    fn accepts_owned(ty: &Type) -> bool {
        <i16 as FromSql>::accepts(ty)
    }
}

impl<'a> FromSql<'a> for i32 {
    ghost use Rattle.std.specs.Prelude.{◌≡◌, ◌==◌, false};
    ghost use Rattle.std.specs.Int.{w32};
    ghost use Rattle.pg_types.specs.Oids as oids;
    ghost use Rattle.pg_types.specs.Values.{Spells, refusal, has_length, int_in};

    ghost stands_for = { λ ty. ty.oid == oids.int4 };

    ghost spelled = { λ _ raw n. Spells (int_in w32) raw n };

    ghost refused = { λ _ raw fault. refusal (has_length 4) raw ≡ fault };

    ghost owns_memory = { false };

    fn from_sql(_alloc: Global, _ty: &Type, raw: &'a [u8]) -> Result<i32, ValueFault> {
        if raw.len() != 4 {
            return Err(ValueFault::BadValue);
        }
        Ok(BigEndian::read_i32(raw))
    }

    fn from_sql_null(_ty: &Type) -> Result<i32, ValueFault> {
        Err(ValueFault::WasNull)
    }

    fn from_sql_nullable(
        alloc: Global,
        ty: &Type,
        raw: Option<&'a [u8]>,
    ) -> Result<i32, ValueFault> {
        match raw {
            Some(raw) => Self::from_sql(alloc, ty, raw),
            None => Self::from_sql_null(ty),
        }
    }

    fn accepts(ty: &Type) -> bool {
        ty.oid() == oid::INT4
    }
}

impl FromSqlOwned for i32 {
    ghost use Rattle.std.specs.Prelude.{◌≡◌, ◌==◌, false};
    ghost use Rattle.std.specs.Int.{w32};
    ghost use Rattle.pg_types.specs.Oids as oids;
    ghost use Rattle.pg_types.specs.Values.{Spells, refusal, has_length, int_in};

    ghost stands_for = { λ ty. ty.oid == oids.int4 };

    ghost spelled = { λ _ raw n. Spells (int_in w32) raw n };

    ghost refused = { λ _ raw fault. refusal (has_length 4) raw ≡ fault };

    ghost owns_memory = { false };

    fn from_sql_owned(alloc: Global, ty: &Type, raw: Option<&[u8]>) -> Result<i32, ValueFault> {
        <i32 as FromSql>::from_sql_nullable(alloc, ty, raw)
    }

    fn accepts_owned(ty: &Type) -> bool {
        <i32 as FromSql>::accepts(ty)
    }
}

impl<'a> FromSql<'a> for i64 {
    ghost use Rattle.std.specs.Prelude.{◌≡◌, ◌==◌, false};
    ghost use Rattle.std.specs.Int.{w64};
    ghost use Rattle.pg_types.specs.Oids as oids;
    ghost use Rattle.pg_types.specs.Values.{Spells, refusal, has_length, int_in};

    ghost stands_for = { λ ty. ty.oid == oids.int8 };

    ghost spelled = { λ _ raw n. Spells (int_in w64) raw n };

    ghost refused = { λ _ raw fault. refusal (has_length 8) raw ≡ fault };

    ghost owns_memory = { false };

    fn from_sql(_alloc: Global, _ty: &Type, raw: &'a [u8]) -> Result<i64, ValueFault> {
        if raw.len() != 8 {
            return Err(ValueFault::BadValue);
        }
        Ok(BigEndian::read_i64(raw))
    }

    fn from_sql_null(_ty: &Type) -> Result<i64, ValueFault> {
        Err(ValueFault::WasNull)
    }

    fn from_sql_nullable(
        alloc: Global,
        ty: &Type,
        raw: Option<&'a [u8]>,
    ) -> Result<i64, ValueFault> {
        match raw {
            Some(raw) => Self::from_sql(alloc, ty, raw),
            None => Self::from_sql_null(ty),
        }
    }

    fn accepts(ty: &Type) -> bool {
        ty.oid() == oid::INT8
    }
}

impl FromSqlOwned for i64 {
    ghost use Rattle.std.specs.Prelude.{◌≡◌, ◌==◌, false};
    ghost use Rattle.std.specs.Int.{w64};
    ghost use Rattle.pg_types.specs.Oids as oids;
    ghost use Rattle.pg_types.specs.Values.{Spells, refusal, has_length, int_in};

    ghost stands_for = { λ ty. ty.oid == oids.int8 };

    ghost spelled = { λ _ raw n. Spells (int_in w64) raw n };

    ghost refused = { λ _ raw fault. refusal (has_length 8) raw ≡ fault };

    ghost owns_memory = { false };

    fn from_sql_owned(alloc: Global, ty: &Type, raw: Option<&[u8]>) -> Result<i64, ValueFault> {
        <i64 as FromSql>::from_sql_nullable(alloc, ty, raw)
    }

    fn accepts_owned(ty: &Type) -> bool {
        <i64 as FromSql>::accepts(ty)
    }
}

impl<'a> FromSql<'a> for u32 {
    ghost use Rattle.std.specs.Prelude.{◌≡◌, ◌==◌, false};
    ghost use Rattle.pg_types.specs.Oids as oids;
    ghost use Rattle.pg_types.specs.Values.{Spells, refusal, has_length, oid_in};

    ghost stands_for = { λ ty. ty.oid == oids.oid };

    ghost spelled = { λ _ raw n. Spells oid_in raw n };

    ghost refused = { λ _ raw fault. refusal (has_length 4) raw ≡ fault };

    ghost owns_memory = { false };

    fn from_sql(_alloc: Global, _ty: &Type, raw: &'a [u8]) -> Result<u32, ValueFault> {
        if raw.len() != 4 {
            return Err(ValueFault::BadValue);
        }
        Ok(BigEndian::read_u32(raw))
    }

    fn from_sql_null(_ty: &Type) -> Result<u32, ValueFault> {
        Err(ValueFault::WasNull)
    }

    fn from_sql_nullable(
        alloc: Global,
        ty: &Type,
        raw: Option<&'a [u8]>,
    ) -> Result<u32, ValueFault> {
        match raw {
            Some(raw) => Self::from_sql(alloc, ty, raw),
            None => Self::from_sql_null(ty),
        }
    }

    fn accepts(ty: &Type) -> bool {
        ty.oid() == oid::OID
    }
}

impl FromSqlOwned for u32 {
    ghost use Rattle.std.specs.Prelude.{◌≡◌, ◌==◌, false};
    ghost use Rattle.pg_types.specs.Oids as oids;
    ghost use Rattle.pg_types.specs.Values.{Spells, refusal, has_length, oid_in};

    ghost stands_for = { λ ty. ty.oid == oids.oid };

    ghost spelled = { λ _ raw n. Spells oid_in raw n };

    ghost refused = { λ _ raw fault. refusal (has_length 4) raw ≡ fault };

    ghost owns_memory = { false };

    fn from_sql_owned(alloc: Global, ty: &Type, raw: Option<&[u8]>) -> Result<u32, ValueFault> {
        <u32 as FromSql>::from_sql_nullable(alloc, ty, raw)
    }

    fn accepts_owned(ty: &Type) -> bool {
        <u32 as FromSql>::accepts(ty)
    }
}
