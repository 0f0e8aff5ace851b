//! Texts and bytes, read.

ghost use Rattle.std.specs.Prelude.{◌≡◌, true, false, MatchOption};
ghost use Rattle.std.specs.Str.{is_utf8};

use crate::from_sql::{FromSql, FromSqlOwned};
use crate::texts_to_sql::is_text;
use crate::{Blob, Text, Type, ValueFault, oid};
use std::alloc::Global;
use std::str;

/// The bytes as a text. None: they aren't UTF-8.
pub(crate) fn utf8(bytes: &[u8]) -> Option<&str>
    ensures { MatchOption result
        (is_utf8 bytes.now ≡ false)
        (λ text. (text.now ≡ bytes.now) × (is_utf8 bytes.now ≡ true)) }
{
    match str::from_utf8(bytes) {
        Ok(text) => Some(text),
        Err(_) => None,
    }
}

impl<'a> FromSql<'a> for &'a str {
    ghost use Rattle.std.specs.Prelude.{◌≡◌, false};
    ghost use Rattle.std.specs.Str.{is_utf8};
    ghost use Rattle.pg_types.specs.Oids as oids;
    ghost use Rattle.pg_types.specs.Values.{Spells, refusal};

    ghost stands_for = { λ ty. oids.is_text ty.oid };

    ghost spelled = { λ _ raw s. Spells (λ bytes. bytes) raw s.now };

    ghost refused = { λ _ raw fault. refusal is_utf8 raw ≡ fault };

    ghost owns_memory = { false };

    fn from_sql(_alloc: Global, _ty: &Type, raw: &'a [u8]) -> Result<&'a str, ValueFault> {
        match utf8(raw) {
            Some(text) => Ok(text),
            None => Err(ValueFault::BadValue),
        }
    }

    fn from_sql_null(_ty: &Type) -> Result<&'a str, ValueFault> {
        Err(ValueFault::WasNull)
    }

    fn from_sql_nullable(
        alloc: Global,
        ty: &Type,
        raw: Option<&'a [u8]>,
    ) -> Result<&'a str, ValueFault> {
        match raw {
            Some(raw) => Self::from_sql(alloc, ty, raw),
            None => Self::from_sql_null(ty),
        }
    }

    fn accepts(ty: &Type) -> bool
        ensures { result ≡ (oids.is_text ty.now.oid) }
    {
        is_text(ty)
    }
}

impl<'a> FromSql<'a> for Text {
    ghost use Rattle.std.specs.Prelude.{◌≡◌, true};
    ghost use Rattle.std.specs.Str.{is_utf8};
    ghost use Rattle.pg_types.specs.Oids as oids;
    ghost use Rattle.pg_types.specs.Values.{Spells, refusal};

    ghost stands_for = { λ ty. oids.is_text ty.oid };

    ghost spelled = { λ _ raw t. Spells (λ bytes. bytes) raw t };

    ghost refused = { λ _ raw fault. refusal is_utf8 raw ≡ fault };

    ghost owns_memory = { true };

    fn from_sql(alloc: Global, _ty: &Type, raw: &'a [u8]) -> Result<Text, ValueFault> {
        let Some(text) = utf8(raw) else {
            return Err(ValueFault::BadValue);
        };
        Ok(Text::from_str(alloc, text)?)
    }

    fn from_sql_null(_ty: &Type) -> Result<Text, ValueFault> {
        Err(ValueFault::WasNull)
    }

    fn from_sql_nullable(
        alloc: Global,
        ty: &Type,
        raw: Option<&'a [u8]>,
    ) -> Result<Text, ValueFault> {
        match raw {
            Some(raw) => Self::from_sql(alloc, ty, raw),
            None => Self::from_sql_null(ty),
        }
    }

    fn accepts(ty: &Type) -> bool {
        is_text(ty)
    }
}

impl FromSqlOwned for Text {
    ghost use Rattle.std.specs.Prelude.{◌≡◌, true};
    ghost use Rattle.std.specs.Str.{is_utf8};
    ghost use Rattle.pg_types.specs.Oids as oids;
    ghost use Rattle.pg_types.specs.Values.{Spells, refusal};

    ghost stands_for = { λ ty. oids.is_text ty.oid };

    ghost spelled = { λ _ raw t. Spells (λ bytes. bytes) raw t };

    ghost refused = { λ _ raw fault. refusal is_utf8 raw ≡ fault };

    ghost owns_memory = { true };

    fn from_sql_owned(alloc: Global, ty: &Type, raw: Option<&[u8]>) -> Result<Text, ValueFault> {
        <Text as FromSql>::from_sql_nullable(alloc, ty, raw)
    }

    fn accepts_owned(ty: &Type) -> bool {
        <Text as FromSql>::accepts(ty)
    }
}

impl<'a> FromSql<'a> for &'a [u8] {
    ghost use Rattle.std.specs.Prelude.{◌≡◌, ◌==◌, false, true};
    ghost use Rattle.pg_types.specs.Oids as oids;
    ghost use Rattle.pg_types.specs.Values.{Spells, refusal};

    ghost stands_for = { λ ty. ty.oid == oids.bytea };

    ghost spelled = { λ _ raw b. Spells (λ bytes. bytes) raw b.now };

    ghost refused = { λ _ raw fault. refusal (λ _. true) raw ≡ fault };

    ghost owns_memory = { false };

    fn from_sql(_alloc: Global, _ty: &Type, raw: &'a [u8]) -> Result<&'a [u8], ValueFault> {
        Ok(raw)
    }

    fn from_sql_null(_ty: &Type) -> Result<&'a [u8], ValueFault> {
        Err(ValueFault::WasNull)
    }

    fn from_sql_nullable(
        alloc: Global,
        ty: &Type,
        raw: Option<&'a [u8]>,
    ) -> Result<&'a [u8], ValueFault> {
        match raw {
            Some(raw) => Self::from_sql(alloc, ty, raw),
            None => Self::from_sql_null(ty),
        }
    }

    fn accepts(ty: &Type) -> bool
        ensures { result ≡ (ty.now.oid == oids.bytea) }
    {
        ty.oid() == oid::BYTEA
    }
}

impl<'a> FromSql<'a> for Blob {
    ghost use Rattle.std.specs.Prelude.{◌≡◌, ◌==◌, true};
    ghost use Rattle.pg_types.specs.Oids as oids;
    ghost use Rattle.pg_types.specs.Values.{Spells, refusal};

    ghost stands_for = { λ ty. ty.oid == oids.bytea };

    ghost spelled = { λ _ raw b. Spells (λ bytes. bytes) raw b };

    ghost refused = { λ _ raw fault. refusal (λ _. true) raw ≡ fault };

    ghost owns_memory = { true };

    fn from_sql(alloc: Global, _ty: &Type, raw: &'a [u8]) -> Result<Blob, ValueFault> {
        Ok(Blob::from_slice(alloc, raw)?)
    }

    fn from_sql_null(_ty: &Type) -> Result<Blob, ValueFault> {
        Err(ValueFault::WasNull)
    }

    fn from_sql_nullable(
        alloc: Global,
        ty: &Type,
        raw: Option<&'a [u8]>,
    ) -> Result<Blob, ValueFault> {
        match raw {
            Some(raw) => Self::from_sql(alloc, ty, raw),
            None => Self::from_sql_null(ty),
        }
    }

    fn accepts(ty: &Type) -> bool {
        ty.oid() == oid::BYTEA
    }
}

impl FromSqlOwned for Blob {
    ghost use Rattle.std.specs.Prelude.{◌≡◌, ◌==◌, true};
    ghost use Rattle.pg_types.specs.Oids as oids;
    ghost use Rattle.pg_types.specs.Values.{Spells, refusal};

    ghost stands_for = { λ ty. ty.oid == oids.bytea };

    ghost spelled = { λ _ raw b. Spells (λ bytes. bytes) raw b };

    ghost refused = { λ _ raw fault. refusal (λ _. true) raw ≡ fault };

    ghost owns_memory = { true };

    fn from_sql_owned(alloc: Global, ty: &Type, raw: Option<&[u8]>) -> Result<Blob, ValueFault> {
        <Blob as FromSql>::from_sql_nullable(alloc, ty, raw)
    }

    fn accepts_owned(ty: &Type) -> bool {
        <Blob as FromSql>::accepts(ty)
    }
}
