//! A `Datum`, read from the values of a row.

use crate::datum::Datum;
use crate::reading::read_datum;
use crate::supported::{is_supported, type_fault};
use pg_types::{FromSql, FromSqlOwned, Type, ValueFault};
use std::alloc::Global;

/// A `Datum` is read by `read_datum`, and null as `Datum::Null`. It stands for each supported type; any other is WrongType.
impl<'a> FromSql<'a> for Datum {
    ghost use Rattle.std.specs.Prelude.{false, true};
    ghost use Rattle.pg_values.specs.Supported.{is_supported};
    ghost use Rattle.pg_values.specs.Spelling.{spells};
    ghost use Rattle.pg_values.specs.Reading.{RefusesDatum};

    ghost stands_for = { λ ty. is_supported ty };

    ghost spelled = { λ ty raw v. spells false ty v raw };

    ghost refused = { λ ty raw fault. RefusesDatum ty raw fault };

    ghost owns_memory = { true };

    fn from_sql(alloc: Global, ty: &Type, raw: &'a [u8]) -> Result<Datum, ValueFault> {
        read_datum(alloc, ty, Some(raw))
    }

    fn from_sql_null(ty: &Type) -> Result<Datum, ValueFault> {
        match type_fault(ty) {
            None => Ok(Datum::Null),
            Some(wrong) => Err(ValueFault::WrongType(wrong)),
        }
    }

    fn from_sql_nullable(
        alloc: Global,
        ty: &Type,
        raw: Option<&'a [u8]>,
    ) -> Result<Datum, ValueFault> {
        read_datum(alloc, ty, raw)
    }

    fn accepts(ty: &Type) -> bool {
        is_supported(ty)
    }
}

/// Like `FromSql`: a `Datum` keeps nothing of the bytes.
impl FromSqlOwned for Datum {
    ghost use Rattle.std.specs.Prelude.{false, true};
    ghost use Rattle.pg_values.specs.Supported.{is_supported};
    ghost use Rattle.pg_values.specs.Spelling.{spells};
    ghost use Rattle.pg_values.specs.Reading.{RefusesDatum};

    ghost stands_for = { λ ty. is_supported ty };

    ghost spelled = { λ ty raw v. spells false ty v raw };

    ghost refused = { λ ty raw fault. RefusesDatum ty raw fault };

    ghost owns_memory = { true };

    fn from_sql_owned(alloc: Global, ty: &Type, raw: Option<&[u8]>) -> Result<Datum, ValueFault> {
        read_datum(alloc, ty, raw)
    }

    fn accepts_owned(ty: &Type) -> bool {
        is_supported(ty)
    }
}
