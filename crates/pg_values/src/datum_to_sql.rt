//! A `Datum`, written as a parameter.

ghost use Rattle.pg_types.specs.declared.fault.RustType.TheVariants as rust_type;
ghost use Rattle.pg_values.specs.Supported.{is_supported};

use crate::datum::Datum;
use crate::supported::{is_supported, type_fault};
use crate::writing::write_datum;
use bytes::BytesMut;
use pg_types::{IsNull, ToSql, Type, ValueFault, WrongType};

/// A `Datum` is written by `write_datum`. It may stand under each supported type, whichever the value; BadValue comes where no bytes
/// of the type spell it.
impl ToSql for Datum {
    ghost use Rattle.std.specs.Prelude.{true};
    ghost use Rattle.pg_values.specs.Sending.{datum_gives};

    ghost gives = { λ v ty. datum_gives ty v };

    ghost has_parts = { true };

    ghost accepted = { λ _ ty. is_supported ty };

    ghost stands_for = { λ ty. is_supported ty };

    ghost rust = { rust_type.Other };

    fn type_fault(ty: &Type) -> Option<WrongType> {
        type_fault(ty)
    }

    fn to_sql(&self, ty: &Type, out: &mut BytesMut) -> Result<IsNull, ValueFault> {
        write_datum(self, ty, out)
    }

    fn accepts(&self, ty: &Type) -> bool {
        is_supported(ty)
    }

    fn to_sql_checked(&self, ty: &Type, out: &mut BytesMut) -> Result<IsNull, ValueFault> {
        write_datum(self, ty, out)
    }
}
