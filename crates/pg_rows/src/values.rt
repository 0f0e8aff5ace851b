//! Cells as Rust types, under the types of their columns.

ghost use Rattle.std.specs.Prelude.{◌≡◌, Ok, Err, option_map, MatchResult};
ghost use Rattle.pg_rows.specs.Values.{ReadsText, ReadsUnder, error_at};

use pg_types::{Cause, Error, FromSql, RustType, Type, ValueFault, WrongType};
use std::alloc::Global;
use std::str;

/// A value of this type. The type is judged first, then the bytes.
pub(crate) fn value_of<'a, T: FromSql<'a>>(
    alloc: Global,
    ty: &Type,
    raw: Option<&'a [u8]>,
) -> Result<T, ValueFault>
    ensures { ReadsUnder T.owns_memory T.stands_for T.spelled T.refused ty.now (option_map (λ r. r.now) raw.entry) result }
{
    if !T::accepts(ty) {
        // The trait doesn't tell which Rust type it is.
        return Err(ValueFault::WrongType(WrongType {
            postgres: ty.oid(),
            rust: RustType::Other,
        }));
    }
    T::from_sql_nullable(alloc, ty, raw)
}

/// A text, none for null.
pub(crate) fn text(raw: Option<&[u8]>) -> Result<Option<&str>, ValueFault>
    ensures { ReadsText (option_map (λ r. r.now) raw.entry) result }
{
    let Some(bytes) = raw else {
        return Ok(None);
    };
    match str::from_utf8(bytes) {
        Ok(text) => Ok(Some(text)),
        Err(_) => Err(ValueFault::BadValue),
    }
}

/// The error of the column at a place whose cell is refused.
fn refused_at(place: usize, fault: ValueFault) -> Error
    ensures { result ≡ error_at place fault }
{
    match fault {
        ValueFault::OutOfMemory => Error::OutOfMemory,
        _ => Error::FromSql(place, Cause::Value(fault)),
    }
}

/// The value that was read of the cell at a place, or its error.
pub(crate) fn answer_at<T>(place: usize, read: Result<T, ValueFault>) -> Result<T, Error>
    ensures { MatchResult read (λ value. result ≡ Ok value) (λ fault. result ≡ Err (error_at place fault)) }
{
    match read {
        Ok(value) => Ok(value),
        Err(fault) => Err(refused_at(place, fault)),
    }
}
