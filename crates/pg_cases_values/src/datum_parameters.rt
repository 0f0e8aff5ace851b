//! Values that are read from a row, and written as parameters.

use crate::datums::{bytes_of, tell_written, typed};
use bytes::BytesMut;
use pg_cases::words::{at, text_at};
use pg_cases::written;
use pg_types::{FromSql, FromSqlOwned, ToSql, Type, ValueFault};
use pg_values::Datum;
use std::alloc::{AllocError, Global};

/// The value of a row, where its column has this type.
fn value_of(alloc: Global, column: &Type, raw: Option<&[u8]>) -> Result<Datum, ValueFault> {
    match raw {
        Some(raw) => Datum::from_sql(alloc, column, raw),
        None => Datum::from_sql_null(column),
    }
}

/// The text of the value that keeps nothing of the row, or the fault.
fn tell_owned(
    alloc: Global,
    column: &Type,
    raw: Option<&[u8]>,
    out: &mut String,
) -> Result<(), AllocError> {
    match Datum::from_sql_owned(alloc, column, raw) {
        Ok(value) => {
            let text = format!(in alloc; "{value}")?;
            written::tell(text.as_str().as_bytes(), out)
        }
        Err(fault) => write!(out, " {fault:?}"),
    }
}

/// What the value of a row is read as, and what it is written as as a parameter.
fn tell_parameter(
    alloc: Global,
    ty: &Type,
    column: &Type,
    raw: Option<&[u8]>,
    out: &mut String,
) -> Result<(), AllocError> {
    tell_owned(alloc, column, raw, out)?;
    match value_of(alloc, column, raw) {
        Ok(value) => {
            let mut bytes = BytesMut::new(alloc);
            let answer = value.to_sql_checked(ty, &mut bytes);
            tell_written(answer, bytes.as_slice(), raw, out)
        }
        Err(fault) => write!(out, " {fault:?}"),
    }
}

/// The words are the type of the parameter, that of the column, and bytes in hexadecimal or `null`.
pub(crate) fn tell(alloc: Global, words: &[Vec<u8>], out: &mut String) -> Result<(), AllocError> {
    let ty = typed(alloc, text_at(words, 1))?;
    let column = typed(alloc, text_at(words, 2))?;
    if text_at(words, 3) == "null" {
        return tell_parameter(alloc, &ty, &column, None, out);
    }
    let bytes = bytes_of(alloc, at(words, 3))?;
    tell_parameter(alloc, &ty, &column, Some(bytes.as_slice()), out)
}
