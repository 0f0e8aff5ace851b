//! Values that are read.

use crate::refusal;
use pg_cases::words::{at, text_at};
use pg_types::{Blob, FromSql, FromSqlOwned, OutOfMemory, Text, Type, Value, ValueFault};
use std::alloc::{AllocError, Global};
use std::fmt::Debug;

fn tell_answer<T: Debug>(
    answer: &Result<T, ValueFault>,
    out: &mut String,
) -> Result<(), AllocError> {
    match answer {
        Ok(value) => write!(out, " {value:?}"),
        Err(fault) => refusal::tell(*fault, out),
    }
}

/// What is read as an owned value.
fn tell_owned<T: FromSqlOwned + Debug + Drop>(
    alloc: Global,
    ty: &Type,
    raw: Option<&[u8]>,
    out: &mut String,
) -> Result<(), AllocError> {
    let answer = T::from_sql_owned(alloc, ty, raw);
    tell_answer(&answer, out)
}

/// What is read as a value that may borrow.
fn tell_lent<'a, T: FromSql<'a> + Debug + Drop>(
    alloc: Global,
    ty: &Type,
    raw: Option<&'a [u8]>,
    out: &mut String,
) -> Result<(), AllocError> {
    let answer = T::from_sql_nullable(alloc, ty, raw);
    tell_answer(&answer, out)
}

fn tell_number(
    alloc: Global,
    rust: &str,
    ty: &Type,
    raw: Option<&[u8]>,
    out: &mut String,
) -> Result<(), AllocError> {
    match rust {
        "bool" => tell_owned::<bool>(alloc, ty, raw, out),
        "i8" => tell_owned::<i8>(alloc, ty, raw, out),
        "i16" => tell_owned::<i16>(alloc, ty, raw, out),
        "i32" => tell_owned::<i32>(alloc, ty, raw, out),
        "i64" => tell_owned::<i64>(alloc, ty, raw, out),
        "u32" => tell_owned::<u32>(alloc, ty, raw, out),
        _ => tell_owned::<Option<i16>>(alloc, ty, raw, out),
    }
}

fn tell_as(
    alloc: Global,
    rust: &str,
    ty: &Type,
    raw: Option<&[u8]>,
    out: &mut String,
) -> Result<(), AllocError> {
    match rust {
        "&str" => tell_lent::<&str>(alloc, ty, raw, out),
        "&[u8]" => tell_lent::<&[u8]>(alloc, ty, raw, out),
        "Text" => tell_owned::<Text>(alloc, ty, raw, out),
        "Blob" => tell_owned::<Blob>(alloc, ty, raw, out),
        "Value" => tell_owned::<Value>(alloc, ty, raw, out),
        _ => tell_number(alloc, rust, ty, raw, out),
    }
}

/// The bytes of the last word, or null.
fn raw_of(words: &[Vec<u8>]) -> Option<&[u8]> {
    match text_at(words, 3) {
        "null" => None,
        _ => Some(at(words, 3)),
    }
}

/// What bytes, or null, are read as: the Rust type, the oid of the type, and the bytes.
pub(crate) fn tell(alloc: Global, words: &[Vec<u8>], out: &mut String) -> Result<(), AllocError> {
    let oid = text_at(words, 2).parse::<u32>().unwrap_or(0);
    let raw = raw_of(words);
    match Type::from_oid(alloc, oid) {
        Ok(Some(ty)) => tell_as(alloc, text_at(words, 1), &ty, raw, out),
        Ok(None) => out.push_str(" no type"),
        Err(OutOfMemory) => Err(AllocError),
    }
}
