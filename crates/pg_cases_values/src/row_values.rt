//! Values that are read from a row.

use crate::bodies::index_of;
use crate::row_refusals;
use pg_cases::written;
use pg_errors::Error;
use pg_rows::Row;
use pg_types::{Blob, FromSql, Text, Value};
use pg_values::Datum;
use std::alloc::{AllocError, Global};
use std::fmt::{Debug, Display};

fn tell_answer<T: Debug>(answer: &Result<T, Error>, out: &mut String) -> Result<(), AllocError> {
    match answer {
        Ok(value) => write!(out, " {value:?}"),
        Err(error) => row_refusals::tell(error, out),
    }
}

/// The value that an index means, by its word, as this Rust type.
fn tell_read<'a, T: FromSql<'a> + Debug + Drop>(
    alloc: Global,
    row: &'a Row,
    word: &str,
    out: &mut String,
) -> Result<(), AllocError> {
    let answer = row.try_get::<T>(alloc, index_of(word));
    tell_answer(&answer, out)
}

fn tell_shown<T: Display>(
    alloc: Global,
    answer: &Result<T, Error>,
    out: &mut String,
) -> Result<(), AllocError> {
    match answer {
        Ok(value) => {
            let text = format!(in alloc; "{value}")?;
            written::tell(text.as_str().as_bytes(), out)
        }
        Err(error) => row_refusals::tell(error, out),
    }
}

/// The value that an index means, by its word, as its text.
fn tell_text<'a, T: FromSql<'a> + Display + Drop>(
    alloc: Global,
    row: &'a Row,
    word: &str,
    out: &mut String,
) -> Result<(), AllocError> {
    let answer = row.try_get::<T>(alloc, index_of(word));
    tell_shown(alloc, &answer, out)
}

fn tell_number(
    alloc: Global,
    row: &Row,
    rust: &str,
    word: &str,
    out: &mut String,
) -> Result<(), AllocError> {
    match rust {
        "bool" => tell_read::<bool>(alloc, row, word, out),
        "i16" => tell_read::<i16>(alloc, row, word, out),
        "i32" => tell_read::<i32>(alloc, row, word, out),
        "i64" => tell_read::<i64>(alloc, row, word, out),
        "u32" => tell_read::<u32>(alloc, row, word, out),
        "Option<i32>" => tell_read::<Option<i32>>(alloc, row, word, out),
        _ => out.push_str(" no such Rust type"),
    }
}

/// The value that an index means, by its word, as the Rust type of this name.
pub(crate) fn tell(
    alloc: Global,
    row: &Row,
    rust: &str,
    word: &str,
    out: &mut String,
) -> Result<(), AllocError> {
    match rust {
        "&str" => tell_read::<&str>(alloc, row, word, out),
        "Option<&str>" => tell_read::<Option<&str>>(alloc, row, word, out),
        "&[u8]" => tell_read::<&[u8]>(alloc, row, word, out),
        "Text" => tell_read::<Text>(alloc, row, word, out),
        "Blob" => tell_read::<Blob>(alloc, row, word, out),
        "Value" => tell_read::<Value>(alloc, row, word, out),
        "Datum" => tell_text::<Datum>(alloc, row, word, out),
        _ => tell_number(alloc, row, rust, word, out),
    }
}
