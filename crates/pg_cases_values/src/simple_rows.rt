//! Rows of simple queries.

use crate::bodies::{behind, body_of, index_of};
use crate::row_refusals;
use pg_cases::words::{at, text, text_at};
use pg_cases::written;
use pg_errors::Error;
use pg_rows::{SimpleColumn, SimpleColumns, SimpleQueryRow};
use pg_types::{List, OutOfMemory, Text};
use pg_wire::DataRowBody;
use std::alloc::{AllocError, Global};

/// Names, parted by commas; none where the word is empty.
fn columns(alloc: Global, words: &str) -> Result<SimpleColumns, OutOfMemory> {
    let mut columns = List::empty(alloc);
    if words.is_empty() {
        return SimpleColumns::new(alloc, columns);
    }
    for word in words.split(',') {
        let column = SimpleColumn::new(Text::from_str(alloc, word)?);
        if columns.push(column).is_err() {
            return Err(OutOfMemory);
        }
    }
    SimpleColumns::new(alloc, columns)
}

fn tell_bytes(bytes: Option<&[u8]>, out: &mut String) -> Result<(), AllocError> {
    match bytes {
        Some(bytes) => written::tell(bytes, out),
        None => out.push_str(" null"),
    }
}

fn tell_read(read: &Result<Option<&str>, Error>, out: &mut String) -> Result<(), AllocError> {
    match read {
        Ok(text) => write!(out, " {text:?}"),
        Err(error) => row_refusals::tell(error, out),
    }
}

/// The text that an index means, by its word.
fn tell_text(
    alloc: Global,
    row: &SimpleQueryRow,
    word: &str,
    out: &mut String,
) -> Result<(), AllocError> {
    let read = row.try_get(alloc, index_of(word));
    tell_read(&read, out)
}

/// The bytes of each cell.
fn tell_cells(row: &SimpleQueryRow, out: &mut String) -> Result<(), AllocError> {
    for place in 0..row.len() {
        tell_bytes(row.cell(place), out)?;
    }
    Ok(())
}

/// The cells of a row, and the texts at the indexes behind.
fn tell_row(
    alloc: Global,
    row: &SimpleQueryRow,
    words: &[Vec<u8>],
    out: &mut String,
) -> Result<(), AllocError> {
    write!(out, " {}", row.len())?;
    tell_cells(row, out)?;
    for word in words.iter() {
        out.push_str(";")?;
        tell_text(alloc, row, text(word.as_slice()), out)?;
    }
    Ok(())
}

/// The row of these names that a DataRow is.
fn made_of(alloc: Global, names: &str, body: DataRowBody) -> Result<SimpleQueryRow, Error> {
    let columns = columns(alloc, names)?;
    SimpleQueryRow::new(columns, body)
}

fn tell_made(
    alloc: Global,
    made: &Result<SimpleQueryRow, Error>,
    words: &[Vec<u8>],
    out: &mut String,
) -> Result<(), AllocError> {
    match made {
        Ok(row) => tell_row(alloc, row, behind(words), out),
        Err(error) => row_refusals::tell(error, out),
    }
}

fn tell_body(
    alloc: Global,
    body: DataRowBody,
    words: &[Vec<u8>],
    out: &mut String,
) -> Result<(), AllocError> {
    let made = made_of(alloc, text_at(words, 1), body);
    tell_made(alloc, &made, words, out)
}

/// The words are the names of the columns, the body, and indexes.
pub(crate) fn tell(alloc: Global, words: &[Vec<u8>], out: &mut String) -> Result<(), AllocError> {
    match body_of(alloc, at(words, 2))? {
        Some(body) => tell_body(alloc, body, words, out),
        None => out.push_str(" no DataRow"),
    }
}
