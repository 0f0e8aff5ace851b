//! Rows of statements.

use crate::bodies::{behind, body_of};
use crate::{row_refusals, row_values};
use pg_cases::words::{at, text_at};
use pg_desk::{Column, Statement};
use pg_errors::Error;
use pg_rows::Row;
use pg_types::{Kind, List, OutOfMemory, Text, Type};
use pg_wire::DataRowBody;
use std::alloc::{AllocError, Global};

/// The type of this oid, by its built-in name, or else a simple one without a name.
fn type_of(alloc: Global, oid: u32) -> Result<Type, OutOfMemory> {
    match Type::from_oid(alloc, oid)? {
        Some(type_) => Ok(type_),
        None => {
            let schema = Text::from_str(alloc, "pg_catalog")?;
            Type::new(alloc, Text::from_str(alloc, "")?, oid, Kind::Simple, schema)
        }
    }
}

/// A column as `name:oid`; without an oid it is a text.
fn column(alloc: Global, word: &str) -> Result<Column, OutOfMemory> {
    let (name, oid) = word.rsplit_once(':').unwrap_or((word, "25"));
    let type_ = type_of(alloc, oid.parse::<u32>().unwrap_or(25))?;
    Ok(Column::new(Text::from_str(alloc, name)?, 0, 0, -1, type_))
}

/// Columns, parted by commas; none where the word is empty.
fn columns(alloc: Global, words: &str) -> Result<List<Column>, OutOfMemory> {
    let mut columns = List::empty(alloc);
    if words.is_empty() {
        return Ok(columns);
    }
    for word in words.split(',') {
        if columns.push(column(alloc, word)?).is_err() {
            return Err(OutOfMemory);
        }
    }
    Ok(columns)
}

fn statement(alloc: Global, words: &str) -> Result<Statement, OutOfMemory> {
    let name = Text::from_str(alloc, "s0")?;
    Statement::new(alloc, name, List::empty(alloc), columns(alloc, words)?)
}

/// How many columns a row has and how many bytes it takes, and the values at the words behind, each a Rust type and an index.
fn tell_row(
    alloc: Global,
    row: &Row,
    words: &[Vec<u8>],
    out: &mut String,
) -> Result<(), AllocError> {
    write!(out, " {} of {} bytes", row.len(), row.raw_size_bytes())?;
    for pair in words.chunks_exact(2) {
        out.push_str(";")?;
        row_values::tell(alloc, row, text_at(pair, 0), text_at(pair, 1), out)?;
    }
    Ok(())
}

/// The row of these columns that a DataRow is.
fn made_of(alloc: Global, columns: &str, body: DataRowBody) -> Result<Row, Error> {
    let statement = statement(alloc, columns)?;
    Row::new(statement, body)
}

fn tell_made(
    alloc: Global,
    made: &Result<Row, Error>,
    words: &[Vec<u8>],
    out: &mut String,
) -> Result<(), AllocError> {
    match made {
        Ok(row) => tell_row(alloc, row, behind(words), out),
        Err(error) => row_refusals::tell(error, out),
    }
}

fn tell_body(
    alloc: Global,
    body: DataRowBody,
    words: &[Vec<u8>],
    out: &mut String,
) -> Result<(), AllocError> {
    let made = made_of(alloc, text_at(words, 1), body);
    tell_made(alloc, &made, words, out)
}

/// The words are the columns, the body, and Rust types and indexes.
pub(crate) fn tell(alloc: Global, words: &[Vec<u8>], out: &mut String) -> Result<(), AllocError> {
    match body_of(alloc, at(words, 2))? {
        Some(body) => tell_body(alloc, body, words, out),
        None => out.push_str(" no DataRow"),
    }
}
