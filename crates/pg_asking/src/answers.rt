//! What calls answered, in words.

use pg_cases::written;
use std::alloc::{AllocError, Global};
use tokio_postgres::types::{List, Type, Value};
use tokio_postgres::{
    AsyncMessage, Column, Error, Row, RowIndex, Running, SimpleColumn, SimpleQueryMessage,
    SimpleQueryRow, Statement,
};

/// What a call may answer.
pub trait Told: Drop {
    /// Tells it, in words.
    fn tell(self, alloc: Global, out: &mut String) -> Result<(), AllocError>;
}

/// An error, and what the server said in it.
pub fn tell_error(error: &Error, out: &mut String) -> Result<(), AllocError> {
    write!(out, " refused {error}")?;
    match error.as_db_error() {
        Some(said) => write!(out, " {said}"),
        None => Ok(()),
    }
}

/// An answer, or an error.
pub fn tell_answer<T: Told>(
    alloc: Global,
    answer: Result<T, Error>,
    out: &mut String,
) -> Result<(), AllocError> {
    match answer {
        Ok(answer) => answer.tell(alloc, out),
        Err(error) => tell_error(&error, out),
    }
}

/// A message that no request asked for.
pub fn tell_aside(message: &AsyncMessage, out: &mut String) -> Result<(), AllocError> {
    match message {
        AsyncMessage::Notice(notice) => write!(out, " notice {}", notice.get()),
        AsyncMessage::Notification(it) => {
            write!(
                out,
                " notification {} {:?} {:?}",
                it.process_id(),
                it.channel(),
                it.payload()
            )
        }
    }
}

/// Columns, each with its type.
pub fn tell_columns(columns: &[Column], out: &mut String) -> Result<(), AllocError> {
    out.push_str(" columns")?;
    for column in columns {
        write!(out, " {:?} {}", column.name(), column.type_().name())?;
    }
    Ok(())
}

/// Types of parameters.
fn tell_types(types: &[Type], out: &mut String) -> Result<(), AllocError> {
    for ty in types {
        write!(out, " {}", ty.name())?;
    }
    Ok(())
}

/// A prepared statement: its name, the types of its parameters, and its columns.
impl Told for Statement {
    fn tell(self, alloc: Global, out: &mut String) -> Result<(), AllocError> {
        write!(out, " statement {:?}", self.name())?;
        tell_types(self.params(), out)?;
        tell_columns(self.columns(), out)
    }
}

/// A value.
fn tell_value(value: &Value, out: &mut String) -> Result<(), AllocError> {
    match value {
        Value::Null => out.push_str(" null"),
        Value::Bool(it) => write!(out, " {it}"),
        Value::Int(n) => write!(out, " {n}"),
        Value::Text(text) => write!(out, " {:?}", text.as_str()),
        Value::Bytes(bytes) => written::tell(bytes.as_slice(), out),
    }
}

/// A value of a row, or why it isn't one.
fn tell_read(value: Result<Value, Error>, out: &mut String) -> Result<(), AllocError> {
    match &value {
        Ok(value) => tell_value(value, out),
        Err(error) => tell_error(error, out),
    }
}

/// A row, value by value.
fn tell_row(alloc: Global, row: &Row, out: &mut String) -> Result<(), AllocError> {
    out.push_str(" row")?;
    for i in 0..row.len() {
        tell_read(row.try_get(alloc, RowIndex::At(i)), out)?;
    }
    Ok(())
}

/// A row, under its columns.
impl Told for Row {
    fn tell(self, alloc: Global, out: &mut String) -> Result<(), AllocError> {
        tell_columns(self.columns(), out)?;
        tell_row(alloc, &self, out)
    }
}

impl Told for Option<Row> {
    fn tell(self, alloc: Global, out: &mut String) -> Result<(), AllocError> {
        match self {
            Some(row) => row.tell(alloc, out),
            None => out.push_str(" none"),
        }
    }
}

impl Told for List<Row> {
    fn tell(self, alloc: Global, out: &mut String) -> Result<(), AllocError> {
        out.push_str(" rows")?;
        for row in self.as_slice() {
            tell_columns(row.columns(), out)?;
            tell_row(alloc, row, out)?;
        }
        Ok(())
    }
}

impl Told for Value {
    fn tell(self, alloc: Global, out: &mut String) -> Result<(), AllocError> {
        out.push_str(" value")?;
        tell_value(&self, out)
    }
}

impl Told for Option<Value> {
    fn tell(self, alloc: Global, out: &mut String) -> Result<(), AllocError> {
        match self {
            Some(value) => value.tell(alloc, out),
            None => out.push_str(" none"),
        }
    }
}

/// The values of one column.
impl Told for List<Value> {
    fn tell(self, alloc: Global, out: &mut String) -> Result<(), AllocError> {
        out.push_str(" values")?;
        for value in self.as_slice() {
            tell_value(value, out)?;
        }
        Ok(())
    }
}

/// How many rows were affected.
impl Told for u64 {
    fn tell(self, alloc: Global, out: &mut String) -> Result<(), AllocError> {
        write!(out, " affected {self}")
    }
}

/// The end alone.
impl Told for () {
    fn tell(self, alloc: Global, out: &mut String) -> Result<(), AllocError> {
        out.push_str(" done")
    }
}

/// Names of columns of a simple query.
fn tell_simple_columns(columns: &[SimpleColumn], out: &mut String) -> Result<(), AllocError> {
    out.push_str(" columns")?;
    for column in columns {
        write!(out, " {:?}", column.name())?;
    }
    Ok(())
}

/// A value of a row of a simple query, or why it isn't one.
fn tell_text(text: Result<Option<&str>, Error>, out: &mut String) -> Result<(), AllocError> {
    match &text {
        Ok(Some(text)) => written::tell(text.as_bytes(), out),
        Ok(None) => out.push_str(" null"),
        Err(error) => tell_error(error, out),
    }
}

/// A row of a simple query.
fn tell_simple_row(
    alloc: Global,
    row: &SimpleQueryRow,
    out: &mut String,
) -> Result<(), AllocError> {
    out.push_str(" row")?;
    for i in 0..row.len() {
        tell_text(row.try_get(alloc, RowIndex::At(i)), out)?;
    }
    Ok(())
}

/// A part of the reply to a simple query.
fn tell_part(alloc: Global, part: &SimpleQueryMessage, out: &mut String) -> Result<(), AllocError> {
    match part {
        SimpleQueryMessage::Row(row) => tell_simple_row(alloc, row, out),
        SimpleQueryMessage::CommandComplete(n) => write!(out, " complete {n}"),
        SimpleQueryMessage::RowDescription(columns) => tell_simple_columns(columns.as_slice(), out),
    }
}

/// A part of a stream of a simple query.
impl Told for SimpleQueryMessage {
    fn tell(self, alloc: Global, out: &mut String) -> Result<(), AllocError> {
        tell_part(alloc, &self, out)
    }
}

/// What a simple query answered, part by part.
impl Told for List<SimpleQueryMessage> {
    fn tell(self, alloc: Global, out: &mut String) -> Result<(), AllocError> {
        for part in self.as_slice() {
            tell_part(alloc, part, out)?;
        }
        Ok(())
    }
}

/// The answer of a task.
pub fn tell_running<T: Told, S: Drop>(
    alloc: Global,
    task: Running<S, T>,
    out: &mut String,
) -> Result<(), AllocError> {
    match task {
        Running::Answered(answer) => tell_answer(alloc, answer, out),
        Running::Polled(_, _) => out.push_str(" waits"),
    }
}
