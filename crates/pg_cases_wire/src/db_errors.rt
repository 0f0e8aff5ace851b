//! What errors of the server tell.

use pg_cases::written;
use pg_errors::{DbError, Error, ErrorPosition, ParseFields};
use pg_types::OutOfMemory;
use pg_wire::{ErrorResponseBody, Message, WireFault};
use std::alloc::{AllocError, Global};

/// A field that may lack.
fn tell_field(name: &str, value: Option<&str>, out: &mut String) -> Result<(), AllocError> {
    match value {
        Some(value) => write!(out, " {name}={value:?}"),
        None => Ok(()),
    }
}

fn tell_number(name: &str, number: Option<u32>, out: &mut String) -> Result<(), AllocError> {
    match number {
        Some(number) => write!(out, " {name}={number}"),
        None => Ok(()),
    }
}

fn tell_position(position: Option<&ErrorPosition>, out: &mut String) -> Result<(), AllocError> {
    match position {
        Some(ErrorPosition::Original(place)) => tell_number("position", Some(*place), out),
        Some(ErrorPosition::Internal { position, query }) => {
            tell_number("internal", Some(*position), out)?;
            tell_field("of", Some(query.as_str()), out)
        }
        None => Ok(()),
    }
}

fn tell_severity(error: &DbError, out: &mut String) -> Result<(), AllocError> {
    match error.parsed_severity() {
        Some(severity) => write!(out, " parsed={severity}"),
        None => Ok(()),
    }
}

fn tell_names(error: &DbError, out: &mut String) -> Result<(), AllocError> {
    tell_field("where", error.where_(), out)?;
    tell_field("schema", error.schema(), out)?;
    tell_field("table", error.table(), out)?;
    tell_field("column", error.column(), out)?;
    tell_field("datatype", error.datatype(), out)?;
    tell_field("constraint", error.constraint(), out)
}

fn tell_origin(error: &DbError, out: &mut String) -> Result<(), AllocError> {
    tell_field("file", error.file(), out)?;
    tell_number("line", error.line(), out)?;
    tell_field("routine", error.routine(), out)
}

/// The fields of an error.
pub(crate) fn tell_fields(error: &DbError, out: &mut String) -> Result<(), AllocError> {
    tell_field("severity", Some(error.severity()), out)?;
    tell_severity(error, out)?;
    tell_field("code", Some(error.code().code()), out)?;
    tell_field("message", Some(error.message()), out)?;
    tell_field("detail", error.detail(), out)?;
    tell_field("hint", error.hint(), out)?;
    tell_position(error.position(), out)?;
    tell_names(error, out)?;
    tell_origin(error, out)
}

/// What is printed of an error.
fn tell_printed(alloc: Global, error: &DbError, out: &mut String) -> Result<(), AllocError> {
    let text = format!(in alloc; "{error}")?;
    write!(out, " prints {:?}", text.as_str())
}

/// The letters of the fields, as the manual has them. No field has the letter Z.
const LETTERS: &[u8] = b"SVCMDHPpqWstcdnFLRZ";

/// The text of a letter, where there is one.
fn tell_letter(letter: u8, text: Option<&[u8]>, out: &mut String) -> Result<(), AllocError> {
    let Some(text) = text else {
        return Ok(());
    };
    out.push_str(" ")?;
    out.push(char::from(letter))?;
    written::tell(text, out)
}

/// The texts of an error by their letters.
pub(crate) fn tell_letters(error: &DbError, out: &mut String) -> Result<(), AllocError> {
    for &letter in LETTERS {
        tell_letter(letter, error.field(letter), out)?;
    }
    Ok(())
}

/// All that an error tells.
fn tell_error(alloc: Global, error: &DbError, out: &mut String) -> Result<(), AllocError> {
    tell_fields(error, out)?;
    tell_printed(alloc, error, out)
}

fn tell_copied(
    alloc: Global,
    copy: &Result<DbError, OutOfMemory>,
    out: &mut String,
) -> Result<(), AllocError> {
    match copy {
        Ok(copy) => tell_error(alloc, copy, out),
        Err(_) => Err(AllocError),
    }
}

/// What a copy of an error tells.
fn tell_copy(alloc: Global, error: &DbError, out: &mut String) -> Result<(), AllocError> {
    let copy = error.copy(alloc);
    tell_copied(alloc, &copy, out)
}

/// Why there is no value.
pub(crate) fn tell_refusal(error: &Error, out: &mut String) -> Result<(), AllocError> {
    write!(out, " refused {error:?}")
}

fn tell_read(
    alloc: Global,
    read: &Result<DbError, Error>,
    out: &mut String,
) -> Result<(), AllocError> {
    match read {
        Ok(error) => tell_copy(alloc, error, out),
        Err(error) => tell_refusal(error, out),
    }
}

fn tell_body(alloc: Global, body: &ErrorResponseBody, out: &mut String) -> Result<(), AllocError> {
    let read = DbError::parse(alloc, body);
    tell_read(alloc, &read, out)
}

/// What the fields of an error say.
pub(crate) fn tell(
    alloc: Global,
    message: &Result<Option<Message>, WireFault>,
    out: &mut String,
) -> Result<(), AllocError> {
    match message {
        Ok(Some(Message::ErrorResponse(body))) => tell_body(alloc, body, out),
        _ => out.push_str(" no error"),
    }
}
