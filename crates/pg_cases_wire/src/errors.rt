//! What the error of a call tells.

use crate::db_errors;
use pg_cases::written;
use pg_errors::{Cause, DbError, Error, ParseFields, Source, SqlState};
use pg_types::OutOfMemory;
use pg_wire::{ErrorResponseBody, Message, WireFault};
use std::alloc::{AllocError, Global};

fn tell_server(error: &DbError, out: &mut String) -> Result<(), AllocError> {
    write!(out, " from {:?} of the server", error.message())
}

fn tell_cause(cause: &Cause, out: &mut String) -> Result<(), AllocError> {
    write!(out, " from {cause:?}")
}

/// What an error comes from.
fn tell_source(source: &Option<Source>, out: &mut String) -> Result<(), AllocError> {
    match source {
        Some(Source::Db(error)) => tell_server(error, out),
        Some(Source::Cause(cause)) => tell_cause(cause, out),
        None => Ok(()),
    }
}

fn tell_source_of(error: Error, out: &mut String) -> Result<(), AllocError> {
    let source = error.into_source();
    tell_source(&source, out)
}

fn tell_state(
    error: &Error,
    state: &Result<SqlState, OutOfMemory>,
    out: &mut String,
) -> Result<(), AllocError> {
    match state {
        Ok(state) => write!(out, " code {}", error.code() == Some(state)),
        Err(_) => Err(AllocError),
    }
}

/// Whether an error has this code.
fn tell_code(alloc: Global, error: &Error, code: &str, out: &mut String) -> Result<(), AllocError> {
    let state = SqlState::from_code(alloc, code);
    tell_state(error, &state, out)
}

/// The texts of an error of the server by their letters.
fn tell_texts(error: Option<&DbError>, out: &mut String) -> Result<(), AllocError> {
    match error {
        Some(error) => db_errors::tell_letters(error, out),
        None => Ok(()),
    }
}

fn tell_sql_state(state: Option<&[u8]>, out: &mut String) -> Result<(), AllocError> {
    let Some(state) = state else {
        return Ok(());
    };
    out.push_str(" state")?;
    written::tell(state, out)
}

/// What the error of a call tells of an error of the server.
fn tell_error(
    alloc: Global,
    error: &Error,
    code: &str,
    out: &mut String,
) -> Result<(), AllocError> {
    write!(out, " {error}")?;
    write!(out, " kind {:?} closed {}", error.kind(), error.is_closed())?;
    tell_code(alloc, error, code, out)?;
    tell_texts(error.as_db_error(), out)?;
    tell_sql_state(error.sql_state(), out)
}

/// The error of a call for these fields, or why they can't be read.
fn error_of(alloc: Global, body: &ErrorResponseBody) -> Error {
    match DbError::parse(alloc, body) {
        Ok(error) => match Error::db(alloc, error) {
            Ok(error) => error,
            Err(_) => Error::OutOfMemory,
        },
        Err(error) => error,
    }
}

fn tell_body(
    alloc: Global,
    body: &ErrorResponseBody,
    code: &str,
    out: &mut String,
) -> Result<(), AllocError> {
    let error = error_of(alloc, body);
    let told = tell_error(alloc, &error, code, out);
    tell_source_of(error, out).and(told)
}

/// What the error of a call tells of an error of the server with these fields.
pub(crate) fn tell(
    alloc: Global,
    message: &Result<Option<Message>, WireFault>,
    code: &str,
    out: &mut String,
) -> Result<(), AllocError> {
    match message {
        Ok(Some(Message::ErrorResponse(body))) => tell_body(alloc, body, code, out),
        _ => out.push_str(" no error"),
    }
}
