//! How errors and notices of the server are read.

ghost use Rattle.pg_errors.specs.Parsing.{ParsesError};

use crate::error_fields::{are_in_form, are_laid_out, read_rest, text};
use pg_types::{Cause, DbError, Error, SqlState};
use pg_wire::ErrorResponseBody;
use std::alloc::Global;

/// What is read from the fields of an error or a notice. It is a trait because `DbError` is declared below the
/// bodies of messages.
pub trait ParseFields: Sized {
    /// Reads the fields of an error or a notice. Parse(Fields) comes exactly where they aren't those of
    /// one.
    fn parse(alloc: Global, body: &ErrorResponseBody) -> Result<Self, Error>;
}

impl ParseFields for DbError {
    fn parse(alloc: Global, body: &ErrorResponseBody) -> Result<DbError, Error>
        ensures { ParsesError body.now.fields result }
    {
        if !are_laid_out(body) || !are_in_form(alloc, body)? {
            return Err(Error::Parse(Cause::Fields));
        }
        let Some(severity) = text(alloc, body, b'S')? else {
            return Err(Error::Parse(Cause::Fields));
        };
        let Some(code) = text(alloc, body, b'C')? else {
            return Err(Error::Parse(Cause::Fields));
        };
        let Some(message) = text(alloc, body, b'M')? else {
            return Err(Error::Parse(Cause::Fields));
        };
        let rest = read_rest(alloc, body)?;
        Ok(DbError {
            severity,
            parsed_severity: rest.words.parsed_severity,
            code: SqlState::new(code),
            message,
            detail: rest.words.detail,
            hint: rest.words.hint,
            position: rest.words.position,
            where_: rest.words.where_,
            schema: rest.names.schema,
            table: rest.names.table,
            column: rest.names.column,
            datatype: rest.names.datatype,
            constraint: rest.names.constraint,
            file: rest.origin.file,
            line: rest.origin.line,
            routine: rest.origin.routine,
        })
    }
}
