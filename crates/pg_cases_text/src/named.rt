//! The lines that a report has for errors of each variant, by its name.

use pg_cases::words::text_at;
use pg_cases::written;
use pg_errors::{Cause, Error};
use pg_text::error_text;
use pg_types::{Blob, OutOfMemory, Text, ValueFault};
use std::alloc::{AllocError, Global};

fn number_at(words: &[Vec<u8>], place: usize) -> u64 {
    text_at(words, place).parse::<u64>().unwrap_or(0)
}

fn place_at(words: &[Vec<u8>], place: usize) -> usize {
    text_at(words, place).parse::<usize>().unwrap_or(0)
}

/// The error of a variant with numbers.
fn numbered(words: &[Vec<u8>]) -> Error {
    match text_at(words, 1) {
        "ToSql" => Error::ToSql(place_at(words, 2), Cause::Value(ValueFault::BadValue)),
        "FromSql" => Error::FromSql(place_at(words, 2), Cause::Value(ValueFault::WasNull)),
        "Parameters" => Error::Parameters(place_at(words, 2), place_at(words, 3)),
        "Stalled" => Error::Stalled {
            before: number_at(words, 2),
            after: number_at(words, 3),
        },
        "LimitReached" => Error::LimitReached {
            given: number_at(words, 2),
            limit: number_at(words, 3),
        },
        _ => Error::Missing,
    }
}

/// The error of a variant that comes from something.
fn caused(words: &[Vec<u8>]) -> Error {
    match text_at(words, 1) {
        "Io" => Error::Io(Cause::Link),
        "Tls" => Error::Tls(Cause::Refused),
        "Parse" => Error::Parse(Cause::BinaryCopy),
        "Encode" => Error::Encode(Cause::Counter),
        "Authentication" => Error::Authentication(Cause::Method),
        "ConfigParse" => Error::ConfigParse(Cause::Syntax),
        "Config" => Error::Config(Cause::NoUser),
        "Connect" => Error::Connect(Cause::Link),
        _ => numbered(words),
    }
}

/// The error of the variant of this name, but for Column and Db.
pub(crate) fn error_of(words: &[Vec<u8>]) -> Error {
    match text_at(words, 1) {
        "UnexpectedMessage" => Error::UnexpectedMessage,
        "ColumnCount" => Error::ColumnCount,
        "Closed" => Error::Closed,
        "RowCount" => Error::RowCount,
        "OutOfMemory" => Error::OutOfMemory,
        _ => caused(words),
    }
}

fn tell_line(line: &Result<Blob, OutOfMemory>, out: &mut String) -> Result<(), AllocError> {
    match line {
        Ok(line) => written::tell(line.as_slice(), out),
        Err(OutOfMemory) => Err(AllocError),
    }
}

fn tell_error(alloc: Global, error: &Error, out: &mut String) -> Result<(), AllocError> {
    let line = error_text(alloc, error);
    tell_line(&line, out)
}

fn tell_owned(alloc: Global, error: Error, out: &mut String) -> Result<(), AllocError> {
    tell_error(alloc, &error, out)
}

/// The line for the error of a variant.
pub(crate) fn tell(alloc: Global, words: &[Vec<u8>], out: &mut String) -> Result<(), AllocError> {
    tell_owned(alloc, error_of(words), out)
}

/// The line for the error of a column of this name.
pub(crate) fn tell_column(alloc: Global, name: &str, out: &mut String) -> Result<(), AllocError> {
    match Text::from_str(alloc, name) {
        Ok(name) => tell_owned(alloc, Error::Column(name), out),
        Err(OutOfMemory) => Err(AllocError),
    }
}
