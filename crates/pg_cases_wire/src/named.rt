//! Errors of each variant, by its name.

use pg_cases::words::text_at;
use pg_cases::written;
use pg_errors::{Cause, Error, ErrorKind, ScramFault};
use pg_types::{OutOfMemory, RustType, Text, ValueFault, WrongType};
use std::alloc::{AllocError, Global};

// A text is refused for an int4.
const WRONG_TYPE: WrongType = WrongType {
    postgres: 23,
    rust: RustType::Str,
};

fn number_at(words: &[Vec<u8>], place: usize) -> u64 {
    text_at(words, place).parse::<u64>().unwrap_or(0)
}

fn place_at(words: &[Vec<u8>], place: usize) -> usize {
    text_at(words, place).parse::<usize>().unwrap_or(0)
}

/// The error of a variant with numbers.
fn numbered(words: &[Vec<u8>]) -> Error {
    match text_at(words, 1) {
        "ToSql" => Error::ToSql(
            place_at(words, 2),
            Cause::Value(ValueFault::WrongType(WRONG_TYPE)),
        ),
        "FromSql" => Error::FromSql(place_at(words, 2), Cause::Value(ValueFault::WasNull)),
        "Parameters" => Error::Parameters(place_at(words, 2), place_at(words, 3)),
        "Stalled" => Error::Stalled {
            before: number_at(words, 2),
            after: number_at(words, 3),
        },
        "LimitReached" => Error::LimitReached {
            given: number_at(words, 2),
            limit: number_at(words, 3),
        },
        _ => Error::Missing,
    }
}

/// The error of a variant that comes from something.
fn caused(words: &[Vec<u8>]) -> Error {
    match text_at(words, 1) {
        "Io" => Error::Io(Cause::Link),
        "Tls" => Error::Tls(Cause::Refused),
        "Parse" => Error::Parse(Cause::BinaryCopy),
        "Encode" => Error::Encode(Cause::Counter),
        "Authentication" => Error::Authentication(Cause::Method),
        "ConfigParse" => Error::ConfigParse(Cause::Syntax),
        "Config" => Error::Config(Cause::NoUser),
        "Connect" => Error::Connect(Cause::Link),
        _ => numbered(words),
    }
}

/// The error of the variant of this name, but for Column and Db.
fn error_of(words: &[Vec<u8>]) -> Error {
    match text_at(words, 1) {
        "UnexpectedMessage" => Error::UnexpectedMessage,
        "ColumnCount" => Error::ColumnCount,
        "Closed" => Error::Closed,
        "RowCount" => Error::RowCount,
        "OutOfMemory" => Error::OutOfMemory,
        _ => caused(words),
    }
}

fn tell_place(place: Option<usize>, out: &mut String) -> Result<(), AllocError> {
    match place {
        Some(place) => write!(out, " place {place}"),
        None => Ok(()),
    }
}

fn tell_numbers(numbers: Option<(u64, u64)>, out: &mut String) -> Result<(), AllocError> {
    match numbers {
        Some((first, second)) => write!(out, " numbers {first} {second}"),
        None => Ok(()),
    }
}

fn tell_text(text: Option<&[u8]>, out: &mut String) -> Result<(), AllocError> {
    match text {
        Some(text) => written::tell(text, out),
        None => Ok(()),
    }
}

/// That there is a cause, and its text, where it has one.
fn tell_cause(cause: Option<&Cause>, out: &mut String) -> Result<(), AllocError> {
    let Some(cause) = cause else {
        return Ok(());
    };
    out.push_str(" cause")?;
    tell_text(cause.text(), out)
}

/// The kind and its number.
fn tell_kind(kind: ErrorKind, out: &mut String) -> Result<(), AllocError> {
    write!(out, " {kind:?} {}", kind as u8)
}

/// The sentence of an error, its kind, and what it holds.
fn tell_error(error: &Error, out: &mut String) -> Result<(), AllocError> {
    write!(out, " {error};")?;
    tell_kind(error.kind(), out)?;
    tell_place(error.place(), out)?;
    tell_numbers(error.numbers(), out)?;
    tell_cause(error.cause(), out)
}

fn tell_owned(error: Error, out: &mut String) -> Result<(), AllocError> {
    tell_error(&error, out)
}

/// What the error of a variant tells.
pub(crate) fn tell(words: &[Vec<u8>], out: &mut String) -> Result<(), AllocError> {
    tell_owned(error_of(words), out)
}

/// What the error of a column of this name tells.
pub(crate) fn tell_column(alloc: Global, name: &str, out: &mut String) -> Result<(), AllocError> {
    match Text::from_str(alloc, name) {
        Ok(name) => tell_owned(Error::Column(name), out),
        Err(OutOfMemory) => Err(AllocError),
    }
}

fn refused_by(word: Text) -> Error {
    Error::Authentication(Cause::Scram(ScramFault::ServerError(word)))
}

/// What the error of a login tells that the server refused by this word.
pub(crate) fn tell_word(alloc: Global, word: &str, out: &mut String) -> Result<(), AllocError> {
    match Text::from_str(alloc, word) {
        Ok(word) => tell_owned(refused_by(word), out),
        Err(OutOfMemory) => Err(AllocError),
    }
}
