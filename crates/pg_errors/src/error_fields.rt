//! The fields of an error or a notice, looked up by their kind (PostgreSQL documentation, "Error and
//! Notice Message Fields"). The last field of a kind counts.

ghost use Rattle.std.specs.Prelude.{◌≡◌, is_some, option_map, MatchResult};
ghost use Rattle.std.specs.Option.{option_and_then};
ghost use Rattle.std.specs.Str.{byte};
ghost use Rattle.std.specs.Str.Lossy.{utf8_lossy};
ghost use Rattle.pg_spec.specs.DbErrors as spec;
ghost use Rattle.pg_spec.specs.Numerals as numerals;
ghost use Rattle.pg_errors.specs.Fields.{fields_in, value_of};
ghost use Rattle.pg_errors.specs.Parts.{AreNames, AreWords, IsOrigin, IsRest};
ghost use Rattle.pg_types.specs.declared.error.Error.TheVariants.{OutOfMemory};

use crate::severity::named_severity;
use pg_types::{Error, ErrorPosition, Severity, Text};
use pg_wire::ErrorResponseBody;
use std::alloc::Global;

/// All of the body can be read, up to the zero byte that ends it.
pub(crate) fn are_laid_out(body: &ErrorResponseBody) -> bool
    ensures { result ≡ is_some (spec.error_fields body.now.fields) }
{
    let mut fields = body.fields();
    loop {
        match fields.next() {
            Ok(Some(_)) => {}
            Ok(None) => return true,
            Err(_) => return false,
        }
    }
}

/// The bytes of the last field of a kind.
pub(crate) fn last_value(body: &ErrorResponseBody, kind: u8) -> Option<&[u8]>
    ensures { option_map (λ value. value.now) result ≡ value_of kind (fields_in body.now.fields) }
{
    let mut fields = body.fields();
    let mut last = None;
    loop {
        let field = match fields.next() {
            Ok(Some(field)) => field,
            _ => return last,
        };
        if field.type_() == kind {
            last = Some(field.value_bytes());
        }
    }
}

/// Bytes as a text, with broken ones replaced.
fn text_of(alloc: Global, value: &[u8]) -> Result<Text, Error>
    ensures { MatchResult result (λ text. text ≡ utf8_lossy value.now) (λ e. e ≡ OutOfMemory) }
{
    Ok(Text::new(String::from_utf8_lossy(alloc, value)?))
}

/// The last field of a kind, as a text.
pub(crate) fn text(alloc: Global, body: &ErrorResponseBody, kind: u8) -> Result<Option<Text>, Error>
    ensures { MatchResult result (λ text. text ≡ spec.field_of kind (fields_in body.now.fields)) (λ e. e ≡ OutOfMemory) }
{
    let Some(value) = last_value(body, kind) else {
        return Ok(None);
    };
    Ok(Some(text_of(alloc, value)?))
}

fn number_in(text: &str) -> Option<u32>
    ensures { result ≡ numerals.number_in 32 text.now }
{
    text.parse::<u32>().ok()
}

/// The last field of a kind, as a number.
pub(crate) fn number(
    alloc: Global,
    body: &ErrorResponseBody,
    kind: u8,
) -> Result<Option<u32>, Error>
    ensures { MatchResult result (λ n. n ≡ spec.number_of kind (fields_in body.now.fields)) (λ e. e ≡ OutOfMemory) }
{
    match text(alloc, body, kind)? {
        Some(text) => Ok(number_in(text.as_str())),
        None => Ok(None),
    }
}

fn is_number(alloc: Global, value: &[u8]) -> Result<bool, Error>
    ensures { MatchResult result (λ b. b ≡ is_some (numerals.number_in 32 (utf8_lossy value.now))) (λ e. e ≡ OutOfMemory) }
{
    Ok(number_in(text_of(alloc, value)?.as_str()).is_some())
}

fn is_severity(alloc: Global, value: &[u8]) -> Result<bool, Error>
    ensures { MatchResult result (λ b. b ≡ is_some (spec.severity_named (utf8_lossy value.now))) (λ e. e ≡ OutOfMemory) }
{
    Ok(named_severity(text_of(alloc, value)?.as_str()).is_some())
}

/// Each field of a kind is a number.
pub(crate) fn are_numbers(alloc: Global, body: &ErrorResponseBody, kind: u8) -> Result<bool, Error>
    ensures { MatchResult result (λ b. b ≡ spec.are_numbers kind (fields_in body.now.fields)) (λ e. e ≡ OutOfMemory) }
{
    let mut fields = body.fields();
    loop {
        let field = match fields.next() {
            Ok(Some(field)) => field,
            _ => return Ok(true),
        };
        if field.type_() == kind {
            if !is_number(alloc, field.value_bytes())? {
                return Ok(false);
            }
        }
    }
}

/// Each severity that isn't translated is one of those that are known.
pub(crate) fn are_severities(alloc: Global, body: &ErrorResponseBody) -> Result<bool, Error>
    ensures { MatchResult result (λ b. b ≡ spec.are_severities (fields_in body.now.fields)) (λ e. e ≡ OutOfMemory) }
{
    let mut fields = body.fields();
    loop {
        let field = match fields.next() {
            Ok(Some(field)) => field,
            _ => return Ok(true),
        };
        if field.type_() == b'V' {
            if !is_severity(alloc, field.value_bytes())? {
                return Ok(false);
            }
        }
    }
}

/// The place in the query that was sent, else that in the server's own.
pub(crate) fn position(
    alloc: Global,
    body: &ErrorResponseBody,
) -> Result<Option<ErrorPosition>, Error>
    ensures { MatchResult result (λ p. p ≡ spec.position_of (fields_in body.now.fields)) (λ e. e ≡ OutOfMemory) }
{
    if let Some(place) = number(alloc, body, b'P')? {
        return Ok(Some(ErrorPosition::Original(place)));
    }
    let Some(position) = number(alloc, body, b'p')? else {
        return Ok(None);
    };
    match text(alloc, body, b'q')? {
        Some(query) => Ok(Some(ErrorPosition::Internal { position, query })),
        None => Ok(None),
    }
}

/// The severity that isn't translated.
pub(crate) fn parsed_severity(
    alloc: Global,
    body: &ErrorResponseBody,
) -> Result<Option<Severity>, Error>
    ensures { MatchResult result
        (λ s. s ≡ option_and_then spec.severity_named (spec.field_of (byte "V") (fields_in body.now.fields)))
        (λ e. e ≡ OutOfMemory) }
{
    match text(alloc, body, b'V')? {
        Some(name) => Ok(named_severity(name.as_str())),
        None => Ok(None),
    }
}

/// What an error may say beside its message.
#[derive(Drop)]
pub(crate) struct Words {
    pub(crate) parsed_severity: Option<Severity>,
    pub(crate) detail: Option<Text>,
    pub(crate) hint: Option<Text>,
    pub(crate) position: Option<ErrorPosition>,
    pub(crate) where_: Option<Text>,
}

fn read_words(alloc: Global, body: &ErrorResponseBody) -> Result<Words, Error>
    ensures { MatchResult result (AreWords (fields_in body.now.fields)) (λ e. e ≡ OutOfMemory) }
{
    Ok(Words {
        parsed_severity: parsed_severity(alloc, body)?,
        detail: text(alloc, body, b'D')?,
        hint: text(alloc, body, b'H')?,
        position: position(alloc, body)?,
        where_: text(alloc, body, b'W')?,
    })
}

/// What an error is about, by name.
#[derive(Drop)]
pub(crate) struct Names {
    pub(crate) schema: Option<Text>,
    pub(crate) table: Option<Text>,
    pub(crate) column: Option<Text>,
    pub(crate) datatype: Option<Text>,
    pub(crate) constraint: Option<Text>,
}

fn read_names(alloc: Global, body: &ErrorResponseBody) -> Result<Names, Error>
    ensures { MatchResult result (AreNames (fields_in body.now.fields)) (λ e. e ≡ OutOfMemory) }
{
    Ok(Names {
        schema: text(alloc, body, b's')?,
        table: text(alloc, body, b't')?,
        column: text(alloc, body, b'c')?,
        datatype: text(alloc, body, b'd')?,
        constraint: text(alloc, body, b'n')?,
    })
}

/// Where in the server's source an error was told.
#[derive(Drop)]
pub(crate) struct Origin {
    pub(crate) file: Option<Text>,
    pub(crate) line: Option<u32>,
    pub(crate) routine: Option<Text>,
}

fn read_origin(alloc: Global, body: &ErrorResponseBody) -> Result<Origin, Error>
    ensures { MatchResult result (IsOrigin (fields_in body.now.fields)) (λ e. e ≡ OutOfMemory) }
{
    Ok(Origin {
        file: text(alloc, body, b'F')?,
        line: number(alloc, body, b'L')?,
        routine: text(alloc, body, b'R')?,
    })
}

/// What an error may say beside its severity, its code and its message.
#[derive(Drop)]
pub(crate) struct Rest {
    pub(crate) words: Words,
    pub(crate) names: Names,
    pub(crate) origin: Origin,
}

pub(crate) fn read_rest(alloc: Global, body: &ErrorResponseBody) -> Result<Rest, Error>
    ensures { MatchResult result (IsRest (fields_in body.now.fields)) (λ e. e ≡ OutOfMemory) }
{
    Ok(Rest {
        words: read_words(alloc, body)?,
        names: read_names(alloc, body)?,
        origin: read_origin(alloc, body)?,
    })
}

/// Numbers are numbers, severities are known, and an inner place has its query.
pub(crate) fn are_in_form(alloc: Global, body: &ErrorResponseBody) -> Result<bool, Error>
    ensures { MatchResult result (λ b. b ≡ spec.are_in_form (fields_in body.now.fields)) (λ e. e ≡ OutOfMemory) }
{
    if !are_numbers(alloc, body, b'P')? {
        return Ok(false);
    }
    if !are_numbers(alloc, body, b'p')? {
        return Ok(false);
    }
    if !are_numbers(alloc, body, b'L')? {
        return Ok(false);
    }
    if !are_severities(alloc, body)? {
        return Ok(false);
    }
    if text(alloc, body, b'p')?.is_none() {
        return Ok(true);
    }
    Ok(position(alloc, body)?.is_some())
}
