//! Which parts the server puts into quotes (PostgreSQL source, array_out, range_out, record_out).

use crate::datum::{Datum, Dim};
use crate::escape::Place;
use crate::time_text::{is_date_odd, is_moment};

/// Whether a character asks for quotes.
fn is_special(place: Place, c: char) -> bool {
    match c {
        '"' | '\\' | ',' | ' ' | '\t' | '\n' | '\r' | '\x0b' | '\x0c' => true,
        '{' | '}' => place == Place::Array,
        '(' | ')' => place != Place::Array,
        '[' | ']' => place == Place::Range,
        _ => false,
    }
}

/// Whether a text has a character that asks for quotes.
fn is_text_odd(place: Place, text: &str) -> bool {
    text.chars().any(|c| is_special(place, c))
}

/// Whether a text stands in quotes.
fn is_text_quoted(place: Place, text: &str) -> bool {
    text.is_empty()
        || is_text_odd(place, text)
        || place == Place::Array && text.eq_ignore_ascii_case("null")
}

/// Whether the subscripts of a dimension are told.
pub(crate) fn is_shifted(dims: &[Dim]) -> bool {
    dims.iter().any(|dim| dim.lower != 1)
}

/// Whether the text of an array has a character that asks for quotes.
#[cycle(odd)]
fn is_array_odd(place: Place, dims: &[Dim], items: &[Datum]) -> bool {
    if place == Place::Array || place == Place::Range && is_shifted(dims) || items.len() > 1 {
        return true;
    }
    for item in items {
        if is_quoted(Place::Array, item) || is_odd(place, item) {
            return true;
        }
    }
    false
}

/// Whether the text of a composite has a character that asks for quotes.
#[cycle(odd)]
fn is_row_odd(place: Place, fields: &[Datum]) -> bool {
    if place != Place::Array || fields.len() > 1 {
        return true;
    }
    for field in fields {
        if is_quoted(Place::Row, field) || is_odd(place, field) {
            return true;
        }
    }
    false
}

/// Whether the text of a value has a character that asks for quotes.
#[cycle(odd)]
fn is_odd(place: Place, value: &Datum) -> bool {
    match value {
        Datum::Text(text) | Datum::Label(text) => is_text_odd(place, text.as_str()),
        Datum::Bytes(_) => true,
        Datum::Date(days) => is_date_odd(*days),
        Datum::Timestamp(microseconds) => is_moment(*microseconds),
        Datum::Array { dims, items } => is_array_odd(
            place,
            dims.get().as_slice(),
            items.as_slice(),
        ),
        Datum::Range { empty, .. } => !*empty,
        Datum::Composite(fields) => is_row_odd(place, fields.as_slice()),
        _ => false,
    }
}

/// Whether a part that isn't null stands in quotes.
#[cycle(odd)]
pub(crate) fn is_quoted(place: Place, value: &Datum) -> bool {
    match value {
        Datum::Text(text) | Datum::Label(text) => is_text_quoted(place, text.as_str()),
        _ => is_odd(place, value),
    }
}
