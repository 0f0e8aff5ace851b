//! A value as the server prints it in text.

ghost use Rattle.std.specs.Prelude.{◌≤◌};

use crate::datum::{Bound, Datum, Dim};
use crate::escape::{Around, Place, put, put_bytes, put_text, put_uuid};
use crate::numeric::power;
use crate::quotes::{is_quoted, is_shifted};
use crate::time_text::{put_date, put_timestamp};
use std::fmt;

/// A number divided by ten to a power, and the remainder.
fn split(number: u128, k: u32) -> (u128, u128)
    requires { k ≤ 38 }
{
    let unit = power(k);
    (number / unit, number % unit)
}

/// The digits of a number, so many of them.
fn put_decimals<W: fmt::Write>(number: u128, len: u16, f: &mut fmt::Formatter<W>) -> fmt::Result {
    let mut rest = number;
    for place in 0..len {
        let (digit, behind) = split(rest, (len - 1 - place).min(38) as u32);
        write!(f, "{digit}")?;
        rest = behind;
    }
    Ok(())
}

/// A number of so many decimals behind its point.
fn put_number<W: fmt::Write>(unscaled: i128, scale: u16, f: &mut fmt::Formatter<W>) -> fmt::Result {
    let number = unscaled.unsigned_abs();
    let (front, behind) = split(number, scale.min(38) as u32);
    if unscaled < 0 {
        f.write_char('-')?;
    }
    write!(f, "{front}")?;
    if scale > 0 {
        f.write_char('.')?;
    }
    put_decimals(behind, scale.min(38), f)
}

/// How many dimensions an item begins that stands at a place, or the one in front of it ends.
fn borders(dims: &[Dim], place: u64) -> usize {
    let mut span: u64 = 1;
    dims.iter()
        .rev()
        .filter(|dim| {
            span = span.saturating_mul(dim.len.max(1) as u64);
            place.checked_rem(span) == Some(0)
        })
        .count()
}

/// A character, so many times.
fn put_many<W: fmt::Write>(c: char, count: usize, f: &mut fmt::Formatter<W>) -> fmt::Result {
    for _ in 0..count {
        f.write_char(c)?;
    }
    Ok(())
}

/// The subscripts of an array, where one doesn't begin with 1.
fn put_subscripts<W: fmt::Write>(dims: &[Dim], f: &mut fmt::Formatter<W>) -> fmt::Result {
    if !is_shifted(dims) {
        return Ok(());
    }
    for dim in dims {
        let upper = dim.lower as i64 + dim.len as i64 - 1;
        write!(f, "[{}:{}]", dim.lower, upper)?;
    }
    f.write_char('=')
}

/// A part that isn't null.
#[cycle(display)]
fn put_part<W: fmt::Write>(
    place: Place,
    value: &Datum,
    around: Around,
    f: &mut fmt::Formatter<W>,
) -> fmt::Result {
    if !is_quoted(place, value) {
        return put_value(value, around, f);
    }
    put(around, '"', f)?;
    put_value(value, around.and(place), f)?;
    put(around, '"', f)
}

/// An item of an array.
#[cycle(display)]
fn put_item<W: fmt::Write>(
    value: &Datum,
    around: Around,
    f: &mut fmt::Formatter<W>,
) -> fmt::Result {
    match value {
        Datum::Null => f.write_str("NULL"),
        _ => put_part(Place::Array, value, around, f),
    }
}

/// An array.
#[cycle(display)]
fn put_array<W: fmt::Write>(
    dims: &[Dim],
    items: &[Datum],
    around: Around,
    f: &mut fmt::Formatter<W>,
) -> fmt::Result {
    if items.is_empty() {
        return f.write_str("{}");
    }
    put_subscripts(dims, f)?;
    for (place, item) in items.iter().enumerate() {
        if place > 0 {
            f.write_char(',')?;
        }
        put_many('{', borders(dims, place as u64), f)?;
        put_item(item, around, f)?;
        put_many('}', borders(dims, place as u64 + 1), f)?;
    }
    Ok(())
}

/// The values of some bounds.
#[cycle(display)]
fn put_bounds<W: fmt::Write>(
    lower: Bound,
    bounds: &[Datum],
    around: Around,
    f: &mut fmt::Formatter<W>,
) -> fmt::Result {
    if lower == Bound::Infinite {
        f.write_char(',')?;
    }
    for (place, bound) in bounds.iter().enumerate() {
        put_part(Place::Range, bound, around, f)?;
        if place == 0 && lower != Bound::Infinite {
            f.write_char(',')?;
        }
    }
    Ok(())
}

/// A range that isn't empty.
#[cycle(display)]
fn put_range<W: fmt::Write>(
    lower: Bound,
    upper: Bound,
    bounds: &[Datum],
    around: Around,
    f: &mut fmt::Formatter<W>,
) -> fmt::Result {
    f.write_char(if lower == Bound::Inclusive { '[' } else { '(' })?;
    put_bounds(lower, bounds, around, f)?;
    f.write_char(if upper == Bound::Inclusive { ']' } else { ')' })
}

/// A composite.
#[cycle(display)]
fn put_row<W: fmt::Write>(
    fields: &[Datum],
    around: Around,
    f: &mut fmt::Formatter<W>,
) -> fmt::Result {
    f.write_char('(')?;
    for (place, field) in fields.iter().enumerate() {
        if place > 0 {
            f.write_char(',')?;
        }
        put_field(field, around, f)?;
    }
    f.write_char(')')
}

/// A field of a composite: nothing for null.
#[cycle(display)]
fn put_field<W: fmt::Write>(
    value: &Datum,
    around: Around,
    f: &mut fmt::Formatter<W>,
) -> fmt::Result {
    match value {
        Datum::Null => Ok(()),
        _ => put_part(Place::Row, value, around, f),
    }
}

/// A value inside of these quotes.
#[cycle(display)]
fn put_value<W: fmt::Write>(
    value: &Datum,
    around: Around,
    f: &mut fmt::Formatter<W>,
) -> fmt::Result {
    match value {
        Datum::Null => f.write_str("NULL"),
        Datum::Bool(b) => f.write_char(if *b { 't' } else { 'f' }),
        Datum::Int(n) => write!(f, "{n}"),
        Datum::Text(text) => put_text(around, text.as_str(), f),
        Datum::Label(text) => put_text(around, text.as_str(), f),
        Datum::Bytes(bytes) => put_bytes(around, bytes.as_slice(), f),
        Datum::NotANumber => f.write_str("NaN"),
        Datum::Numeric { unscaled, scale } => put_number(unscaled.get(), *scale, f),
        Datum::Date(days) => put_date(*days, f),
        Datum::Timestamp(microseconds) => put_timestamp(*microseconds, f),
        Datum::Uuid(bytes) => put_uuid(bytes.as_slice(), f),
        Datum::Array { dims, items } => put_array(
            dims.get().as_slice(),
            items.as_slice(),
            around,
            f,
        ),
        Datum::Range { empty: true, .. } => f.write_str("empty"),
        Datum::Range {
            lower,
            upper,
            bounds,
            ..
        } => put_range(*lower, *upper, bounds.as_slice(), around, f),
        Datum::Composite(fields) => put_row(fields.as_slice(), around, f),
    }
}

impl fmt::Display for Datum {
    fn fmt<W: fmt::Write>(&self, f: &mut fmt::Formatter<W>) -> fmt::Result {
        put_value(self, Around::NOTHING, f)
    }
}
