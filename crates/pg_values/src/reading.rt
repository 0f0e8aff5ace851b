//! A value, read by its type.

ghost use Rattle.std.specs.Prelude.{◌≡◌, false, true, option_map};
ghost use Rattle.pg_values.specs.Spelling.{SpellsKind, SpellsScalar, SpellFields, IsArray, IsRange, IsComposite, count_fields};
ghost use Rattle.pg_values.specs.Parts.{AreItems, SpellsPart};
ghost use Rattle.pg_values.specs.Reading.{ReadsAs, ReadsDatum};
ghost use Rattle.pg_types.proofs.KindLaws.{row_of};

use crate::arrays::{behind_front, count_of, read_front};
use crate::datum::Datum;
use crate::lists::{held, push, with_room};
use crate::numeric::read_numeric;
use crate::parts::{behind, cut, word};
use crate::ranges::{has_flag, lower_by, upper_by, values_of};
use crate::scalars::{read_date, read_label, read_timestamp, read_uuid, read_value};
use crate::supported::is_supported;
use pg_types::{Field, Kind, List, RustType, Type, ValueFault, WrongType};
use std::alloc::Global;

/// The value that bytes of a type, or null (`None`), spell. WrongType comes exactly where the type isn't supported, and BadValue
/// only where it is and no value is spelled.
pub fn read_datum(alloc: Global, ty: &Type, raw: Option<&[u8]>) -> Result<Datum, ValueFault>
    ensures { ReadsDatum ty.now (option_map (λ r. r.now) raw.entry) result }
{
    if !is_supported(ty) {
        return Err(ValueFault::WrongType(WrongType {
            postgres: ty.oid(),
            rust: RustType::Other,
        }));
    }
    match raw {
        Some(raw) => read_bytes(alloc, ty, raw),
        None => Ok(Datum::Null),
    }
}

/// A value without parts.
fn read_scalar(alloc: Global, ty: &Type, raw: &[u8]) -> Result<Datum, ValueFault>
    ensures { ReadsAs (λ v. SpellsScalar false ty.now.oid v raw.now) result }
{
    match ty.oid() {
        1700 => read_numeric(alloc, raw),
        1082 => read_date(alloc, ty, raw),
        1114 => read_timestamp(alloc, ty, raw),
        1184 => read_timestamp(alloc, ty, raw),
        2950 => read_uuid(alloc, raw),
        _ => read_value(alloc, ty, raw),
    }
}

/// The value that bytes spell.
#[cycle(reading)]
fn read_bytes(alloc: Global, ty: &Type, raw: &[u8]) -> Result<Datum, ValueFault>
    ensures { ReadsAs (λ v. SpellsKind false ty.now.oid ty.now.kind v raw.now) result }
{
    match ty.kind() {
        Kind::Simple => read_scalar(alloc, ty, raw),
        Kind::Enum(labels) => read_label(alloc, labels.as_slice(), raw),
        Kind::Pseudo => Err(ValueFault::BadValue),
        Kind::Array(element) => read_array(alloc, element, raw),
        Kind::Range(element) => read_range(alloc, element, raw),
        Kind::Domain(base) => read_bytes(alloc, base, raw),
        Kind::Composite(fields) => read_composite(alloc, fields.as_slice(), raw),
    }
}

/// The value that a part spells.
#[cycle(reading)]
fn read_part(alloc: Global, ty: &Type, part: Option<&[u8]>) -> Result<Datum, ValueFault>
    ensures { ReadsAs (λ v. SpellsPart (SpellsKind false ty.now.oid ty.now.kind) (option_map (λ r. r.now) part.entry) v) result }
{
    match part {
        Some(raw) => read_bytes(alloc, ty, raw),
        None => Ok(Datum::Null),
    }
}

/// So many parts of one type, and nothing behind them.
#[cycle(reading)]
fn read_items(
    alloc: Global,
    ty: &Type,
    nullable: bool,
    count: usize,
    bytes: &[u8],
) -> Result<List<Datum>, ValueFault>
    ensures { ReadsAs (λ items. AreItems nullable (SpellsKind false ty.now.oid ty.now.kind) count items bytes.now) result }
{
    let mut items = with_room(alloc, count.min(bytes.len() / 4))?;
    let mut rest = bytes;
    for _ in 0..count {
        let Some(part) = cut(rest, nullable) else {
            return Err(ValueFault::BadValue);
        };
        push(&mut items, read_part(alloc, ty, part.raw)?)?;
        rest = part.rest;
    }
    if !rest.is_empty() {
        return Err(ValueFault::BadValue);
    }
    Ok(items)
}

/// An array of items of a type.
#[cycle(reading)]
fn read_array(alloc: Global, element: &Type, raw: &[u8]) -> Result<Datum, ValueFault>
    ensures { ReadsAs (λ v. IsArray false element.now.oid (SpellsKind false element.now.oid element.now.kind) v raw.now) result }
{
    let dims = read_front(alloc, element.oid(), raw)?;
    let Some(count) = count_of(dims.as_slice()) else {
        return Err(ValueFault::BadValue);
    };
    let Some(rest) = behind_front(dims.as_slice(), raw) else {
        return Err(ValueFault::BadValue);
    };
    let items = read_items(alloc, element, true, count, rest)?;
    let kept = held(alloc, dims)?;
    Ok(Datum::Array { dims: kept, items })
}

/// A range between values of a type.
#[cycle(reading)]
fn read_range(alloc: Global, element: &Type, raw: &[u8]) -> Result<Datum, ValueFault>
    ensures { ReadsAs (λ v. IsRange false (SpellsKind false element.now.oid element.now.kind) v raw.now) result }
{
    let [flags, rest @ ..] = raw else {
        return Err(ValueFault::BadValue);
    };
    if *flags >= 32 {
        return Err(ValueFault::BadValue);
    }
    let (lower, upper) = (lower_by(*flags), upper_by(*flags));
    let bounds = read_items(
        alloc,
        element,
        false,
        values_of(lower) + values_of(upper),
        rest,
    )?;
    Ok(Datum::Range {
        empty: has_flag(1, *flags),
        lower,
        upper,
        bounds,
    })
}

/// A composite of these fields.
#[cycle(reading)]
fn read_composite(alloc: Global, fields: &[Field], raw: &[u8]) -> Result<Datum, ValueFault>
    ensures { ReadsAs (λ v. IsComposite (count_fields (row_of fields.now)) (SpellFields false (row_of fields.now)) v raw.now) result }
{
    let Some((count, rest)) = word(raw) else {
        return Err(ValueFault::BadValue);
    };
    if count as usize != fields.len() || count >= 2_147_483_648 {
        return Err(ValueFault::BadValue);
    }
    Ok(Datum::Composite(read_fields(alloc, fields, rest)?))
}

/// The values of these fields, and nothing behind them.
#[cycle(reading)]
fn read_fields(alloc: Global, fields: &[Field], bytes: &[u8]) -> Result<List<Datum>, ValueFault>
    ensures { ReadsAs (λ values. SpellFields false (row_of fields.now) values bytes.now) result }
{
    let mut values = List::empty(alloc);
    let mut rest = bytes;
    for field in fields {
        let Some(after) = behind(field.type_().oid(), rest) else {
            return Err(ValueFault::BadValue);
        };
        let Some(part) = cut(after, true) else {
            return Err(ValueFault::BadValue);
        };
        push(&mut values, read_part(alloc, field.type_(), part.raw)?)?;
        rest = part.rest;
    }
    if !rest.is_empty() {
        return Err(ValueFault::BadValue);
    }
    Ok(values)
}
