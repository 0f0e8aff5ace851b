//! A value, written by its type.

ghost use Rattle.std.specs.Prelude.{◌≡◌, ◌↔◌, ◌<◌, ◌≤◌, ◌+◌, ◌^◌, Bool, Err, IsTrue, List, None, get_or, Contains, length, false, true, flat_map, MatchOption};
ghost use Rattle.pg_types.proofs.KindLaws.{row_of};
ghost use Rattle.pg_types.specs.Values.{Writes};
ghost use Rattle.pg_types.specs.declared.fault.ValueFault.TheVariants as fault;
ghost use Rattle.pg_values.specs.Parts.{part_bytes};
ghost use Rattle.pg_values.specs.Sending.{datum_gives, kind_send, scalar_send, fields_send, value_or_null_send, items_send, array_send, range_send, record_send};
ghost use Rattle.pg_values.specs.Spelling.{IsFront, array_front, count_of, dim_bytes, count_fields, values_of};
ghost use Rattle.pg_values.specs.Writing.{WritesDatum, WritesSent, Fills, Puts};
ghost use Rattle.pg_values.specs.declared.datum.Dim.{Dim};
ghost use Rattle.pg_values.specs.declared.datum.Bound.{Bound};
ghost use Rattle.pg_values.specs.declared.datum.Datum as d;
ghost use Rattle.pg_values.specs.declared.datum.Datum.{Datum};

use crate::arrays::{are_dims, count_of};
use crate::datum::{Bound, Datum, Dim};
use crate::numeric_written::write_numeric;
use crate::parts::NULL;
use crate::put::{put, set_len};
use crate::ranges::{flags_of, values_of};
use crate::scalars_written::{write_date, write_label, write_timestamp, write_uuid, write_value};
use crate::supported::is_supported;
use bytes::BytesMut;
use pg_types::{Field, IsNull, Kind, Oid, RustType, Type, ValueFault, WrongType};

/// Appends the bytes of a value under a type, none for null. WrongType comes exactly where the type isn't supported, and BadValue
/// only where it is and no bytes spell the value. After a fault `out` is as before.
pub fn write_datum(value: &Datum, ty: &Type, out: &mut BytesMut) -> Result<IsNull, ValueFault>
    ensures gives { Writes true (datum_gives ty.now value.now) out.old.items out.new.items result }
    ensures form { WritesDatum ty.now value.now out.old.items out.new.items result }
{
    write_given(value, ty, out)
}

/// The same.
fn write_given(value: &Datum, ty: &Type, out: &mut BytesMut) -> Result<IsNull, ValueFault>
    ensures { Writes true (datum_gives ty.now value.now) out.old.items out.new.items result }
{
    if !is_supported(ty) {
        return Err(ValueFault::WrongType(WrongType {
            postgres: ty.oid(),
            rust: RustType::Other,
        }));
    }
    if is_null(value) {
        return Ok(IsNull::Yes);
    }
    let len = out.len();
    match write_bytes(ty, value, out) {
        Ok(()) => Ok(IsNull::No),
        Err(fault) => {
            out.truncate(len);
            Err(fault)
        }
    }
}

/// Whether it is null.
fn is_null(value: &Datum) -> bool
    ensures { IsTrue result ↔ (value.now ≡ d.Null) }
{
    matches!(value, Datum::Null)
}

/// Null as a part, BadValue where it may not stand.
fn put_null(nullable: bool, out: &mut BytesMut) -> Result<(), ValueFault>
    ensures yes { nullable ≡ true → Puts (part_bytes None) out.old.items out.new.items result }
    ensures no { nullable ≡ false → (result ≡ Err fault.BadValue) × (out.new.items ≡ out.old.items) }
{
    if !nullable {
        return Err(ValueFault::BadValue);
    }
    put(&NULL.to_be_bytes(), out)
}

/// A value without parts.
fn write_scalar(value: &Datum, ty: &Type, out: &mut BytesMut) -> Result<(), ValueFault>
    ensures { WritesSent (scalar_send ty.now.oid value.now) out.old.items out.new.items result }
{
    match ty.oid() {
        1700 => write_numeric(value, out),
        1082 => write_date(value, ty, out),
        1114 => write_timestamp(value, ty, out),
        1184 => write_timestamp(value, ty, out),
        2950 => write_uuid(value, out),
        _ => write_value(value, ty, out),
    }
}

/// A value that isn't null.
#[cycle(writing)]
fn write_bytes(ty: &Type, value: &Datum, out: &mut BytesMut) -> Result<(), ValueFault>
    ensures { WritesSent (kind_send ty.now.oid ty.now.kind value.now) out.old.items out.new.items result }
{
    match ty.kind() {
        Kind::Simple => write_scalar(value, ty, out),
        Kind::Enum(labels) => write_label(value, labels.as_slice(), out),
        Kind::Pseudo => Err(ValueFault::BadValue),
        Kind::Array(element) => write_array(element, value, out),
        Kind::Range(element) => write_range(element, value, out),
        Kind::Domain(base) => write_bytes(base, value, out),
        Kind::Composite(fields) => write_composite(fields.as_slice(), value, out),
    }
}

/// A part: its length and its bytes, or null where one may stand.
#[cycle(writing)]
fn write_part(
    ty: &Type,
    value: &Datum,
    nullable: bool,
    out: &mut BytesMut,
) -> Result<(), ValueFault>
    ensures { WritesSent (value_or_null_send nullable (kind_send ty.now.oid ty.now.kind) value.now) out.old.items out.new.items result }
{
    if is_null(value) {
        return put_null(nullable, out);
    }
    let at = out.len();
    put(&[0; 4], out)?;
    write_bytes(ty, value, out)?;
    set_len(at, out)
}

/// Parts of one type.
#[cycle(writing)]
fn write_items(
    ty: &Type,
    items: &[Datum],
    nullable: bool,
    out: &mut BytesMut,
) -> Result<(), ValueFault>
    ensures { WritesSent (items_send nullable (kind_send ty.now.oid ty.now.kind) items.now) out.old.items out.new.items result }
{
    for item in items {
        write_part(ty, item, nullable, out)?;
    }
    Ok(())
}

/// The flag of an array of these items: 1 exactly where one is null.
fn null_flag(items: &[Datum]) -> u32
    ensures small { result ≤ 1 }
    ensures null { (result ≡ 1) ↔ Contains items.now d.Null }
{
    for item in items {
        if is_null(item) {
            return 1;
        }
    }
    0
}

/// Appends a dimension.
fn put_dim(dim: Dim, out: &mut BytesMut) -> Result<(), ValueFault>
    ensures { Puts (dim_bytes dim) out.old.items out.new.items result }
{
    let [a, b, c, d] = dim.len.to_be_bytes();
    let [e, f, g, h] = dim.lower.to_be_bytes();
    put(&[a, b, c, d, e, f, g, h], out)
}

/// Appends dimensions.
fn put_dims(dims: &[Dim], out: &mut BytesMut) -> Result<(), ValueFault>
    ensures { Fills (λ b. b ≡ flat_map dim_bytes dims.now) out.old.items out.new.items result }
{
    for dim in dims {
        put_dim(*dim, out)?;
    }
    Ok(())
}

/// Appends the front of an array.
fn put_front(flag: u32, element: Oid, dims: &[Dim], out: &mut BytesMut) -> Result<(), ValueFault>
    requires { length dims.now ≤ 6 }
    ensures { Fills (λ b. b ≡ array_front flag element dims.now) out.old.items out.new.items result }
{
    put(&(dims.len() as u32).to_be_bytes(), out)?;
    put(&flag.to_be_bytes(), out)?;
    put(&element.to_be_bytes(), out)?;
    put_dims(dims, out)
}

/// Whether an array may have these dimensions and so many items.
fn may_have(dims: &[Dim], items: usize) -> bool
    ensures { IsTrue result ↔ (IsFront 0 dims.now × (items ≡ count_of dims.now)) }
{
    dims.len() <= 6 && are_dims(dims) && count_of(dims) == Some(items)
}

/// The dimensions and the items of an array. None: it is no array.
fn array_parts(value: &Datum) -> Option<(&[Dim], &[Datum])>
    ensures { MatchOption result
        ((dims : List Dim) (items : List Datum) → value.now ≡ d.Array dims items → ⊥)
        (λ parts. value.now ≡ d.Array parts.0.now parts.1.now) }
{
    match value {
        Datum::Array { dims, items } => Some((dims.get().as_slice(), items.as_slice())),
        _ => None,
    }
}

/// An array of items of a type.
#[cycle(writing)]
fn write_array(element: &Type, value: &Datum, out: &mut BytesMut) -> Result<(), ValueFault>
    ensures { WritesSent (array_send element.now.oid (kind_send element.now.oid element.now.kind) value.now)
        out.old.items out.new.items result }
{
    let Some((dims, items)) = array_parts(value) else {
        return Err(ValueFault::BadValue);
    };
    if !may_have(dims, items.len()) {
        return Err(ValueFault::BadValue);
    }
    put_front(null_flag(items), element.oid(), dims, out)?;
    write_items(element, items, true, out)
}

/// What a range is made of. None: it is no range.
fn range_parts(value: &Datum) -> Option<(bool, Bound, Bound, &[Datum])>
    ensures { MatchOption result
        ((empty : Bool) (lower upper : Bound) (bounds : List Datum) → value.now ≡ d.Range empty lower upper bounds → ⊥)
        (λ parts. value.now ≡ d.Range parts.0 parts.1 parts.2 parts.3.now) }
{
    match value {
        Datum::Range {
            empty,
            lower,
            upper,
            bounds,
        } => Some((*empty, *lower, *upper, bounds.as_slice())),
        _ => None,
    }
}

/// Whether there is a value for each finite bound.
fn are_counted(bounds: &[Datum], lower: Bound, upper: Bound) -> bool
    ensures { IsTrue result ↔ (length bounds.now ≡ values_of lower + values_of upper) }
{
    bounds.len() == values_of(lower) + values_of(upper)
}

/// A range between values of a type.
#[cycle(writing)]
fn write_range(element: &Type, value: &Datum, out: &mut BytesMut) -> Result<(), ValueFault>
    ensures { WritesSent (range_send (kind_send element.now.oid element.now.kind) value.now) out.old.items out.new.items result }
{
    let Some((empty, lower, upper, bounds)) = range_parts(value) else {
        return Err(ValueFault::BadValue);
    };
    let Some(flags) = flags_of(empty, lower, upper) else {
        return Err(ValueFault::BadValue);
    };
    if !are_counted(bounds, lower, upper) {
        return Err(ValueFault::BadValue);
    }
    put(&[flags], out)?;
    write_items(element, bounds, false, out)
}

/// The values of a composite. None: it is no composite.
fn composite_parts(value: &Datum) -> Option<&[Datum]>
    ensures { MatchOption result
        ((values : List Datum) → value.now ≡ d.Composite values → ⊥)
        (λ values. value.now ≡ d.Composite values.now) }
{
    match value {
        Datum::Composite(values) => Some(values.as_slice()),
        _ => None,
    }
}

/// Whether there is a value for each field, and no more fields than a composite may have.
fn are_paired(values: &[Datum], fields: &[Field]) -> bool
    ensures { IsTrue result ↔ ((length values.now ≡ length fields.now) × (length fields.now < 2 ^ 31)) }
{
    values.len() == fields.len() && fields.len() < 2_147_483_648
}

/// A composite of these fields.
#[cycle(writing)]
fn write_composite(fields: &[Field], value: &Datum, out: &mut BytesMut) -> Result<(), ValueFault>
    ensures { WritesSent (record_send (count_fields (row_of fields.now)) (fields_send (row_of fields.now)) value.now)
        out.old.items out.new.items result }
{
    let Some(values) = composite_parts(value) else {
        return Err(ValueFault::BadValue);
    };
    if !are_paired(values, fields) {
        return Err(ValueFault::BadValue);
    }
    put(&(fields.len() as u32).to_be_bytes(), out)?;
    write_fields(fields, values, out)
}

/// The value at a place.
fn value_at(values: &[Datum], place: usize) -> &Datum
    requires { place < length values.now }
    ensures { result.now ≡ get_or values.now place result.now }
{
    &values[place]
}

/// The values of these fields.
#[cycle(writing)]
fn write_fields(fields: &[Field], values: &[Datum], out: &mut BytesMut) -> Result<(), ValueFault>
    requires { length values.now ≡ length fields.now }
    ensures { WritesSent (fields_send (row_of fields.now) values.now) out.old.items out.new.items result }
{
    let mut place = 0;
    for field in fields {
        put(&field.type_().oid().to_be_bytes(), out)?;
        write_part(field.type_(), value_at(values, place), true, out)?;
        place += 1;
    }
    Ok(())
}
