//! The cells of a row, read as Rust types under the types of its columns.

ghost use Rattle.std.specs.Prelude.{◌≡◌, ◌⊎◌, option_map, slice_get, unwrap_or, decimal, Result, None};
ghost use Rattle.std.specs.Option.{option_copied};
ghost use Rattle.pg_types.specs.declared.error.Error.TheVariants as error;
ghost use Rattle.pg_types.specs.declared.fault.ValueFault.{ValueFault};
ghost use Rattle.pg_core.specs.Cells as spec;
ghost use Rattle.pg_search.specs.Given.{Gives, Reads};

use pg_desk::Column;
use pg_errors::{Cause, Error};
use pg_types::{Blob, FromSqlOwned, Oid, RustType, Text, Type, ValueFault, WrongType};
use std::alloc::Global;

/// The fault of a type that the Rust type doesn't stand for.
pub(crate) fn wrong_type(ty: &Type, rust: RustType) -> ValueFault
    ensures { result ≡ ValueFault.WrongType (record { postgres = ty.now.oid; rust = rust }) }
{
    ValueFault::WrongType(WrongType {
        postgres: ty.oid(),
        rust,
    })
}

/// A text.
fn text_in(alloc: Global, ty: &Type, raw: Option<&[u8]>) -> Result<Text, ValueFault>
    ensures { Reads (spec.text_in ty.now (option_map (λ r. r.now) raw.entry)) result }
{
    if !<Text as FromSqlOwned>::accepts_owned(ty) {
        return Err(wrong_type(ty, RustType::Text));
    }
    <Text as FromSqlOwned>::from_sql_owned(alloc, ty, raw)
}

/// A number of one byte.
fn i8_in(alloc: Global, ty: &Type, raw: Option<&[u8]>) -> Result<i8, ValueFault>
    ensures { Reads (spec.i8_in ty.now (option_map (λ r. r.now) raw.entry)) result }
{
    if !<i8 as FromSqlOwned>::accepts_owned(ty) {
        return Err(wrong_type(ty, RustType::I8));
    }
    <i8 as FromSqlOwned>::from_sql_owned(alloc, ty, raw)
}

/// An oid.
fn u32_in(alloc: Global, ty: &Type, raw: Option<&[u8]>) -> Result<u32, ValueFault>
    ensures { Reads (spec.u32_in ty.now (option_map (λ r. r.now) raw.entry)) result }
{
    if !<u32 as FromSqlOwned>::accepts_owned(ty) {
        return Err(wrong_type(ty, RustType::U32));
    }
    <u32 as FromSqlOwned>::from_sql_owned(alloc, ty, raw)
}

/// An oid or null.
fn u32_or_null_in(alloc: Global, ty: &Type, raw: Option<&[u8]>) -> Result<Option<u32>, ValueFault>
    ensures { Reads (spec.u32_or_null_in ty.now (option_map (λ r. r.now) raw.entry)) result }
{
    if !<u32 as FromSqlOwned>::accepts_owned(ty) {
        return Err(wrong_type(ty, RustType::U32));
    }
    <Option<u32> as FromSqlOwned>::from_sql_owned(alloc, ty, raw)
}

/// The bytes of a cell.
fn bytes_of(cell: &Option<Blob>) -> Option<&[u8]>
    ensures { option_map (λ r. r.now) result ≡ cell.now }
{
    match cell {
        Some(bytes) => Some(bytes.as_slice()),
        None => None,
    }
}

/// The column at a place.
fn column_at(columns: &[Column], place: usize) -> Option<&Column>
    ensures { option_copied result ≡ slice_get columns.now place }
{
    columns.get(place)
}

/// The cell at a place, null where there is none.
fn cell_at(cells: &[Option<Blob>], place: usize) -> Option<&[u8]>
    ensures { option_map (λ r. r.now) result ≡ unwrap_or (slice_get cells.now place) None }
{
    match cells.get(place) {
        Some(cell) => bytes_of(cell),
        None => None,
    }
}

/// The error of a place where no column is, or want of memory.
fn no_column(alloc: Global, place: usize) -> Error
    ensures { (result ≡ error.OutOfMemory) ⊎ (result ≡ error.Column (decimal place)) }
{
    match format!(in alloc; "{place}") {
        Ok(name) => Error::Column(Text::new(name)),
        Err(_) => Error::OutOfMemory,
    }
}

/// The value, or the error of the column at this place.
fn or_from_sql<T>(place: usize, read: Result<T, ValueFault>) -> Result<T, Error>
    ensures { (given : Result T ValueFault) → Reads given read → Gives (spec.or_from_sql place given) result }
{
    match read {
        Ok(value) => Ok(value),
        Err(ValueFault::OutOfMemory) => Err(Error::OutOfMemory),
        Err(fault) => Err(Error::FromSql(place, Cause::Value(fault))),
    }
}

/// The text of the column at this place.
pub(crate) fn text_at(
    alloc: Global,
    columns: &[Column],
    cells: &[Option<Blob>],
    place: usize,
) -> Result<Text, Error>
    ensures { Gives (spec.value_at spec.text_in columns.now cells.now place) result }
{
    match column_at(columns, place) {
        Some(column) => or_from_sql(place, text_in(alloc, column.type_(), cell_at(cells, place))),
        None => Err(no_column(alloc, place)),
    }
}

/// The number of one byte of the column at this place.
pub(crate) fn i8_at(
    alloc: Global,
    columns: &[Column],
    cells: &[Option<Blob>],
    place: usize,
) -> Result<i8, Error>
    ensures { Gives (spec.value_at spec.i8_in columns.now cells.now place) result }
{
    match column_at(columns, place) {
        Some(column) => or_from_sql(place, i8_in(alloc, column.type_(), cell_at(cells, place))),
        None => Err(no_column(alloc, place)),
    }
}

/// The oid of the column at this place.
pub(crate) fn u32_at(
    alloc: Global,
    columns: &[Column],
    cells: &[Option<Blob>],
    place: usize,
) -> Result<Oid, Error>
    ensures { Gives (spec.value_at spec.u32_in columns.now cells.now place) result }
{
    match column_at(columns, place) {
        Some(column) => or_from_sql(place, u32_in(alloc, column.type_(), cell_at(cells, place))),
        None => Err(no_column(alloc, place)),
    }
}

/// The oid, or null, of the column at this place.
pub(crate) fn u32_or_null_at(
    alloc: Global,
    columns: &[Column],
    cells: &[Option<Blob>],
    place: usize,
) -> Result<Option<Oid>, Error>
    ensures { Gives (spec.value_at spec.u32_or_null_in columns.now cells.now place) result }
{
    match column_at(columns, place) {
        Some(column) => {
            or_from_sql(
                place,
                u32_or_null_in(alloc, column.type_(), cell_at(cells, place)),
            )
        }
        None => Err(no_column(alloc, place)),
    }
}
