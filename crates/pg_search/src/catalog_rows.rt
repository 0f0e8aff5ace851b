//! Rows of the catalog, read from their cells.

ghost use Rattle.pg_core.specs.Lookups as spec;
ghost use Rattle.pg_search.specs.Given.{Gives};

use crate::cells::{i8_at, text_at, u32_at, u32_or_null_at};
use crate::{FieldRow, TypeRow};
use pg_desk::Column;
use pg_errors::Error;
use pg_types::Blob;
use std::alloc::Global;

/// The row of these cells. The first column that isn't there or can't be read decides.
pub(crate) fn type_row(
    alloc: Global,
    columns: &[Column],
    cells: &[Option<Blob>],
) -> Result<TypeRow, Error>
    ensures { Gives (spec.type_row columns.now cells.now) result }
{
    let name = text_at(alloc, columns, cells, 0)?;
    let typtype = i8_at(alloc, columns, cells, 1)?;
    let typelem = u32_at(alloc, columns, cells, 2)?;
    let rngsubtype = u32_or_null_at(alloc, columns, cells, 3)?;
    let typbasetype = u32_at(alloc, columns, cells, 4)?;
    let schema = text_at(alloc, columns, cells, 5)?;
    let typrelid = u32_at(alloc, columns, cells, 6)?;
    Ok(TypeRow {
        name,
        typtype,
        typelem,
        rngsubtype,
        typbasetype,
        schema,
        typrelid,
    })
}

/// The row of a field, of these cells. The first column that isn't there or can't be read decides.
pub fn field_row(
    alloc: Global,
    columns: &[Column],
    cells: &[Option<Blob>],
) -> Result<FieldRow, Error>
    ensures { Gives (spec.field_row columns.now cells.now) result }
{
    let name = text_at(alloc, columns, cells, 0)?;
    let type_oid = u32_at(alloc, columns, cells, 1)?;
    Ok(FieldRow { name, type_oid })
}
