//! The values of one column.

ghost use Rattle.std.specs.Prelude.{◌≡◌, [], slice_get, unwrap_or, None, IfOk};
ghost use Rattle.pg_core.specs.Cells.{or_from_sql};
ghost use Rattle.pg_execute.specs.Values as spec;

use crate::scalar::Scalar;
use pg_desk::Column;
use pg_errors::{Cause, Error};
use pg_rows::RowCells;
use pg_types::{List, Type, ValueFault};
use std::alloc::{AllocError, Global};

/// The first value of a row, or the error of its column.
fn first_value<R: Scalar>(
    alloc: Global,
    ty: &Type,
    cells: &RowCells,
) -> Result<Result<R, Error>, AllocError>
    ensures { IfOk result (λ v. v ≡ or_from_sql 0 (R.reads ty.now (unwrap_or (slice_get cells.now 0) None))) }
{
    match R::read(alloc, ty, cells.cell(0)) {
        Ok(value) => Ok(Ok(value)),
        Err(ValueFault::OutOfMemory) => Err(AllocError),
        Err(fault) => Ok(Err(Error::FromSql(0, Cause::Value(fault)))),
    }
}

/// The first values of rows. The first that can't be read decides.
fn first_values<R: Scalar>(
    alloc: Global,
    ty: &Type,
    rows: &[RowCells],
) -> Result<Result<List<R>, Error>, AllocError>
    ensures { IfOk result (λ values. values ≡ spec.first_values R.reads ty.now [] rows.now) }
{
    let mut values = List::empty(alloc);
    for cells in rows {
        let value: R = match first_value(alloc, ty, cells)? {
            Ok(value) => value,
            Err(error) => return Ok(Err(error)),
        };
        let Ok(()) = values.push(value) else {
            return Err(AllocError);
        };
    }
    Ok(Ok(values))
}

/// The values of rows of one column.
pub(crate) fn column_values<R: Scalar>(
    alloc: Global,
    columns: &[Column],
    rows: &[RowCells],
) -> Result<Result<List<R>, Error>, AllocError>
    ensures { IfOk result (λ values. values ≡ spec.column_values R.reads columns.now rows.now) }
{
    if rows.is_empty() {
        return Ok(Ok(List::empty(alloc)));
    }
    let [column] = columns else {
        return Ok(Err(Error::ColumnCount));
    };
    first_values(alloc, column.type_(), rows)
}
