//! The rows of an answer, each with its columns.

ghost use Rattle.std.specs.Prelude.{◌≡◌, [], Ok, IfOk};
ghost use Rattle.pg_rows.specs.Rows.{row_of};
ghost use Rattle.pg_execute.specs.ResultRows.{rows_behind};

use pg_desk::Statement;
use pg_errors::Error;
use pg_rows::{Row, RowCells};
use pg_types::List;
use std::alloc::{AllocError, Global};
use std::collections::VecDeque;

/// The row of a statement with these cells, or why they make none.
fn row_under(statement: &Statement, cells: RowCells) -> Result<Result<Row, Error>, AllocError>
    ensures { IfOk result (λ row. row ≡ row_of statement.now.columns (Ok cells)) }
{
    match statement.copy() {
        Ok(statement) => Ok(cells.into_row(statement)),
        Err(_) => Err(AllocError),
    }
}

/// The rows of a statement with these cells. The first that make none decide.
pub(crate) fn rows_under(
    alloc: Global,
    statement: &Statement,
    rows: List<RowCells>,
) -> Result<Result<List<Row>, Error>, AllocError>
    ensures { IfOk result (λ made. made ≡ rows_behind statement.now.columns [] rows) }
{
    let mut left = VecDeque::from(rows.into_vec());
    let mut made = List::empty(alloc);
    loop {
        let Some(cells) = left.pop_front() else {
            return Ok(Ok(made));
        };
        let row = match row_under(statement, cells)? {
            Ok(row) => row,
            Err(error) => return Ok(Err(error)),
        };
        let Ok(()) = made.push(row) else {
            return Err(AllocError);
        };
    }
}
