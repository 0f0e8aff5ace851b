//! Rows of prepared statements.

ghost use Rattle.std.specs.Prelude.{◌≡◌, length, ◌==◌, Ok, Result};
ghost use Rattle.pg_spec.specs.Bodies.{cells_of};
ghost use Rattle.pg_rows.specs.Rows.{cells_read, cells_size, row_of};
ghost use Rattle.pg_rows.specs.Values.{CanGet, Gets, GetsValue, ReadsUnder};

use crate::cells::{cell, check, check_number, size};
use crate::row_index::{RowIndex, no_column, place_of};
use crate::values::{answer_at, value_of};
use pg_desk::{Column, Statement};
use pg_types::{Error, FromSql, OutOfMemory};
use pg_wire::DataRowBody;
use std::alloc::Global;
use std::fmt;
use std::marker::Model;

/// A row that a statement gave, and the columns of that statement. Its cells stand in the received bytes; each read walks
/// over the lengths of the cells before.
#[derive(Drop)]
pub struct Row {
    statement: Statement,
    body: DataRowBody,
}

impl Model for Row {
    ghost use Rattle.std.specs.Prelude.{length};
    ghost use Rattle.pg_spec.specs.Bodies.{cells_of};
    ghost use Rattle.std.specs.Coded.{codes};
    ghost use Rattle.pg_types.specs.contracts.pg_type.PgType as pg_type;
    ghost use Rattle.pg_desk.specs.declared.column.Column as seen;
    ghost use Rattle.pg_rows.specs.Rows.{HoldsCells, RowOf, cells_read};

    ghost Value = { RowOf seen.Column };

    ghost coded = { Prim.hlevel (codes, pg_type.the_row.coded) };

    ghost view = { λ r. record { columns = r.statement.columns; cells = cells_read (cells_of r.body.count r.body.cells) } };

    ghost invariant = { λ r. HoldsCells (length r.statement.columns) r.body.count r.body.cells };
}

impl Row {
    /// The row of a statement's columns that a DataRow is. Parse comes exactly where its cells can't be read, and where
    /// they are of another number than the columns. It takes no memory.
    pub fn new(statement: Statement, body: DataRowBody) -> Result<Row, Error>
        ensures { result ≡ row_of statement.columns (cells_of body.count body.cells) }
    {
        check(statement.columns().len(), &body)?;
        Ok(Row { statement, body })
    }

    /// The same of a body whose cells can be read: these aren't walked over again.
    pub(crate) fn of_cells(statement: Statement, body: DataRowBody) -> Result<Row, Error>
        requires { cells_of body.count body.cells ≡ Ok (cells_read (cells_of body.count body.cells)) }
        ensures { result ≡ row_of statement.columns (cells_of body.count body.cells) }
    {
        check_number(statement.columns().len(), &body)?;
        Ok(Row { statement, body })
    }

    /// The columns, in order.
    pub fn columns(&self) -> &[Column]
        ensures { result.now ≡ self.now.columns }
    {
        self.statement.columns()
    }

    /// It has no columns.
    pub fn is_empty(&self) -> bool
        ensures { result ≡ (length self.now.columns == 0) }
    {
        self.len() == 0
    }

    /// How many columns it has, each with a cell.
    pub fn len(&self) -> usize
        ensures columns { result ≡ length self.now.columns }
        ensures cells { result ≡ length self.now.cells }
    {
        self.statement.columns().len()
    }

    /// The value of the column that is meant. Column comes exactly where no such column stands, with the name, or the
    /// place in decimal. FromSql comes exactly where its value can't be read, with its place: for its cause the type is
    /// judged first, then the cell.
    pub fn try_get<'a, T: FromSql<'a>>(
        &'a self,
        alloc: Global,
        index: RowIndex<'_>,
    ) -> Result<T, Error>
        ensures { Gets (ReadsUnder T.owns_memory T.stands_for T.spelled T.refused) self.now index.entry result }
    {
        let columns = self.statement.columns();
        let Some(place) = place_of(columns, index) else {
            return Err(no_column(alloc, index));
        };
        let ty = columns[place].type_();
        answer_at(place, value_of(alloc, ty, cell(&self.body, place)))
    }

    /// The value of the column that is meant, which there is and which can be read. OutOfMemory comes only where reading
    /// it may lack memory.
    pub fn get<'a, T: FromSql<'a>>(
        &'a self,
        alloc: Global,
        index: RowIndex<'_>,
    ) -> Result<T, OutOfMemory>
        requires { CanGet T.stands_for T.refused self.now index }
        ensures { GetsValue T.owns_memory T.spelled self.now index.entry result }
    {
        match self.try_get(alloc, index) {
            Ok(value) => Ok(value),
            Err(_) => Err(OutOfMemory),
        }
    }

    /// How many bytes of its DataRow stand behind the number of cells.
    pub fn raw_size_bytes(&self) -> usize
        ensures { result ≡ cells_size self.now.cells }
    {
        size(&self.body)
    }
}

impl fmt::Debug for Row {
    fn fmt<W: fmt::Write>(&self, f: &mut fmt::Formatter<W>) -> fmt::Result {
        f.debug_struct("Row")
            .field("columns", &self.columns())
            .finish()
    }
}
