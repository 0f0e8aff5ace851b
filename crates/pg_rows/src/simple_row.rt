//! Rows of simple queries.

ghost use Rattle.std.specs.Prelude.{◌≡◌, ◌<◌, length, ◌==◌, option_map, Some};
ghost use Rattle.pg_spec.specs.Bodies.{cells_of};
ghost use Rattle.pg_rows.specs.Rows.{row_of, cell_at};
ghost use Rattle.pg_rows.specs.Values.{CanGetText, GetsText, text_meant};

use crate::cells::{cell, check};
use crate::row_index::{RowIndex, no_column, place_of};
use crate::simple_column::{SimpleColumn, SimpleColumns};
use crate::values::{answer_at, text};
use pg_types::Error;
use pg_wire::DataRowBody;
use std::alloc::Global;
use std::fmt;
use std::marker::Model;

/// A row that a simple query gave, all of whose values are texts. Its cells stand in the received bytes, as those of a
/// `Row`.
#[derive(Drop)]
pub struct SimpleQueryRow {
    columns: SimpleColumns,
    body: DataRowBody,
}

impl Model for SimpleQueryRow {
    ghost use Rattle.std.specs.Prelude.{length};
    ghost use Rattle.pg_spec.specs.Bodies.{cells_of};
    ghost use Rattle.pg_rows.specs.declared.simple_column.SimpleColumn as seen;
    ghost use Rattle.pg_rows.specs.Rows.{HoldsCells, RowOf, cells_read};

    ghost Value = { RowOf seen.SimpleColumn };

    ghost view = { λ r. record { columns = r.columns; cells = cells_read (cells_of r.body.count r.body.cells) } };

    ghost invariant = { λ r. HoldsCells (length r.columns) r.body.count r.body.cells };
}

impl SimpleQueryRow {
    /// The row of these columns that a DataRow is, as `Row::new`.
    pub fn new(columns: SimpleColumns, body: DataRowBody) -> Result<SimpleQueryRow, Error>
        ensures { result ≡ row_of columns (cells_of body.count body.cells) }
    {
        check(columns.as_slice().len(), &body)?;
        Ok(SimpleQueryRow { columns, body })
    }

    /// The columns, in order.
    pub fn columns(&self) -> &[SimpleColumn]
        ensures { result.now ≡ self.now.columns }
    {
        self.columns.as_slice()
    }

    /// It has no columns.
    pub fn is_empty(&self) -> bool
        ensures { result ≡ (length self.now.columns == 0) }
    {
        self.len() == 0
    }

    /// How many columns it has, each with a cell.
    pub fn len(&self) -> usize
        ensures columns { result ≡ length self.now.columns }
        ensures cells { result ≡ length self.now.cells }
    {
        self.columns.as_slice().len()
    }

    /// The text of the column that is meant, None for null. Column comes exactly where no such column stands, with the
    /// name, or the place in decimal. FromSql comes exactly where the cell isn't UTF-8, with its place.
    pub fn try_get(&self, alloc: Global, index: RowIndex<'_>) -> Result<Option<&str>, Error>
        ensures { GetsText self.now index.entry result }
    {
        let Some(place) = place_of(self.columns.as_slice(), index) else {
            return Err(no_column(alloc, index));
        };
        answer_at(place, text(cell(&self.body, place)))
    }

    /// The text of the column that is meant, None for null; there is such a column, and its cell is UTF-8. It takes no
    /// memory.
    pub fn get(&self, index: RowIndex<'_>) -> Option<&str>
        requires { CanGetText self.now index }
        ensures { text_meant self.now index.entry ≡ Some (option_map (λ t. t.now) result) }
    {
        let Some(place) = place_of(self.columns.as_slice(), index) else {
            return None;
        };
        match text(cell(&self.body, place)) {
            Ok(text) => text,
            Err(_) => None,
        }
    }

    /// The bytes of the cell at a place, from 0, None for null. It takes no memory.
    pub fn cell(&self, place: usize) -> Option<&[u8]>
        requires { place < length self.now.cells }
        ensures { option_map (λ r. r.now) result ≡ cell_at self.now.cells place }
    {
        cell(&self.body, place)
    }
}

impl fmt::Debug for SimpleQueryRow {
    fn fmt<W: fmt::Write>(&self, f: &mut fmt::Formatter<W>) -> fmt::Result {
        f.debug_struct("SimpleQueryRow")
            .field("columns", &self.columns())
            .finish()
    }
}
