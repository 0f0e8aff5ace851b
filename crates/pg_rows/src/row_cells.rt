//! The cells of a row, without its columns.

ghost use Rattle.std.specs.Prelude.{◌≡◌, ◌∷◌, [], length, ◌==◌, Ok, option_map, IfNone, IfSome, MatchResult};
ghost use Rattle.pg_spec.specs.Bodies.{cells_of};
ghost use Rattle.pg_rows.specs.Rows.{IsUnreadable, cell_at, row_of};

use crate::cells::{bytes_in, cell, unreadable, walk};
use crate::row::Row;
use pg_desk::Statement;
use pg_types::Error;
use pg_wire::{DataRowBody, DataRowRanges};
use std::fmt;
use std::marker::Model;

/// The cells of a row, seen as their list. They stand in the received bytes: a read of one walks over the lengths of
/// those before, and an iterator over each once.
#[derive(Drop)]
pub struct RowCells {
    body: DataRowBody,
}

impl Model for RowCells {
    ghost use Rattle.std.specs.Prelude.{◌≡◌, Ok};
    ghost use Rattle.pg_spec.specs.Bodies.{cells_of};
    ghost use Rattle.pg_rows.specs.Rows.{Cells, cells_read};

    ghost Value = { Cells };

    ghost view = { λ r. cells_read (cells_of r.body.count r.body.cells) };

    ghost invariant = { λ r. cells_of r.body.count r.body.cells ≡ Ok (cells_read (cells_of r.body.count r.body.cells)) };
}

impl RowCells {
    /// The cells of a DataRow. Parse comes exactly where they can't be read. It takes no memory.
    pub fn new(body: DataRowBody) -> Result<RowCells, Error>
        ensures { MatchResult result
            (λ cells. cells_of body.count body.cells ≡ Ok cells)
            (λ e. IsUnreadable (cells_of body.count body.cells) e) }
    {
        match walk(&body) {
            Ok(()) => Ok(RowCells { body }),
            Err(fault) => Err(unreadable(fault)),
        }
    }

    /// How many cells there are.
    pub fn len(&self) -> usize
        ensures { result ≡ length self.now }
    {
        self.body.len()
    }

    /// There is none.
    pub fn is_empty(&self) -> bool
        ensures { result ≡ (length self.now == 0) }
    {
        self.len() == 0
    }

    /// The bytes of the cell at a place, from 0; None for null, and where there is no such cell. It takes no memory.
    pub fn cell(&self, place: usize) -> Option<&[u8]>
        ensures { option_map (λ r. r.now) result ≡ cell_at self.now place }
    {
        cell(&self.body, place)
    }

    /// The cells, one after another. It takes no memory.
    pub fn iter(&self) -> CellIter<'_>
        ensures { result ≡ self.now }
    {
        CellIter {
            ranges: self.body.ranges(),
            buffer: self.body.buffer(),
        }
    }

    /// The row of a statement that these are the cells of. Parse comes exactly where they are of another number than its
    /// columns. It takes no memory.
    pub fn into_row(self, statement: Statement) -> Result<Row, Error>
        ensures { result ≡ row_of statement.columns (Ok self) }
    {
        let RowCells { body } = self;
        Row::of_cells(statement, body)
    }
}

impl fmt::Debug for RowCells {
    fn fmt<W: fmt::Write>(&self, f: &mut fmt::Formatter<W>) -> fmt::Result {
        f.debug_struct("RowCells")
            .field("len", &self.len())
            .finish()
    }
}

/// The cells of a row that are left, seen as their list.
#[derive(Drop)]
pub struct CellIter<'a> {
    ranges: DataRowRanges<'a>,
    buffer: &'a [u8],
}

impl<'a> Model for CellIter<'a> {
    ghost use Rattle.pg_rows.specs.Rows.{AreLeft, Cells, cells_read, left_cells};

    ghost Value = { Cells };

    ghost view = { λ i. cells_read (left_cells i.ranges) };

    ghost invariant = { λ i. AreLeft i.ranges i.buffer.now };
}

impl<'a> CellIter<'a> {
    /// The bytes of the next cell, Some(None) for null, or None behind the last. It takes no memory.
    pub fn next(&mut self) -> Option<Option<&'a [u8]>>
        ensures some { IfSome result (λ cell. self.old ≡ option_map (λ r. r.now) cell ∷ self.new) }
        ensures none { IfNone result (self.old ≡ []) }
    {
        match self.ranges.next() {
            Ok(Some(range)) => Some(bytes_in(self.buffer, range)),
            Ok(None) => None,
            Err(_) => None,
        }
    }
}
