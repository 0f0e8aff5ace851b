//! The cells of a DataRow (PostgreSQL documentation, "Message Formats", under DataRow).

ghost use Rattle.std.specs.Prelude.{◌≡◌, ◌≤◌, ◌<◌, length, drop, MatchResult, IfOk, IfSome};
ghost use Rattle.pg_spec.specs.Bodies.{cell_at};
ghost use Rattle.pg_wire.specs.Steps.{CellSteps, Refuses, IsWithin, cell_in};

use crate::body::DataRowBody;
use bytes::Buf;
use pg_types::{OutOfMemory, WireFault};
use std::marker::Model;
use std::ops::Range;

/// The cells not yet read.
#[derive(Drop)]
pub struct DataRowRanges<'a> {
    count: u16,
    at: usize,
    buffer: &'a [u8],
}

impl<'a> Model for DataRowRanges<'a> {
    ghost use Rattle.std.specs.Prelude.{◌≤◌, length};
    ghost use Rattle.pg_wire.specs.Steps.{CellsLeft};

    ghost Value = { CellsLeft };

    ghost view = { λ r. record { count = r.count; at = r.at; buffer = r.buffer.now } };

    ghost invariant = { λ r. r.at ≤ length r.buffer.now };
}

impl DataRowBody {
    /// Reads where the cells lie in `buffer`, one after another.
    pub fn ranges(&self) -> DataRowRanges<'_>
        ensures { result ≡ record { count = self.now.count; at = 0; buffer = self.now.cells } }
    {
        DataRowRanges {
            count: self.count,
            at: 0,
            buffer: self.cells.as_slice(),
        }
    }

    /// The bytes behind the number of cells.
    pub fn buffer(&self) -> &[u8]
        ensures { result.now ≡ self.now.cells }
    {
        self.cells.as_slice()
    }

    /// The same row once more. It shares the bytes that were received.
    pub fn share(&self) -> Result<DataRowBody, OutOfMemory>
        ensures { IfOk result (λ row. row ≡ self.now) }
    {
        Ok(DataRowBody {
            count: self.count,
            cells: self.cells.clone()?,
        })
    }

    /// How many cells the row says it has.
    pub fn len(&self) -> usize
        ensures { result ≡ self.now.count }
    {
        self.count as usize
    }
}

impl<'a> DataRowRanges<'a> {
    /// Where the next cell lies in the buffer, Some(None) for null, or None behind the last. Layout
    /// comes where bytes run out, and where bytes are left behind the last cell; what is left is then as
    /// before.
    pub fn next(&mut self) -> Result<Option<Option<Range<usize>>>, WireFault>
        ensures step { CellSteps self.old self.new result }
        ensures fewer { IfOk result (λ cell. IfSome cell (λ _. self.new.count < self.old.count)) }
    {
        if self.count == 0 {
            if self.at == self.buffer.len() {
                return Ok(None);
            }
            return Err(WireFault::Layout);
        }
        match read_cell(self.buffer, self.at) {
            Ok((range, end)) => {
                self.count -= 1;
                self.at = end;
                Ok(Some(range))
            }
            Err(fault) => Err(fault),
        }
    }
}

/// The range of the cell that begins at `at`, and the place behind it.
fn read_cell(buffer: &[u8], at: usize) -> Result<(Option<Range<usize>>, usize), WireFault>
    requires { at ≤ length buffer.now }
    ensures { MatchResult result
        (λ read. IsWithin buffer.now read.0 × (read.1 ≤ length buffer.now)
        × (cell_at (drop at buffer.now) ≡ Ok (cell_in buffer.now read.0, drop read.1 buffer.now)))
        (λ fault. Refuses (cell_at (drop at buffer.now)) fault) }
{
    let mut rest = &buffer[at..];
    let Ok(len) = rest.try_get_i32() else {
        return Err(WireFault::Layout);
    };
    if len < 0 {
        return Ok((None, at + 4));
    }
    let len = len as usize;
    if rest.len() < len {
        return Err(WireFault::Layout);
    }
    let start = at + 4;
    let end = start + len;
    Ok((Some(start..end), end))
}
