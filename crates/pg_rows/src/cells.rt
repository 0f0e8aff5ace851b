//! The cells of a DataRow, found by walking over their lengths (PostgreSQL documentation, "Message Formats", under
//! DataRow).

ghost use Rattle.std.specs.Prelude.{◌≡◌, Ok, Some, option_map, MatchResult};
ghost use Rattle.pg_spec.specs.Bodies.{cells_of};
ghost use Rattle.pg_spec.specs.Faults as spec;
ghost use Rattle.pg_spec.specs.SimpleQuery as spec_reply;
ghost use Rattle.pg_wire.specs.Faults.{wire_fault};
ghost use Rattle.pg_wire.specs.Steps.{IsWithin, Refuses, cell_in};
ghost use Rattle.pg_rows.specs.Rows.{HoldsCells, cell_at, cells_read, cells_size, row_refusal};

use pg_types::{Cause, Error, WireFault};
use pg_wire::DataRowBody;
use std::ops::Range;

/// Walks over all cells, and refuses a body that can't be read.
pub(crate) fn walk(body: &DataRowBody) -> Result<(), WireFault>
    ensures { MatchResult result
        (λ _. cells_of body.now.count body.now.cells ≡ Ok (cells_read (cells_of body.now.count body.now.cells)))
        (λ fault. Refuses (cells_of body.now.count body.now.cells) fault) }
{
    let mut ranges = body.ranges();
    loop {
        match ranges.next() {
            Ok(Some(_)) => {}
            Ok(None) => return Ok(()),
            Err(fault) => return Err(fault),
        }
    }
}

/// The error of a body that can't be read.
pub(crate) fn unreadable(fault: WireFault) -> Error
    ensures { (cause : spec.WireFault) → wire_fault fault ≡ Some cause → result ≡ spec_reply.unreadable cause }
{
    match fault {
        WireFault::NotUtf8 => Error::Parse(Cause::NotUtf8),
        _ => Error::Parse(Cause::Wire(fault)),
    }
}

/// Checks that a body has so many cells. Parse comes exactly where they can't be read, and where they are of another
/// number.
pub(crate) fn check(columns: usize, body: &DataRowBody) -> Result<(), Error>
    ensures { MatchResult result
        (λ _. HoldsCells columns body.now.count body.now.cells)
        (λ e. row_refusal columns (cells_of body.now.count body.now.cells) ≡ Some e) }
{
    match walk(body) {
        Ok(()) => check_number(columns, body),
        Err(fault) => Err(unreadable(fault)),
    }
}

/// Checks that a body, whose cells can be read, has so many. Parse comes exactly where they are of another number.
pub(crate) fn check_number(columns: usize, body: &DataRowBody) -> Result<(), Error>
    requires { cells_of body.now.count body.now.cells ≡ Ok (cells_read (cells_of body.now.count body.now.cells)) }
    ensures { MatchResult result
        (λ _. HoldsCells columns body.now.count body.now.cells)
        (λ e. row_refusal columns (cells_of body.now.count body.now.cells) ≡ Some e) }
{
    if body.len() != columns {
        return Err(Error::Parse(Cause::FieldCount));
    }
    Ok(())
}

/// The bytes in this range, none for null.
pub(crate) fn bytes_in(buffer: &[u8], range: Option<Range<usize>>) -> Option<&[u8]>
    requires { IsWithin buffer.now range }
    ensures { option_map (λ r. r.now) result ≡ cell_in buffer.now range }
{
    match range {
        Some(range) => Some(&buffer[range]),
        None => None,
    }
}

/// The bytes of the cell at a place, null where there is none.
pub(crate) fn cell(body: &DataRowBody, place: usize) -> Option<&[u8]>
    requires { cells_of body.now.count body.now.cells ≡ Ok (cells_read (cells_of body.now.count body.now.cells)) }
    ensures { option_map (λ r. r.now) result ≡ cell_at (cells_read (cells_of body.now.count body.now.cells)) place }
{
    let mut ranges = body.ranges();
    let mut before = place;
    loop {
        let range = match ranges.next() {
            Ok(Some(range)) => range,
            Ok(None) => return None,
            Err(_) => return None,
        };
        if before == 0 {
            return bytes_in(body.buffer(), range);
        }
        before -= 1;
    }
}

/// How many bytes stand behind the number of cells.
pub(crate) fn size(body: &DataRowBody) -> usize
    requires { cells_of body.now.count body.now.cells ≡ Ok (cells_read (cells_of body.now.count body.now.cells)) }
    ensures { result ≡ cells_size (cells_read (cells_of body.now.count body.now.cells)) }
{
    body.buffer().len()
}
