//! What a server answers to a generated command, as bytes.

ghost use Rattle.std.specs.Prelude.{◌≡◌, ◌+◌, ◌<◌, ◌≤◌, ◌∷◌, ◌++◌, length, replicate, codes, IfOk, OnOk};
ghost use Rattle.std.specs.Int.{w32, to_be_bytes as be_bytes};
ghost use Rattle.pg_spec.specs.RawMessages.{message_bytes};
ghost use Rattle.pg_gen.specs.Generated as spec;
ghost use Rattle.pg_gen.specs.Messages.{bytes_of, notification, one_cell};

use itoa::Buffer;
use pg_types::OutOfMemory;
use std::alloc::Global;

/// AuthenticationOk and ReadyForQuery.
pub(crate) const OPENING: [u8; 15] = [b'R', 0, 0, 0, 8, 0, 0, 0, 0, b'Z', 0, 0, 0, 5, b'I'];

/// RowDescription of a column `v` of type int4 (oid 23), 4 bytes long, with modifier -1, as text.
const COLUMNS: [u8; 27] = [
    b'T', 0, 0, 0, 26, 0, 1, b'v', 0, 0, 0, 0, 0, 0, 0, 0, 0, 0, 23, 0, 4, 255, 255, 255, 255, 0, 0,
];

/// ReadyForQuery, outside a transaction.
const READY: [u8; 6] = [b'Z', 0, 0, 0, 5, b'I'];

/// The most bytes of a reply without its rows, and of a row.
const ROOM: usize = 64;

const ROW: usize = 16;

/// The reply to command `k`: a notification if `notified`, and so many rows.
pub(crate) fn reply(
    alloc: Global,
    k: u32,
    rows: u32,
    notified: bool,
) -> Result<Vec<u8>, OutOfMemory>
    requires { rows < 4 }
    ensures { IfOk result (λ bytes. bytes.items ≡ bytes_of (spec.reply k rows notified)) }
{
    let mut buffer = Buffer::new();
    let number = buffer.format(k).as_bytes();
    let mut out = Vec::with_capacity(alloc, ROOM + ROW * rows as usize)?;
    put_front(number, notified, &mut out)?;
    put_rows(number, rows, &mut out)?;
    put_end(rows, &mut out)?;
    Ok(out)
}

/// Appends what comes before the rows.
fn put_front(number: &[u8], notified: bool, out: &mut Vec<u8>) -> Result<(), OutOfMemory>
    requires { length number.now ≤ 40 }
    ensures { OnOk result (out.new.items ≡ out.old.items ++ bytes_of (spec.before_rows number.now notified)) }
{
    if notified {
        put_notification(number, out)?;
    }
    Ok(out.extend_from_slice(&COLUMNS)?)
}

/// Appends NotificationResponse of process 1 on channel `c`.
fn put_notification(payload: &[u8], out: &mut Vec<u8>) -> Result<(), OutOfMemory>
    requires { length payload.now ≤ 40 }
    ensures { OnOk result (out.new.items ≡ out.old.items ++ message_bytes (notification 1 (codes "c") payload.now)) }
{
    put_header(b'A', payload.len() as u32 + 7, out)?;
    out.extend_from_slice(&[0, 0, 0, 1, b'c', 0])?;
    out.extend_from_slice(payload)?;
    Ok(out.extend_from_slice(&[0])?)
}

/// Appends so many rows of one cell.
fn put_rows(value: &[u8], rows: u32, out: &mut Vec<u8>) -> Result<(), OutOfMemory>
    requires { length value.now ≤ 40 }
    ensures { OnOk result (out.new.items ≡ out.old.items ++ bytes_of (replicate rows (one_cell value.now))) }
{
    for row in 0..rows {
        put_row(value, out)?;
    }
    Ok(())
}

/// Appends DataRow of one cell.
fn put_row(value: &[u8], out: &mut Vec<u8>) -> Result<(), OutOfMemory>
    requires { length value.now ≤ 40 }
    ensures { OnOk result (out.new.items ≡ out.old.items ++ message_bytes (one_cell value.now)) }
{
    // All lengths are below 256, so only the last of their four bytes isn't zero.
    let len = value.len() as u8;
    out.extend_from_slice(&[b'D', 0, 0, 0, len + 10, 0, 1, 0, 0, 0, len])?;
    Ok(out.extend_from_slice(value)?)
}

/// Appends what comes behind the rows: CommandComplete and ReadyForQuery.
fn put_end(rows: u32, out: &mut Vec<u8>) -> Result<(), OutOfMemory>
    requires { rows < 10 }
    ensures { OnOk result (out.new.items ≡ out.old.items ++ bytes_of (spec.behind_rows rows)) }
{
    let digit = b'0' + rows as u8;
    out.extend_from_slice(&[
        b'C', 0, 0, 0, 13, b'S', b'E', b'L', b'E', b'C', b'T', b' ', digit, 0,
    ])?;
    Ok(out.extend_from_slice(&READY)?)
}

/// Appends the tag and the length of a message whose body has `body` bytes.
fn put_header(tag: u8, body: u32, out: &mut Vec<u8>) -> Result<(), OutOfMemory>
    requires { body < 1000 }
    ensures { OnOk result (out.new.items ≡ out.old.items ++ tag ∷ be_bytes w32 (body + 4)) }
{
    out.extend_from_slice(&[tag])?;
    Ok(out.extend_from_slice(&(body + 4).to_be_bytes())?)
}
