//! Bind (PostgreSQL documentation, "Message Formats").

ghost use Rattle.std.specs.Prelude.{List, ℕ, Option};
ghost use Rattle.pg_spec.specs.Frames as frames;
ghost use Rattle.pg_wire.specs.Writes.{Writes};
ghost use Rattle.pg_wire.specs.Items.{SpellValues};

use crate::FrameFault;
use crate::frame::{begin, has_zero, put_text};
use crate::frame_items::{MAX_COUNT, put_formats, put_u16};
use bytes::BytesMut;

/// Appends Bind: the portal that is to be made, the statement, the formats of its parameters, the
/// parameters, and one format for all columns of the result; a format is 0 for text and 1 for binary.
/// `values` is `count` values, each a length of four bytes and so many bytes, or the length -1 for null.
/// ZeroByte comes where a name holds a zero byte, then TooMany at more than 65,535 formats or values,
/// then TooLong where the frame passes its length field.
pub fn bind(
    portal: &str,
    statement: &str,
    formats: &[i16],
    count: usize,
    values: &[u8],
    result_format: i16,
    out: &mut BytesMut,
) -> Result<(), FrameFault>
    requires { (given : List (Option (List ℕ))) × SpellValues count values.now given }
    ensures { (given : List (Option (List ℕ))) → SpellValues count values.now given →
        Writes (frames.bind_frame portal.now statement.now formats.now given result_format) out.old.items out.new.items result }
{
    let portal = portal.as_bytes();
    let statement = statement.as_bytes();
    if has_zero(portal) || has_zero(statement) {
        return Err(FrameFault::ZeroByte);
    }
    if formats.len() > MAX_COUNT || count > MAX_COUNT {
        return Err(FrameFault::TooMany);
    }
    let fixed = formats.len() * 2 + 10;
    let len = fixed
        .saturating_add(portal.len())
        .saturating_add(statement.len())
        .saturating_add(values.len());
    begin(b'B', len, out)?;
    put_text(portal, out);
    put_text(statement, out);
    put_u16(formats.len() as u16, out);
    put_formats(formats, out);
    put_u16(count as u16, out);
    out.extend_reserved(values);
    put_u16(1, out);
    out.extend_reserved(&result_format.to_be_bytes());
    Ok(())
}
