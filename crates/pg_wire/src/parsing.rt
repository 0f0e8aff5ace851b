//! Parse (PostgreSQL documentation, "Message Formats").

ghost use Rattle.pg_spec.specs.Frames as frames;
ghost use Rattle.pg_wire.specs.Writes.{Writes};

use crate::FrameFault;
use crate::frame::{begin, has_zero, put_text};
use crate::frame_items::{MAX_COUNT, put_oids, put_u16};
use bytes::BytesMut;

/// Appends Parse: the name of the statement that is to be made, its text, and the types of its first
/// parameters, 0 for one that the server finds. ZeroByte comes where the name or the text holds a zero
/// byte, then TooMany at more than 65,535 types, then TooLong where the frame passes its length field.
pub fn parse(name: &str, text: &str, oids: &[u32], out: &mut BytesMut) -> Result<(), FrameFault>
    ensures { Writes (frames.parse_frame name.now text.now oids.now) out.old.items out.new.items result }
{
    let name = name.as_bytes();
    let text = text.as_bytes();
    if has_zero(name) || has_zero(text) {
        return Err(FrameFault::ZeroByte);
    }
    if oids.len() > MAX_COUNT {
        return Err(FrameFault::TooMany);
    }
    let fixed = oids.len() * 4 + 4;
    let len = fixed.saturating_add(name.len()).saturating_add(text.len());
    begin(b'P', len, out)?;
    put_text(name, out);
    put_text(text, out);
    put_u16(oids.len() as u16, out);
    put_oids(oids, out);
    Ok(())
}
