//! Frames that name a statement or a portal (PostgreSQL documentation, "Message Formats", under Describe,
//! Close and Execute).

ghost use Rattle.pg_spec.specs.Frames as frames;
ghost use Rattle.pg_wire.specs.Writes.{Writes};

use crate::FrameFault;
use crate::frame::{begin, has_zero, put_text};
use bytes::BytesMut;

/// Appends Describe. `variant` is `S` for a statement and `P` for a portal. ZeroByte comes where the name
/// holds a zero byte, then TooLong where the frame passes its length field.
pub fn describe(variant: u8, name: &str, out: &mut BytesMut) -> Result<(), FrameFault>
    ensures { Writes (frames.describe_frame variant name.now) out.old.items out.new.items result }
{
    let name = name.as_bytes();
    if has_zero(name) {
        return Err(FrameFault::ZeroByte);
    }
    begin(b'D', name.len().saturating_add(2), out)?;
    out.extend_reserved(&[variant]);
    put_text(name, out);
    Ok(())
}

/// Appends Close. `variant` is `S` for a statement and `P` for a portal. ZeroByte comes where the name
/// holds a zero byte, then TooLong where the frame passes its length field.
pub fn close(variant: u8, name: &str, out: &mut BytesMut) -> Result<(), FrameFault>
    ensures { Writes (frames.close_frame variant name.now) out.old.items out.new.items result }
{
    let name = name.as_bytes();
    if has_zero(name) {
        return Err(FrameFault::ZeroByte);
    }
    begin(b'C', name.len().saturating_add(2), out)?;
    out.extend_reserved(&[variant]);
    put_text(name, out);
    Ok(())
}

/// Appends Execute. The server gives `max_rows` rows at most, or all for 0. ZeroByte comes where the
/// portal's name holds a zero byte, then TooLong where the frame passes its length field.
pub fn execute(portal: &str, max_rows: i32, out: &mut BytesMut) -> Result<(), FrameFault>
    ensures { Writes (frames.execute_frame portal.now max_rows) out.old.items out.new.items result }
{
    let portal = portal.as_bytes();
    if has_zero(portal) {
        return Err(FrameFault::ZeroByte);
    }
    begin(b'E', portal.len().saturating_add(5), out)?;
    put_text(portal, out);
    out.extend_reserved(&max_rows.to_be_bytes());
    Ok(())
}
