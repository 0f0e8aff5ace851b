//! CopyFail (PostgreSQL documentation, "Message Formats").

ghost use Rattle.pg_spec.specs.Frames as frames;
ghost use Rattle.pg_wire.specs.Writes.{Writes};

use crate::FrameFault;
use crate::frame::{begin, has_zero, put_text};
use bytes::BytesMut;

/// Appends CopyFail, which ends a copy to the server without its rows; the server answers an error that
/// has the message. ZeroByte comes where the message holds a zero byte, then TooLong where the frame
/// passes its length field.
pub fn copy_fail(message: &str, out: &mut BytesMut) -> Result<(), FrameFault>
    ensures { Writes (frames.copy_fail_frame message.now) out.old.items out.new.items result }
{
    let message = message.as_bytes();
    if has_zero(message) {
        return Err(FrameFault::ZeroByte);
    }
    begin(b'f', message.len().saturating_add(1), out)?;
    put_text(message, out);
    Ok(())
}
