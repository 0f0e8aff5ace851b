//! Frames that answer a request for authentication (PostgreSQL documentation, "Message Formats", under
//! PasswordMessage, SASLInitialResponse and SASLResponse).

ghost use Rattle.pg_spec.specs.Frames as frames;
ghost use Rattle.pg_wire.specs.Writes.{Writes};

use crate::FrameFault;
use crate::frame::{begin, has_zero, put_text};
use bytes::BytesMut;

/// Appends PasswordMessage. ZeroByte comes where the password holds a zero byte, then TooLong where the
/// frame passes its length field.
pub fn password_message(password: &[u8], out: &mut BytesMut) -> Result<(), FrameFault>
    ensures { Writes (frames.password_frame password.now) out.old.items out.new.items result }
{
    if has_zero(password) {
        return Err(FrameFault::ZeroByte);
    }
    begin(b'p', password.len().saturating_add(1), out)?;
    put_text(password, out);
    Ok(())
}

/// Appends SASLInitialResponse: the mechanism that was chosen, and its first message. ZeroByte comes where
/// the mechanism holds a zero byte, then TooLong where the frame passes its length field.
pub fn sasl_initial_response(
    mechanism: &str,
    response: &[u8],
    out: &mut BytesMut,
) -> Result<(), FrameFault>
    ensures { Writes (frames.sasl_initial_frame mechanism.now response.now) out.old.items out.new.items result }
{
    let mechanism = mechanism.as_bytes();
    if has_zero(mechanism) {
        return Err(FrameFault::ZeroByte);
    }
    let len = mechanism
        .len()
        .saturating_add(5)
        .saturating_add(response.len());
    begin(b'p', len, out)?;
    put_text(mechanism, out);
    out.extend_reserved(&(response.len() as u32).to_be_bytes());
    out.extend_reserved(response);
    Ok(())
}

/// Appends SASLResponse. TooLong comes where the frame passes its length field.
pub fn sasl_response(response: &[u8], out: &mut BytesMut) -> Result<(), FrameFault>
    ensures { Writes (frames.sasl_frame response.now) out.old.items out.new.items result }
{
    begin(b'p', response.len(), out)?;
    out.extend_reserved(response);
    Ok(())
}
