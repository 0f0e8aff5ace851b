//! What the frames of a client share: a tag and a length with room for the body behind them, and texts.

ghost use Rattle.std.specs.Prelude.{◌≡◌, ◌+◌, ◌≤◌, ◌<◌, ◌++◌, length, IfOk, IfErr, MatchResult};
ghost use Rattle.pg_spec.specs.Bytes.{text0};
ghost use Rattle.pg_spec.specs.Frames.{has_zero as spec_has_zero};
ghost use Rattle.pg_wire.specs.Begins.{Begins, RefusesLength};

use bytes::BytesMut;
use pg_types::FrameFault;

/// The largest number that a length field holds, in bytes.
const MAX_LEN: usize = 2_147_483_647;

/// The length field of a frame whose body has so many bytes, or TooLong.
pub(crate) fn frame_len(body: usize) -> Result<u32, FrameFault>
    ensures ok { IfOk result (λ len. (len ≡ 4 + body) × (len ≤ 2147483647)) }
    ensures err { IfErr result (λ fault. (fault ≡ FrameFault.TooLong) × (2147483647 < 4 + body)) }
{
    if body > MAX_LEN - 4 {
        return Err(FrameFault::TooLong);
    }
    Ok(body as u32 + 4)
}

/// Appends a tag and the length of a frame whose body has `body` bytes, and makes room for the body.
/// TooLong comes where the frame passes its length field.
pub fn begin(tag: u8, body: usize, out: &mut BytesMut) -> Result<(), FrameFault>
    ensures { MatchResult result
        (λ _. Begins tag body out.old.items out.new.items out.new.spare)
        (λ fault. RefusesLength body out.old.items out.new.items fault) }
{
    let len = frame_len(body)?;
    // Room for the whole frame comes first, so a failure leaves no part of it.
    out.reserve(body + 5)?;
    out.extend_reserved(&[tag]);
    out.extend_reserved(&len.to_be_bytes());
    Ok(())
}

/// Appends a text and its zero byte, for which there is room.
pub fn put_text(text: &[u8], out: &mut BytesMut)
    requires { length text.now + 1 ≤ out.old.spare }
    ensures items { out.new.items ≡ out.old.items ++ text0 text.now }
    ensures spare { out.new.spare + (length text.now + 1) ≡ out.old.spare }
{
    out.extend_reserved(text);
    out.extend_reserved(b"\0");
}

/// Whether a zero byte stands in the text.
pub fn has_zero(text: &[u8]) -> bool
    ensures { result ≡ spec_has_zero text.now }
{
    text.iter().any(|b| *b == 0)
}
