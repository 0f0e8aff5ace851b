//! The frames that a client writes.

ghost use Rattle.std.specs.Prelude.{◌≡◌, ◌+◌, ◌≤◌, ◌++◌, ◌∷◌, [], length, min, Ok, MatchResult};
ghost use Rattle.std.specs.List.{list_any};
ghost use Rattle.pg_spec.specs.Frames as frames;
ghost use Rattle.pg_wire.specs.Writes.{Writes, pair_has_zero, pairs_bytes};

use crate::frame::{begin, frame_len, has_zero, put_text};
use bytes::BytesMut;
use pg_types::{FrameFault, List, OutOfMemory, Text};
use std::alloc::Global;
use std::marker::Model;

/// Version 3.0 of the protocol (PostgreSQL documentation, "Message Formats", under StartupMessage).
const VERSION: [u8; 4] = [0, 3, 0, 0];

/// The frame Terminate, which ends a session.
pub const TERMINATE: [u8; 5] = [b'X', 0, 0, 0, 4];

/// Names and values of a startup frame, in order.
#[derive(Drop)]
pub struct StartupParams {
    pairs: Vec<(Text, Text)>,
}

impl Model for StartupParams {
    ghost use Rattle.std.specs.Prelude.{List, ℕ, map};

    ghost Value = { List (List ℕ × List ℕ) };

    ghost view = { λ p. map (λ pair. (pair.0, pair.1)) p.pairs.items };
}

impl StartupParams {
    /// No pair. It takes no memory.
    pub fn new(alloc: Global) -> StartupParams
        ensures { result ≡ [] }
    {
        StartupParams {
            pairs: Vec::new(alloc),
        }
    }

    /// Adds a pair behind the others. Where memory lacks, the pairs are as before.
    pub fn push(&mut self, alloc: Global, name: &str, value: &str) -> Result<(), OutOfMemory>
        ensures { MatchResult result (λ _. self.new ≡ self.old ++ (name.now, value.now) ∷ []) (λ _. self.new ≡ self.old) }
    {
        let name = Text::from_str(alloc, name)?;
        let value = Text::from_str(alloc, value)?;
        match self.pairs.push((name, value)) {
            Ok(()) => Ok(()),
            Err(_) => Err(OutOfMemory),
        }
    }
}

/// Appends the startup frame of these pairs (StartupMessage). ZeroByte comes where a name or a value
/// holds a zero byte, then TooLong where the frame passes its length field.
pub fn startup_message(params: &StartupParams, out: &mut BytesMut) -> Result<(), FrameFault>
    ensures { Writes (frames.startup_frame params.now) out.old.items out.new.items result }
{
    let pairs = params.pairs.as_slice();
    if any_zero(pairs) {
        return Err(FrameFault::ZeroByte);
    }
    let len = frame_len(pairs_len(pairs).saturating_add(5))?;
    // Room for the whole frame comes first, so a failure leaves no part of it.
    out.reserve(len as usize)?;
    out.extend_reserved(&len.to_be_bytes());
    out.extend_reserved(&VERSION);
    put_pairs(pairs, out);
    out.extend_reserved(&[0]);
    Ok(())
}

/// Whether a zero byte stands in a name or a value.
fn any_zero(pairs: &[(Text, Text)]) -> bool
    ensures { result ≡ list_any pair_has_zero pairs.now }
{
    for (name, value) in pairs {
        if has_zero(name.as_str().as_bytes()) || has_zero(value.as_str().as_bytes()) {
            return true;
        }
    }
    false
}

/// How many bytes the pairs take, or the largest number where there are more.
fn pairs_len(pairs: &[(Text, Text)]) -> usize
    ensures { result ≡ min (length (pairs_bytes pairs.now)) usize.MAX }
{
    let mut len = 0usize;
    for (name, value) in pairs {
        len = len
            .saturating_add(name.as_str().len())
            .saturating_add(value.as_str().len())
            .saturating_add(2);
    }
    len
}

/// Appends the pairs, for which there is room.
fn put_pairs(pairs: &[(Text, Text)], out: &mut BytesMut)
    requires { length (pairs_bytes pairs.now) ≤ out.old.spare }
    ensures items { out.new.items ≡ out.old.items ++ pairs_bytes pairs.now }
    ensures spare { out.new.spare + length (pairs_bytes pairs.now) ≡ out.old.spare }
{
    for (name, value) in pairs {
        put_text(name.as_str().as_bytes(), out);
        put_text(value.as_str().as_bytes(), out);
    }
}

/// Appends a Query frame. ZeroByte comes where the text holds a zero byte, then TooLong where the frame
/// passes its length field.
pub fn query(text: &str, out: &mut BytesMut) -> Result<(), FrameFault>
    ensures { Writes (frames.query_frame text.now) out.old.items out.new.items result }
{
    let text = text.as_bytes();
    if has_zero(text) {
        return Err(FrameFault::ZeroByte);
    }
    begin(b'Q', text.len().saturating_add(1), out)?;
    put_text(text, out);
    Ok(())
}

/// Appends a CopyData frame. TooLong comes where the frame passes its length field.
pub fn copy_data(payload: &[u8], out: &mut BytesMut) -> Result<(), FrameFault>
    ensures { Writes (frames.copy_data_frame payload.now) out.old.items out.new.items result }
{
    begin(b'd', payload.len(), out)?;
    out.extend_reserved(payload);
    Ok(())
}

/// Appends Terminate.
pub fn terminate(out: &mut BytesMut) -> Result<(), FrameFault>
    ensures { Writes (Ok frames.terminate_frame) out.old.items out.new.items result }
{
    out.extend_from_slice(&TERMINATE)?;
    Ok(())
}
