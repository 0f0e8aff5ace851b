//! The words of a line.

ghost use Rattle.std.specs.Prelude.{◌≡◌, ◌==◌, IfOk, map};
ghost use Rattle.std.specs.List.{slice_split};
ghost use Rattle.std.specs.Option.{ok_or};
ghost use Rattle.pg_spec.specs.Numerals.{number_in};
ghost use Rattle.pg_machine.specs.MachineTexts.{bytes_at, frame_at, is_answered, is_row_frame, joined_at, state_at};
ghost use Rattle.pg_machine.specs.Readings.{Gives};

use crate::fault::{LineError, LineFault};
use crate::{Found, Kind, front_message, kind_of};
use pg_types::Blob;
use std::alloc::{AllocError, Global};
use std::str;

/// The lines of a text, which line feeds separate.
pub(crate) fn lines_of(alloc: Global, text: &[u8]) -> Result<Vec<&[u8]>, AllocError>
    ensures { IfOk result (λ lines. map (λ line. line.now) lines.items ≡ slice_split (λ b. b == 10) text.now) }
{
    text.split(|byte| *byte == b'\n').collect(alloc)
}

/// The words of a line, which single spaces separate.
pub(crate) fn words_of(alloc: Global, line: &[u8]) -> Result<Vec<&[u8]>, AllocError>
    ensures { IfOk result (λ words. map (λ word. word.now) words.items ≡ slice_split (λ b. b == 32) line.now) }
{
    line.split(|byte| *byte == b' ').collect(alloc)
}

/// A state, in decimal digits.
pub(crate) fn state_of(word: &[u8]) -> Result<u32, LineError>
    ensures { Gives (λ n. n) result (state_at word.now) }
{
    match word {
        [first, ..] => {
            if *first == b'+' {
                Err(LineError::Fault(LineFault::Number))
            } else {
                number_of(word)
            }
        }
        [] => Err(LineError::Fault(LineFault::Number)),
    }
}

/// The number of 32 bits that a word spells.
fn number_of(word: &[u8]) -> Result<u32, LineError>
    ensures { Gives (λ n. n) result (ok_or (number_in 32 word.now) LineFault.Number) }
{
    let Ok(text) = str::from_utf8(word) else {
        return Err(LineError::Fault(LineFault::Number));
    };
    match text.parse::<u32>() {
        Ok(number) => Ok(number),
        Err(_) => Err(LineError::Fault(LineFault::Number)),
    }
}

/// The bytes that hex digits of either case spell, two for each, of which there is one at least.
fn bytes_of(alloc: Global, word: &[u8]) -> Result<Vec<u8>, LineError>
    ensures { Gives (λ bytes. bytes.items) result (bytes_at word.now) }
{
    if word.is_empty() {
        return Err(LineError::Fault(LineFault::Hex));
    }
    match hex::decode(alloc, word) {
        Ok(bytes) => Ok(bytes),
        Err(fault) => match fault {
            hex::FromHexError::OutOfMemory => Err(LineError::OutOfMemory),
            _ => Err(LineError::Fault(LineFault::Hex)),
        },
    }
}

/// The bytes of words in hex, joined.
pub(crate) fn joined(alloc: Global, words: &[&[u8]]) -> Result<Blob, LineError>
    ensures { Gives (λ b. b) result (joined_at (map (λ word. word.now) words.now)) }
{
    let mut joined = Vec::new(alloc);
    for word in words {
        let bytes = bytes_of(alloc, word)?;
        joined.extend_from_slice(bytes.as_slice())?;
    }
    Ok(Blob::new(joined))
}

/// A server may have an answer to a frame of this kind.
fn is_answered(kind: Kind) -> bool
    ensures { result ≡ is_answered kind }
{
    match kind {
        Kind::Query | Kind::CopyData | Kind::CopyDone | Kind::Other => true,
        Kind::Sync | Kind::Flush | Kind::CopyFail | Kind::Terminate => false,
    }
}

/// The bytes are one whole frame, to which a server may have an answer.
fn is_row_frame(frame: &[u8]) -> bool
    ensures { result ≡ is_row_frame frame.now }
{
    let Found::Whole(n) = front_message(frame) else {
        return false;
    };
    frame[n..].is_empty() && is_answered(kind_of(frame[0]))
}

/// The frame of a row, in hex.
#[tactic(auto, unfolding(crate::specs::MachineTexts::frame_at))]
pub(crate) fn frame_of(alloc: Global, word: &[u8]) -> Result<Blob, LineError>
    ensures { Gives (λ b. b) result (frame_at word.now) }
{
    let bytes = bytes_of(alloc, word)?;
    if is_row_frame(bytes.as_slice()) {
        Ok(Blob::new(bytes))
    } else {
        Err(LineError::Fault(LineFault::Frame))
    }
}
