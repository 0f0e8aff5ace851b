//! What goes behind an answer: ReadyForQuery, and the mode.

ghost use Rattle.std.specs.Prelude.{◌≡◌, MatchResult, ◌++◌, [], if◌then◌else◌};
ghost use Rattle.pg_machine.specs.ServingSteps.{ready_bytes, says_ready, answered_mode};

use crate::serving::{Mode, Turn};
use pg_types::OutOfMemory;

/// ReadyForQuery, idle.
const READY: [u8; 6] = [b'Z', 0, 0, 0, 5, b'I'];

/// Adds a reply, and ReadyForQuery behind it where `ready` says so. Where memory lacks nothing is added.
pub fn put(reply: &[u8], ready: bool, out: &mut Vec<u8>) -> Result<(), OutOfMemory>
    ensures { MatchResult result (λ _. out.new.items ≡ out.old.items ++ (reply.now ++ (if ready then ready_bytes else []))) (λ _. out.new.items ≡ out.old.items) }
{
    let len = out.len();
    if out.extend_from_slice(reply).is_err() {
        return Err(OutOfMemory);
    }
    if ready && out.extend_from_slice(&READY).is_err() {
        out.truncate(len);
        return Err(OutOfMemory);
    }
    Ok(())
}

/// ReadyForQuery is said in this turn.
pub fn says_ready(turn: Turn) -> bool
    ensures { result ≡ says_ready turn }
{
    match turn {
        Turn::Ready | Turn::AnswersReady => true,
        _ => false,
    }
}

/// The mode behind an answer, which holds an ErrorResponse or not, and opens a copy or not.
pub fn mode_behind(turn: Turn, error: bool, opens: bool) -> Mode
    ensures { result ≡ answered_mode turn error opens }
{
    match turn {
        Turn::AnswersReady => Mode::Normal,
        Turn::Refuses => Mode::Skip,
        _ if error => Mode::Skip,
        Turn::TakesData => Mode::CopyIn,
        Turn::Answers if opens => Mode::CopyIn,
        _ => Mode::Normal,
    }
}
