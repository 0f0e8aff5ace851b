//! What is said to a frame.

ghost use Rattle.std.specs.Prelude.{◌≡◌, ◌++◌, [], IfOk, MatchResult, if◌then◌else◌};
ghost use Rattle.pg_machine.specs.ServingSteps.{ready_bytes};
ghost use Rattle.pg_server.specs.Answers.{asks, answer_bytes, sounds};

use bytes::BytesMut;
use pg_machine::{Tags, Turn, may_answer};
use pg_types::{Blob, OutOfMemory};
use std::alloc::Global;

/// ReadyForQuery, idle.
const READY: [u8; 6] = [b'Z', 0, 0, 0, 5, b'I'];

/// A reply, and whether ReadyForQuery follows it.
#[derive(Debug, Drop)]
pub(crate) struct Answer {
    pub reply: Blob,
    pub ready: bool,
}

/// ReadyForQuery, or nothing.
pub(crate) fn ready(says: bool) -> &'static [u8]
    ensures { result.now ≡ (if says then ready_bytes else []) }
{
    if says { &READY } else { &[] }
}

/// These bytes as an answer.
pub(crate) fn copied(alloc: Global, bytes: &[u8]) -> Result<Answer, OutOfMemory>
    ensures { IfOk result (λ answer. answer_bytes answer ≡ bytes.now) }
{
    match Blob::from_slice(alloc, bytes) {
        Ok(reply) => Ok(Answer {
            reply,
            ready: false,
        }),
        Err(_) => Err(OutOfMemory),
    }
}

/// The handler is asked in this turn.
pub(crate) fn asks(turn: Turn) -> bool
    ensures { result ≡ asks turn }
{
    match turn {
        Turn::Silent | Turn::Ready => false,
        _ => true,
    }
}

/// An effect whose reply has these tags may be given to a frame of this tag: as a reply may, and an opening has one
/// CopyInResponse.
pub(crate) fn is_sound(tags: Tags, tag: u8, opens: bool) -> bool
    ensures { result ≡ sounds tags tag opens }
{
    may_answer(tags, tag == b'E', opens) && !(opens && tags.again)
}

/// Appends an answer. Where memory lacks nothing is added.
pub(crate) fn put(answer: &Answer, out: &mut BytesMut) -> Result<(), OutOfMemory>
    ensures { MatchResult result (λ _. out.new.items ≡ out.old.items ++ answer_bytes answer.now) (λ _. out.new.items ≡ out.old.items) }
{
    let reply = answer.reply.as_slice();
    if out.reserve(reply.len() + READY.len()).is_err() {
        return Err(OutOfMemory);
    }
    out.extend_reserved(reply);
    if answer.ready {
        out.extend_reserved(&READY);
    }
    Ok(())
}
