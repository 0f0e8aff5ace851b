//! What a reader or a writer answers.

ghost use Rattle.std.specs.Prelude.{◌≡◌};
ghost use Rattle.pg_stream.specs.Answers.{Hears, IsHeardAs, is_end, step_answer, wait_answer, write_answer};

use pg_wire::{LinkStep, LinkWait, LinkWrite};
use std::io;
use std::io::ErrorKind;

/// What a reader or a writer answered to the last call.
#[derive(Clone, Copy)]
pub(crate) enum Heard {
    /// It wasn't asked yet.
    Nothing,
    /// It gave or took so many bytes. A flush counts as none.
    Done(usize),
    WouldBlock,
    Interrupted,
    /// Any other error.
    Failed,
}

/// What an error of this kind is heard as.
pub(crate) fn heard_error(kind: ErrorKind) -> Heard
    ensures { IsHeardAs kind result }
{
    if kind == ErrorKind::WouldBlock {
        return Heard::WouldBlock;
    }
    if kind == ErrorKind::Interrupted {
        return Heard::Interrupted;
    }
    Heard::Failed
}

/// What the answer to a read or a write is heard as.
pub(crate) fn heard_count(answer: &io::Result<usize>) -> Heard
    ensures { Hears (λ n. n) answer.now result }
{
    match answer {
        Ok(n) => Heard::Done(*n),
        Err(error) => heard_error(error.kind()),
    }
}

/// What the answer to a flush is heard as.
pub(crate) fn heard_flush(answer: &io::Result<()>) -> Heard
    ensures { Hears (λ _. 0) answer.now result }
{
    match answer {
        Ok(()) => Heard::Done(0),
        Err(error) => heard_error(error.kind()),
    }
}

/// A read came to the end: it gave no byte.
pub(crate) fn is_end(heard: Heard) -> bool
    ensures { result ≡ is_end heard }
{
    match heard {
        Heard::Done(n) => n == 0,
        _ => false,
    }
}

/// What a write that was heard so answers.
pub(crate) fn write_answer(heard: Heard) -> LinkWrite
    ensures { result ≡ write_answer heard }
{
    match heard {
        Heard::Done(0) => LinkWrite::Failed,
        Heard::Done(n) => LinkWrite::Took(n),
        Heard::WouldBlock | Heard::Interrupted => LinkWrite::NotReady,
        Heard::Nothing | Heard::Failed => LinkWrite::Failed,
    }
}

/// What a flush or a shutdown answers whose flush was heard so.
pub(crate) fn step_answer(heard: Heard) -> LinkStep
    ensures { result ≡ step_answer heard }
{
    match heard {
        Heard::Done(_) => LinkStep::Done,
        Heard::WouldBlock | Heard::Interrupted => LinkStep::NotReady,
        Heard::Nothing | Heard::Failed => LinkStep::Failed,
    }
}

/// What a wait answers whose last read was heard so.
pub(crate) fn wait_answer(heard: Heard) -> LinkWait
    ensures { result ≡ wait_answer heard }
{
    match heard {
        Heard::Done(_) => LinkWait::Ready,
        Heard::WouldBlock => LinkWait::Idle,
        Heard::Nothing | Heard::Interrupted | Heard::Failed => LinkWait::Failed,
    }
}
