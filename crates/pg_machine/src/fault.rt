//! Why a text is that of no machine.

use pg_types::OutOfMemory;
use std::alloc::AllocError;
use thiserror::Error;

/// What is wrong with a line.
#[derive(Clone, Copy, Debug, PartialEq, Eq, Error, Drop)]
pub enum LineFault {
    /// Its first word is none of `startup`, `refusal`, `row` and `opens`.
    #[error("no such line")]
    FirstWord,
    /// A row has fewer than three words: a state, a frame and the next state.
    #[error("words lack")]
    Words,
    /// A state isn't a number of 32 bits in decimal digits.
    #[error("no number of 32 bits")]
    Number,
    /// A word isn't hex digits, two for each byte.
    #[error("no bytes in hex")]
    Hex,
    /// The frame of a row isn't one whole frame to which a server may have an answer.
    #[error("no frame that is answered")]
    Frame,
    /// The line says again what is said once.
    #[error("said before")]
    Twice,
    /// A row breaks the rules of a server, and none before it does.
    #[error("no server answers so")]
    Rules,
    /// The refusal isn't one ErrorResponse that can be read.
    #[error("no error")]
    NoError,
}

/// Why a text is that of no machine.
#[derive(Clone, Copy, Debug, PartialEq, Eq, Error, Drop)]
pub enum FileFault {
    /// This line, counted from 1, and what is wrong with it.
    #[error("line {number}: {fault}")]
    Line { number: usize, fault: LineFault },
    /// No line says the startup.
    #[error("no startup")]
    NoStartup,
    /// No line says the refusal.
    #[error("no refusal")]
    NoRefusal,
    #[error("out of memory")]
    OutOfMemory,
}

/// Why a line isn't read.
#[derive(Clone, Copy, Debug, PartialEq, Eq, Drop)]
pub(crate) enum LineError {
    Fault(LineFault),
    OutOfMemory,
}

impl From<AllocError> for LineError {
    ghost use Rattle.std.specs.Prelude.{◌≡◌};
    ghost use Rattle.pg_machine.specs.declared.fault.LineError.TheVariants as errors;

    ghost from_gives = { λ _ e. e ≡ errors.OutOfMemory };

    fn from(_: AllocError) -> LineError {
        LineError::OutOfMemory
    }
}

impl From<OutOfMemory> for LineError {
    ghost use Rattle.std.specs.Prelude.{◌≡◌};
    ghost use Rattle.pg_machine.specs.declared.fault.LineError.TheVariants as errors;

    ghost from_gives = { λ _ e. e ≡ errors.OutOfMemory };

    fn from(_: OutOfMemory) -> LineError {
        LineError::OutOfMemory
    }
}
