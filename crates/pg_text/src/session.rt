//! A session as its text asks for it.

ghost use Rattle.std.specs.Prelude.{◌≡◌};

use crate::scripts::Scripts;
use pg_types::{Blob, List, OutOfMemory, Text};
use pg_wire::MemoryLink;
use thiserror::Error;

/// What a session text asks for.
#[derive(Drop)]
pub struct Session {
    /// The connection string.
    pub config: Text,
    pub scripts: Scripts,
    /// The turns that are made first: below the number of scripts a handle's, else the connection's.
    pub turns: List<u32>,
    pub nonce: Blob,
    /// The most bytes that the link may give.
    pub max_bytes: u64,
    pub link: MemoryLink,
}

/// Why a text is no session text.
#[derive(Clone, Copy, Debug, PartialEq, Eq, Drop, Error)]
pub enum TextFault {
    /// The first line that breaks the rules, counted from 1. What lacks at the end counts as the line
    /// after the last.
    #[error("line {0} breaks the rules")]
    Line(u64),
    /// The text has more than 67,108,864 bytes.
    #[error("text too long")]
    TooLong,
    #[error("out of memory")]
    OutOfMemory,
}

impl From<OutOfMemory> for TextFault {
    ghost use Rattle.pg_text.specs.declared.session.TextFault.TheVariants.{OutOfMemory};

    ghost from_gives = { λ _ fault. fault ≡ OutOfMemory };

    fn from(_: OutOfMemory) -> TextFault {
        TextFault::OutOfMemory
    }
}
