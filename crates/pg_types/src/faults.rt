//! What is wrong with received bytes, and with the arguments of a frame.

use std::alloc::AllocError;
use thiserror::Error;

/// Why received bytes are refused.
#[derive(Clone, Copy, Debug, PartialEq, Eq, Drop, Error)]
pub enum WireFault {
    /// A length below 4, which doesn't even count itself.
    #[error("bad length")]
    BadLength,
    /// A tag that no message has.
    #[error("unknown tag")]
    UnknownTag,
    /// A body that is shorter or longer than its message's layout.
    #[error("broken layout")]
    Layout,
    /// A text that isn't UTF-8.
    #[error("not UTF-8")]
    NotUtf8,
    #[error("out of memory")]
    OutOfMemory,
}

/// Why a frame can't be written. The buffer is then as it was.
#[derive(Clone, Copy, Debug, PartialEq, Eq, Drop, Error)]
pub enum FrameFault {
    /// A text that a zero byte ends holds one.
    #[error("zero byte")]
    ZeroByte,
    /// The length, in bytes, is past 2,147,483,647.
    #[error("message too long")]
    TooLong,
    /// More than 65,535 items.
    #[error("too many items")]
    TooMany,
    #[error("out of memory")]
    OutOfMemory,
}

impl From<AllocError> for WireFault {
    ghost use Rattle.std.specs.Prelude.{◌≡◌};
    ghost use Rattle.pg_types.specs.declared.faults.WireFault.TheVariants.{OutOfMemory};

    ghost from_gives = { λ _ e. e ≡ OutOfMemory };

    fn from(_: AllocError) -> WireFault {
        WireFault::OutOfMemory
    }
}

impl From<AllocError> for FrameFault {
    ghost use Rattle.std.specs.Prelude.{◌≡◌};
    ghost use Rattle.pg_types.specs.declared.faults.FrameFault.TheVariants.{OutOfMemory};

    ghost from_gives = { λ _ e. e ≡ OutOfMemory };

    fn from(_: AllocError) -> FrameFault {
        FrameFault::OutOfMemory
    }
}
