//! Why a value can't be written or read.

use crate::{Oid, OutOfMemory};
use std::alloc::AllocError;
use thiserror::Error;

/// The Rust types that stand for values of the server. An `Option` is named by the type inside.
#[derive(Clone, Copy, Debug, PartialEq, Eq, Drop)]
pub enum RustType {
    Bool,
    I8,
    I16,
    I32,
    I64,
    U32,
    /// `&str`.
    Str,
    Text,
    /// `&[u8]`.
    Slice,
    Blob,
    Value,
    /// A type of another crate.
    Other,
}

/// A Rust type meets a type of the server that it doesn't stand for.
#[derive(Clone, Copy, Debug, PartialEq, Eq, Drop, Error)]
#[error("the Rust type doesn't stand for this type of the server")]
pub struct WrongType {
    /// The type of the server.
    pub postgres: Oid,
    pub rust: RustType,
}

/// Why a value can't be written or read.
#[derive(Clone, Copy, Debug, PartialEq, Eq, Drop, Error)]
pub enum ValueFault {
    /// The Rust type doesn't stand for this type of the server.
    #[error("wrong type")]
    WrongType(WrongType),
    /// Null is read as a Rust type without a null.
    #[error("unexpected null")]
    WasNull,
    /// Bytes of another length or form than the type has, or a number out of its range.
    #[error("bad value")]
    BadValue,
    #[error("out of memory")]
    OutOfMemory,
}

impl From<AllocError> for ValueFault {
    ghost use Rattle.std.specs.Prelude.{◌≡◌};
    ghost use Rattle.pg_types.specs.declared.fault.ValueFault.TheVariants.{OutOfMemory};

    ghost from_gives = { λ _ e. e ≡ OutOfMemory };

    fn from(_: AllocError) -> ValueFault {
        ValueFault::OutOfMemory
    }
}

impl From<OutOfMemory> for ValueFault {
    ghost use Rattle.std.specs.Prelude.{◌≡◌};
    ghost use Rattle.pg_types.specs.declared.fault.ValueFault.TheVariants.{OutOfMemory};

    ghost from_gives = { λ _ e. e ≡ OutOfMemory };

    fn from(_: OutOfMemory) -> ValueFault {
        ValueFault::OutOfMemory
    }
}
