//! Why a connection ends, as its steps tell each other.

ghost use Rattle.std.specs.Prelude.{◌≡◌};
ghost use Rattle.pg_connect.specs.Faults.{error_of, of_desk};

use pg_desk::DeskFault;
use pg_errors::{Cause, Error};
use pg_types::OutOfMemory;
use pg_wire::WireFault;
use std::alloc::AllocError;

/// Why a connection ends before its time.
#[derive(Debug)]
pub enum ConnectionFault {
    /// A call of the link failed.
    Link,
    /// The server ended between two messages, or the hub answered that it is closed.
    Closed,
    /// The server ended inside a message.
    Ended,
    /// A header has a length below 4.
    BadLength,
    /// A message that no request asks for breaks its layout.
    Layout,
    /// A message that no request asks for can't be read, for this cause.
    Unreadable(Cause),
    /// A message came though no request is open. The error is what it means.
    Unasked(Error),
    /// More bytes were given than the limit allows. Both in bytes.
    LimitReached { given: u64, limit: u64 },
    OutOfMemory,
}

impl Drop for ConnectionFault {
    fn drop(self) {
        match self {
            ConnectionFault::Unreadable(_it) => {}
            ConnectionFault::Unasked(_it) => {}
            ConnectionFault::LimitReached { given: _, limit: _ } => {}
            ConnectionFault::Link
            | ConnectionFault::Closed
            | ConnectionFault::Ended
            | ConnectionFault::BadLength
            | ConnectionFault::Layout
            | ConnectionFault::OutOfMemory => {}
        }
    }
}

impl ConnectionFault {
    /// The error that a caller is given.
    pub fn into_error(self) -> Error
        ensures { result ≡ error_of self }
    {
        match self {
            ConnectionFault::Link => Error::Io(Cause::Link),
            ConnectionFault::Closed => Error::Closed,
            ConnectionFault::Ended => Error::Io(Cause::Ended),
            ConnectionFault::BadLength => Error::Io(Cause::Wire(WireFault::BadLength)),
            ConnectionFault::Layout => Error::Io(Cause::Wire(WireFault::Layout)),
            ConnectionFault::Unreadable(cause) => Error::Parse(cause),
            ConnectionFault::Unasked(error) => error,
            ConnectionFault::LimitReached { given, limit } => Error::LimitReached { given, limit },
            ConnectionFault::OutOfMemory => Error::OutOfMemory,
        }
    }
}

impl From<OutOfMemory> for ConnectionFault {
    ghost use Rattle.std.specs.Prelude.{◌≡◌};
    ghost use Rattle.pg_connect.specs.declared.fault.ConnectionFault.TheVariants.{OutOfMemory};

    ghost from_gives = { λ _ fault. fault ≡ OutOfMemory };

    fn from(_: OutOfMemory) -> ConnectionFault {
        ConnectionFault::OutOfMemory
    }
}

impl From<AllocError> for ConnectionFault {
    ghost use Rattle.std.specs.Prelude.{◌≡◌};
    ghost use Rattle.pg_connect.specs.declared.fault.ConnectionFault.TheVariants.{OutOfMemory};

    ghost from_gives = { λ _ fault. fault ≡ OutOfMemory };

    fn from(_: AllocError) -> ConnectionFault {
        ConnectionFault::OutOfMemory
    }
}

/// A fault of the hub as the connection's. No call of an engine answers Encode.
pub(crate) fn fault_of(fault: DeskFault) -> ConnectionFault
    ensures { result ≡ of_desk fault }
{
    match fault {
        DeskFault::OutOfMemory => ConnectionFault::OutOfMemory,
        DeskFault::Closed => ConnectionFault::Closed,
        DeskFault::Encode => ConnectionFault::Closed,
    }
}
