//! What an error comes from.

ghost use Rattle.std.specs.Prelude.{◌≡◌, option_map};
ghost use Rattle.pg_types.specs.Getters.{text_of_cause};

use crate::faults::{FrameFault, WireFault};
use crate::{OutOfMemory, Text, ValueFault};
use std::alloc::AllocError;

/// What is wrong with a message of the SCRAM dialogue (RFC 5802).
#[derive(Debug, Drop)]
pub enum ScramFault {
    /// It has another form.
    BadMessage,
    /// Its nonce doesn't begin with the client's.
    BadNonce,
    /// The salt isn't base64.
    BadSalt,
    /// The number of iterations isn't one from 1, in 32 bits.
    BadIterations,
    /// The server's signature is another.
    BadSignature,
    /// The server's own word for what is wrong.
    ServerError(Text),
    OutOfMemory,
}

impl From<OutOfMemory> for ScramFault {
    ghost use Rattle.std.specs.Prelude.{◌≡◌};
    ghost use Rattle.pg_types.specs.declared.cause.ScramFault.TheVariants.{OutOfMemory};

    ghost from_gives = { λ _ fault. fault ≡ OutOfMemory };

    fn from(_: OutOfMemory) -> ScramFault {
        ScramFault::OutOfMemory
    }
}

impl From<AllocError> for ScramFault {
    ghost use Rattle.std.specs.Prelude.{◌≡◌};
    ghost use Rattle.pg_types.specs.declared.cause.ScramFault.TheVariants.{OutOfMemory};

    ghost from_gives = { λ _ fault. fault ≡ OutOfMemory };

    fn from(_: AllocError) -> ScramFault {
        ScramFault::OutOfMemory
    }
}

/// What an error comes from.
#[derive(Debug)]
pub enum Cause {
    /// A call of the link failed.
    Link,
    /// The end came inside a message, or in place of the byte that answers an SSLRequest.
    Ended,
    /// Malformed bytes.
    Wire(WireFault),
    /// The fields of an error or a notice can't be read.
    Fields,
    /// A row has another number of cells than there are columns.
    FieldCount,
    /// The header, a row or the trailer of a binary copy is out of its form.
    BinaryCopy,
    /// A text isn't UTF-8.
    NotUtf8,
    /// The writer of a frame refused it.
    Frame(FrameFault),
    /// A counter of statements or portals is at its last value.
    Counter,
    /// A value can't be written or read.
    Value(ValueFault),
    /// No user is set.
    NoUser,
    /// The nonce is out of its form.
    Nonce,
    /// The server asks for a password, and none is set.
    NoPassword,
    /// Hosts, addresses and ports don't fit together.
    Hosts,
    /// The scripts of a session are out of their rules.
    Scripts,
    /// TLS without an SSLRequest is asked for where it is only preferred.
    PreferDirect,
    /// The server has no TLS, and it is required.
    Refused,
    /// TLS needs the host's name, and there is none.
    NoHostname,
    /// The TLS handshake failed.
    Handshake,
    /// A way to log in that this client doesn't know.
    Method,
    /// None of the server's SASL mechanisms is one that this client knows.
    Mechanism,
    /// Channel binding is required, and can't be had.
    BindingRequired,
    /// SASL asks for a password in ASCII.
    NotAscii,
    /// A message of the SCRAM dialogue is refused.
    Scram(ScramFault),
    /// The text is out of the form of a connection string.
    Syntax,
    /// A connection string has this key, which none is.
    UnknownOption(Text),
    /// The value of this key in a connection string is out of its form.
    InvalidValue(Text),
    /// The session can't write, and was to. With what the server answered.
    ReadOnly(Text),
    /// The session can write, and was to be read only. With what the server answered.
    NotReadOnly(Text),
}

impl Drop for Cause {
    fn drop(self) {
        match self {
            Cause::Wire(_it) => {}
            Cause::Frame(_it) => {}
            Cause::Value(_it) => {}
            Cause::Scram(_it) => {}
            Cause::UnknownOption(_it) => {}
            Cause::InvalidValue(_it) => {}
            Cause::ReadOnly(_it) => {}
            Cause::NotReadOnly(_it) => {}
            Cause::Link
            | Cause::Ended
            | Cause::Fields
            | Cause::FieldCount
            | Cause::BinaryCopy
            | Cause::NotUtf8
            | Cause::Counter
            | Cause::NoUser
            | Cause::Nonce
            | Cause::NoPassword
            | Cause::Hosts
            | Cause::Scripts
            | Cause::PreferDirect
            | Cause::Refused
            | Cause::NoHostname
            | Cause::Handshake
            | Cause::Method
            | Cause::Mechanism
            | Cause::BindingRequired
            | Cause::NotAscii
            | Cause::Syntax => {}
        }
    }
}

impl Cause {
    /// The text that it holds, as bytes: a key, the server's answer, or its word for what is wrong.
    pub fn text(&self) -> Option<&[u8]>
        ensures { option_map (λ text. text.now) result ≡ text_of_cause self.now }
    {
        match self {
            Cause::UnknownOption(key) => Some(key.as_str().as_bytes()),
            Cause::InvalidValue(key) => Some(key.as_str().as_bytes()),
            Cause::ReadOnly(answer) => Some(answer.as_str().as_bytes()),
            Cause::NotReadOnly(answer) => Some(answer.as_str().as_bytes()),
            Cause::Scram(ScramFault::ServerError(word)) => Some(word.as_str().as_bytes()),
            _ => None,
        }
    }
}
