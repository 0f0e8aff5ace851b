//! Errors and their causes in words. None of the words comes from a text, a connection string or the server, so none of them is
//! a password.

ghost use Rattle.std.specs.Prelude.{◌≡◌};
ghost use Rattle.pg_diagnostics.specs.Words as spec;

use pg_types::{Cause, Error, FrameFault, ScramFault, ValueFault, WireFault};

/// What kind of error it is.
pub fn error_words(error: &Error) -> &'static str
    ensures { result.now ≡ spec.error_words error.now }
{
    match error {
        Error::Io(_) => "error communicating with the server",
        Error::UnexpectedMessage => "unexpected message from server",
        Error::Tls(_) => "error performing TLS handshake",
        Error::ToSql(_, _) => "error serializing parameter",
        Error::FromSql(_, _) => "error deserializing column",
        Error::Column(_) => "invalid column",
        Error::ColumnCount => "query returned an unexpected number of columns",
        Error::Parameters(_, _) => "unexpected number of parameters",
        Error::Closed => "connection closed",
        Error::Db(_) => "error of the server",
        Error::Parse(_) => "error parsing response from server",
        Error::Encode(_) => "error encoding message to server",
        Error::Authentication(_) => "authentication error",
        Error::ConfigParse(_) => "invalid connection string",
        Error::Config(_) => "invalid configuration",
        Error::RowCount => "query returned an unexpected number of rows",
        Error::Connect(_) => "error connecting to server",
        Error::Stalled { .. } => "connection stalled",
        Error::LimitReached { .. } => "byte limit reached",
        Error::Missing => "nothing open there",
        Error::OutOfMemory => "out of memory",
    }
}

/// What an error comes from.
pub fn cause_words(cause: &Cause) -> &'static str
    ensures { result.now ≡ spec.cause_words cause.now }
{
    match cause {
        Cause::Link => "a read or a write failed",
        Cause::Ended => "the connection ended too early",
        Cause::Wire(fault) => wire_words(fault),
        Cause::Fields => "the fields of an error or a notice can't be read",
        Cause::FieldCount => "a row has another number of cells than there are columns",
        Cause::BinaryCopy => "the data of a binary copy are out of form",
        Cause::NotUtf8 => "a text isn't UTF-8",
        Cause::Frame(fault) => frame_words(fault),
        Cause::Counter => "statements or portals can't be counted any further",
        Cause::Value(fault) => value_words(fault),
        Cause::NoUser => "no user is set",
        Cause::Nonce => "the nonce isn't 24 printable characters without a comma",
        Cause::NoPassword => "the server asks for a password, and none is set",
        Cause::Hosts => "hosts, addresses and ports don't fit together",
        Cause::Scripts => "the scripts are out of their rules",
        Cause::PreferDirect => "TLS is to begin at once where it is only preferred",
        Cause::Refused => "the server has no TLS, and it is required",
        Cause::NoHostname => "TLS needs the name of the host, and none is set",
        Cause::Handshake => "the handshake failed, as it does where a client has no TLS",
        Cause::Method => "the server asks for a way to log in that isn't known",
        Cause::Mechanism => "the server offers no SASL mechanism that is known",
        Cause::BindingRequired => "channel binding is required, and can't be had",
        Cause::NotAscii => "a password for SCRAM isn't ASCII",
        Cause::Scram(fault) => scram_words(fault),
        Cause::Syntax => "it is out of form",
        Cause::UnknownOption(_) => "an option of it isn't known",
        Cause::InvalidValue(_) => "the value of an option is out of form",
        Cause::ReadOnly(_) => "the session can't write, and was to",
        Cause::NotReadOnly(_) => "the session can write, and was to be read only",
    }
}

/// What is wrong with received bytes.
fn wire_words(fault: &WireFault) -> &'static str
    ensures { result.now ≡ spec.wire_words fault.now }
{
    match fault {
        WireFault::BadLength => "a message is shorter than its own length field",
        WireFault::UnknownTag => "a message is of an unknown type",
        WireFault::Layout => "a message breaks its layout",
        WireFault::NotUtf8 => "a text in a message isn't UTF-8",
        WireFault::OutOfMemory => "memory lacked for a message",
    }
}

/// Why a frame can't be written.
fn frame_words(fault: &FrameFault) -> &'static str
    ensures { result.now ≡ spec.frame_words fault.now }
{
    match fault {
        FrameFault::ZeroByte => "a text holds a zero byte",
        FrameFault::TooLong => "a message is longer than 2147483647 bytes",
        FrameFault::TooMany => "a message has more than 65535 items",
        FrameFault::OutOfMemory => "memory lacked for a frame",
    }
}

/// Why a value can't be written or read.
fn value_words(fault: &ValueFault) -> &'static str
    ensures { result.now ≡ spec.value_words fault.now }
{
    match fault {
        ValueFault::WrongType(_) => "a value can't stand for this type of the server",
        ValueFault::WasNull => "a value is null",
        ValueFault::BadValue => "a value is out of the form of its type",
        ValueFault::OutOfMemory => "memory lacked for a value",
    }
}

/// What is wrong in the SCRAM dialogue.
fn scram_words(fault: &ScramFault) -> &'static str
    ensures { result.now ≡ spec.scram_words fault.now }
{
    match fault {
        ScramFault::BadMessage => "a SCRAM message of the server is out of form",
        ScramFault::BadNonce => "the server's SCRAM nonce doesn't begin with the client's",
        ScramFault::BadSalt => "the server's SCRAM salt isn't base64",
        ScramFault::BadIterations => "the server's number of SCRAM iterations is out of range",
        ScramFault::BadSignature =>
            "the server's SCRAM signature is wrong: it doesn't know the password",
        ScramFault::ServerError(_) => "the server ended the SCRAM dialogue with an error",
        ScramFault::OutOfMemory => "memory lacked for the SCRAM dialogue",
    }
}
