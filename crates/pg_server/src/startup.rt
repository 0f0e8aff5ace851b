//! What a server says to the startup frame.

ghost use Rattle.std.specs.Prelude.{◌≡◌};
ghost use Rattle.pg_server.specs.Startups.{is_startup, is_settled, is_authentication_ok, is_report_tag};
ghost use Rattle.pg_wire.specs.Fronts.{IsWhole, message_of_bytes};

use pg_machine::{Found, front_message};

/// The first `n` bytes, which are a message, are AuthenticationOk.
fn is_authentication_ok(bytes: &[u8], n: usize) -> bool
    requires { IsWhole bytes.now n }
    ensures { result ≡ is_authentication_ok (message_of_bytes n bytes.now) }
{
    bytes[0] == b'R' && matches!(&bytes[5..n], [0, 0, 0, 0])
}

/// BackendKeyData, ParameterStatus or NoticeResponse.
fn is_report(tag: u8) -> bool
    ensures { result ≡ is_report_tag tag }
{
    tag == b'K' || tag == b'S' || tag == b'N'
}

/// BackendKeyData, ParameterStatus and NoticeResponse in any number, then ReadyForQuery, and nothing behind it.
fn is_settled(bytes: &[u8]) -> bool
    ensures { result ≡ is_settled bytes.now }
{
    let mut rest = bytes;
    while let Found::Whole(n) = front_message(rest) {
        let tag = rest[0];
        let behind = &rest[n..];
        if tag == b'Z' {
            return behind.is_empty();
        }
        if !is_report(tag) {
            return false;
        }
        rest = behind;
    }
    false
}

/// The bytes are AuthenticationOk, then BackendKeyData, ParameterStatus and NoticeResponse in any number, then
/// ReadyForQuery.
pub(crate) fn is_startup(bytes: &[u8]) -> bool
    ensures { result ≡ is_startup bytes.now }
{
    let Found::Whole(n) = front_message(bytes) else {
        return false;
    };
    is_authentication_ok(bytes, n) && is_settled(&bytes[n..])
}
