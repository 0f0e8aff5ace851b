//! The server's last message (RFC 5802, section 7).

ghost use Rattle.std.specs.Prelude.{◌≡◌, ◌&&◌, ◌||◌, ◌==◌, not, None, IfOk, IfErr};
ghost use Rattle.std.specs.List.{list_any};
ghost use Rattle.std.specs.Str.{byte, bytes_eq};
ghost use Rattle.pg_spec.specs.Passwords as spec;
ghost use Rattle.pg_scram.specs.Faults.{Rejects};

use crate::encoded::from_base64;
use crate::fields::value_of;
use pg_errors::ScramFault;
use pg_types::Text;
use std::alloc::Global;
use std::str;

/// Reads the server's last message: its signature must be this one.
pub(crate) fn verify(alloc: Global, signature: &[u8; 32], message: &[u8]) -> Result<(), ScramFault>
    ensures ok { IfOk result (λ _. spec.server_final_fault signature.now message.now ≡ None) }
    ensures err { IfErr result (λ fault. Rejects fault (spec.server_final_fault signature.now message.now)) }
{
    if let Some(text) = value_of(message, b"e=") {
        return Err(server_error(alloc, text));
    }
    let Some(encoded) = value_of(message, b"v=") else {
        return Err(ScramFault::BadMessage);
    };
    match from_base64(alloc, encoded)? {
        Some(given) if are_equal(&given, signature) => Ok(()),
        Some(_) => Err(ScramFault::BadSignature),
        None => Err(ScramFault::BadMessage),
    }
}

/// The fault of an error that the server tells.
fn server_error(alloc: Global, text: &[u8]) -> ScramFault
    ensures { Rejects result (spec.told_by text.now) }
{
    let Ok(text) = str::from_utf8(text) else {
        return ScramFault::BadMessage;
    };
    if has_delimiter(text.as_bytes()) {
        return ScramFault::BadMessage;
    }
    match Text::from_str(alloc, text) {
        Ok(text) => ScramFault::ServerError(text),
        Err(_) => ScramFault::OutOfMemory,
    }
}

/// A byte that the value of an attribute can't have (RFC 5802, section 7: value-char).
fn has_delimiter(text: &[u8]) -> bool
    ensures { result ≡ list_any (λ c. c == 0 || c == byte "=" || c == byte ",") text.now }
{
    text.iter().any(|c| *c == 0 || *c == b'=' || *c == b',')
}

/// Compares over all bytes, whatever the first difference.
fn are_equal(given: &[u8], signature: &[u8; 32]) -> bool
    ensures { result ≡ bytes_eq given.now signature.now }
{
    if given.len() != signature.len() {
        return false;
    }
    let mut differing = 0u8;
    for i in 0..signature.len() {
        differing |= given[i] ^ signature[i];
    }
    differing == 0
}
