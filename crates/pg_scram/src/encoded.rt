//! Base64 (RFC 4648, section 4).

ghost use Rattle.std.specs.Prelude.{◌≡◌, IfOk, option_map, string_bytes};
ghost use Rattle.pg_spec.specs.Passwords as spec;

use base64::DecodeAllocError;
use base64::engine::general_purpose::STANDARD;
use pg_types::OutOfMemory;
use std::alloc::{AllocError, Global};

/// The base64 of the bytes, with padding.
pub(crate) fn base64(alloc: Global, bytes: &[u8]) -> Result<String, AllocError>
    ensures { IfOk result (λ text. string_bytes text ≡ spec.base64 bytes.now) }
{
    STANDARD.encode(alloc, bytes)
}

/// The bytes whose base64 is the text. None where it is no base64, or has bits or padding of its own.
pub(crate) fn from_base64(alloc: Global, text: &[u8]) -> Result<Option<Vec<u8>>, OutOfMemory>
    ensures { IfOk result (λ bytes. option_map (λ b. b.items) bytes ≡ spec.from_base64 text.now) }
{
    match STANDARD.decode(alloc, text) {
        Ok(bytes) => Ok(Some(bytes)),
        Err(DecodeAllocError::DecodeError(_)) => Ok(None),
        Err(DecodeAllocError::OutOfMemory) => Err(OutOfMemory),
    }
}
