//! What a case of passwords calls.

use crate::{open_cases, passwords, scram};
use pg_cases::words::{at, text_at};
use std::alloc::{AllocError, Global};

/// What a case of passwords or of a session's beginning gives, by its first word.
pub(crate) fn tell(alloc: Global, words: &[Vec<u8>], out: &mut String) -> Result<(), AllocError> {
    match text_at(words, 0) {
        "hmac" => passwords::tell_mac(alloc, words, out),
        "proof" => passwords::tell_proof(alloc, words, out),
        "md5" => passwords::tell_md5(alloc, words, out),
        "scram" => scram::tell(alloc, words, out),
        "challenge" => scram::tell_challenge(alloc, at(words, 1), out),
        "verdict" => scram::tell_verdict(alloc, at(words, 1), out),
        _ => open_cases::tell(alloc, words, out),
    }
}
