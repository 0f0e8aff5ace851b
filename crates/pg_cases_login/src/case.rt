//! What a case of settings or attempts calls.

use crate::{attempts, scram_cases, settings};
use pg_cases::words::{at, text_at};
use std::alloc::{AllocError, Global};

/// What a case gives, by its first word.
pub(crate) fn tell(alloc: Global, words: &[Vec<u8>], out: &mut String) -> Result<(), AllocError> {
    match text_at(words, 0) {
        "settings" => settings::tell(alloc, text_at(words, 1), out),
        "debug" => settings::tell_debug(alloc, text_at(words, 1), out),
        "setters" => settings::tell_setters(alloc, out),
        "attempts" => attempts::tell(alloc, at(words, 1), text_at(words, 2), out),
        _ => scram_cases::tell(alloc, words, out),
    }
}
