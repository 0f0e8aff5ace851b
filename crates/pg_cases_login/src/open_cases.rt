//! What a case of an opening, a cancelling or a check of a session calls.

use crate::{cancels, checks, opens};
use pg_cases::words::text_at;
use std::alloc::{AllocError, Global};

/// What such a case gives, by its first word.
pub(crate) fn tell(alloc: Global, words: &[Vec<u8>], out: &mut String) -> Result<(), AllocError> {
    match text_at(words, 0) {
        "cancel" => cancels::tell(alloc, words, out),
        "any" | "read-write" | "read-only" => checks::tell(alloc, words, out),
        _ => opens::tell(alloc, words, out),
    }
}
