//! What a case of rows calls.

use crate::{rows, simple_rows};
use pg_cases::words::text_at;
use std::alloc::{AllocError, Global};

/// What a case of rows gives, by its first word.
pub(crate) fn tell(alloc: Global, words: &[Vec<u8>], out: &mut String) -> Result<(), AllocError> {
    match text_at(words, 0) {
        "row" => rows::tell(alloc, words, out),
        "simple" => simple_rows::tell(alloc, words, out),
        _ => out.push_str(" no such case"),
    }
}
