//! What each case calls.

use crate::{datum_cases, parameters, reading, standing, types, writing};
use pg_cases::words::text_at;
use std::alloc::{AllocError, Global};

/// The number that a word is, 0 where it is none.
fn number_at(words: &[Vec<u8>], place: usize) -> u32 {
    text_at(words, place).parse::<u32>().unwrap_or(0)
}

/// What a case gives, by its first word.
pub(crate) fn tell(alloc: Global, words: &[Vec<u8>], out: &mut String) -> Result<(), AllocError> {
    match text_at(words, 0) {
        "type" => types::tell(alloc, number_at(words, 1), out),
        "made" => types::tell_made(alloc, text_at(words, 1), out),
        "fields" => types::tell_fields(alloc, out),
        "range-is-domain" => types::tell_unequal(alloc, out),
        "write-rust" => writing::tell(alloc, words, out),
        "read-rust" => reading::tell(alloc, words, out),
        "stands" => standing::tell(alloc, number_at(words, 1), out),
        "parameters" => parameters::tell(alloc, text_at(words, 1), out),
        _ => datum_cases::tell(alloc, words, out),
    }
}
