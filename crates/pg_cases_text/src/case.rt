//! What each case calls.

use crate::{machines, named, replies, reports, said, sessions};
use pg_cases::words::{at, text_at};
use std::alloc::{AllocError, Global};

/// The number that a word is, 0 where it is none.
fn number_at(words: &[Vec<u8>], place: usize) -> u32 {
    text_at(words, place).parse::<u32>().unwrap_or(0)
}

/// The status that a word is, 0 where it is none.
fn status_at(words: &[Vec<u8>], place: usize) -> u8 {
    text_at(words, place).parse::<u8>().unwrap_or(0)
}

/// The first byte of a word, 0 where it has none.
fn tag_at(words: &[Vec<u8>], place: usize) -> u8 {
    at(words, place).first().copied().unwrap_or(0)
}

/// What a case gives, by its first word.
pub(crate) fn tell(alloc: Global, words: &[Vec<u8>], out: &mut String) -> Result<(), AllocError> {
    match text_at(words, 0) {
        "reply" => replies::tell(alloc, tag_at(words, 1), at(words, 2), out),
        "session" => sessions::tell(alloc, at(words, 1), out),
        "pieces" => sessions::tell_pieces(alloc, at(words, 1), out),
        "handles" => sessions::tell_handles(alloc, number_at(words, 1), out),
        "report" => reports::tell(alloc, text_at(words, 1), out),
        "line" => named::tell(alloc, words, out),
        "column-line" => named::tell_column(alloc, text_at(words, 1), out),
        "says" => said::tell(alloc, words, out),
        "says-status" => said::tell_status(alloc, status_at(words, 1), at(words, 2), out),
        "machine" => machines::tell(alloc, words, out),
        _ => out.push_str(" no such case"),
    }
}
