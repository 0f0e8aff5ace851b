//! What each case calls.

use crate::{asides, batches, db_errors, errors, frames, messages, named, server_cases};
use bytes::Bytes;
use pg_cases::shared;
use pg_cases::words::{at, text_at};
use pg_wire::{Message, WireFault};
use std::alloc::{AllocError, Global};

/// The first byte of a word, 0 where it has none.
fn tag_at(words: &[Vec<u8>], place: usize) -> u8 {
    at(words, place).first().copied().unwrap_or(0)
}

/// Cases of one message.
fn tell_message(
    alloc: Global,
    words: &[Vec<u8>],
    message: &Result<Option<Message>, WireFault>,
    out: &mut String,
) -> Result<(), AllocError> {
    match text_at(words, 0) {
        "error" => db_errors::tell(alloc, message, out),
        "db-error" => errors::tell(alloc, message, text_at(words, 1), out),
        "aside" => asides::tell(alloc, message, out),
        _ => messages::tell(message, out),
    }
}

/// The first message of bytes. It is owned here alone.
fn tell_front(
    alloc: Global,
    words: &[Vec<u8>],
    bytes: &mut Bytes,
    out: &mut String,
) -> Result<(), AllocError> {
    let message = Message::parse(bytes);
    tell_message(alloc, words, &message, out)
}

/// A message of this tag and body.
fn tell_framed(
    alloc: Global,
    words: &[Vec<u8>],
    tag: u8,
    body: &[u8],
    out: &mut String,
) -> Result<(), AllocError> {
    let mut bytes = shared::of_message(alloc, tag, body)?;
    tell_front(alloc, words, &mut bytes, out)
}

/// The first message of bytes, and how many bytes are left behind it.
fn tell_bytes(alloc: Global, words: &[Vec<u8>], out: &mut String) -> Result<(), AllocError> {
    let mut bytes = shared::of_slice(alloc, at(words, 1))?;
    let told = tell_front(alloc, words, &mut bytes, out);
    messages::tell_left(&bytes, out).and(told)
}

/// Cases of frames and batches, and those of the server and of streams.
fn tell_of_wire(alloc: Global, words: &[Vec<u8>], out: &mut String) -> Result<(), AllocError> {
    match text_at(words, 0) {
        "header" => batches::tell_header(at(words, 1), out),
        "decode" => batches::tell(alloc, at(words, 1), out),
        "message" => tell_bytes(alloc, words, out),
        "frame" => frames::tell(alloc, words, out),
        _ => server_cases::tell(alloc, words, out),
    }
}

/// What a case gives, by its first word.
pub(crate) fn tell(alloc: Global, words: &[Vec<u8>], out: &mut String) -> Result<(), AllocError> {
    match text_at(words, 0) {
        "error" => tell_framed(alloc, words, b'E', at(words, 1), out),
        "db-error" => tell_framed(alloc, words, b'E', at(words, 2), out),
        "aside" => tell_framed(alloc, words, tag_at(words, 1), at(words, 2), out),
        "sentence" => named::tell(words, out),
        "column-error" => named::tell_column(alloc, text_at(words, 1), out),
        "server-word" => named::tell_word(alloc, text_at(words, 1), out),
        _ => tell_of_wire(alloc, words, out),
    }
}
