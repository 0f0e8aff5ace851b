//! What a reader or a writer in memory answers to its calls, in order.

use pg_cases::words::text;
use std::io;
use std::io::ErrorKind;

/// The words of its answers that are left.
#[derive(Clone, Copy, Drop)]
pub(crate) struct Steps<'a> {
    words: &'a [Vec<u8>],
}

impl<'a> Steps<'a> {
    pub(crate) fn new(words: &'a [Vec<u8>]) -> Steps<'a> {
        Steps { words }
    }

    /// The next word, empty where none is left.
    pub(crate) fn next(&mut self) -> &'a [u8] {
        match self.words {
            [word, rest @ ..] => {
                self.words = rest;
                word.as_slice()
            }
            [] => b"",
        }
    }
}

/// The error of this name.
pub(crate) fn error_named(word: &[u8]) -> Option<io::Error> {
    match text(word) {
        "interrupted" => Some(io::Error::from(ErrorKind::Interrupted)),
        "block" => Some(io::Error::from(ErrorKind::WouldBlock)),
        "break" => Some(io::Error::from(ErrorKind::BrokenPipe)),
        _ => None,
    }
}
