//! A reader in memory.

use crate::steps::{Steps, error_named};
use std::io;
use std::io::Read;

/// A reader that gives the bytes of each word `=BYTES` in as many reads as it takes, fails where the word names an error, and
/// ends behind the last word.
#[derive(Drop)]
pub(crate) struct Input<'a> {
    steps: Steps<'a>,
    /// What is left of the bytes of the last word.
    bytes: &'a [u8],
}

impl<'a> Input<'a> {
    pub(crate) fn new(words: &'a [Vec<u8>]) -> Input<'a> {
        Input {
            steps: Steps::new(words),
            bytes: b"",
        }
    }
}

impl Read for Input<'_> {
    fn read(&mut self, out: &mut [u8]) -> io::Result<usize> {
        if self.bytes.is_empty() {
            let word = self.steps.next();
            if let Some(error) = error_named(word) {
                return Err(error);
            }
            self.bytes = word.get(1..).unwrap_or(b"");
        }
        self.bytes.read(out)
    }
}
