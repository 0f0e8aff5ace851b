//! A writer in memory.

use crate::steps::{Steps, error_named};
use pg_cases::words::text;
use std::alloc::Global;
use std::io;
use std::io::Write;

/// A writer that takes as many bytes as its next word says, or all; a word that names an error is the error of a write
/// or a flush.
#[derive(Drop)]
pub(crate) struct Output<'a> {
    steps: Steps<'a>,
    pub(crate) taken: Vec<u8>,
    pub(crate) flushes: u64,
}

impl<'a> Output<'a> {
    pub(crate) fn new(alloc: Global, words: &'a [Vec<u8>]) -> Output<'a> {
        Output {
            steps: Steps::new(words),
            taken: Vec::new(alloc),
            flushes: 0,
        }
    }
}

impl Write for Output<'_> {
    fn write(&mut self, bytes: &[u8]) -> io::Result<usize> {
        let word = self.steps.next();
        if let Some(error) = error_named(word) {
            return Err(error);
        }
        let room = text(word).parse::<usize>().unwrap_or(usize::MAX);
        let n = room.min(bytes.len());
        self.taken.extend_from_slice(&bytes[..n])?;
        Ok(n)
    }

    fn flush(&mut self) -> io::Result<()> {
        if let Some(error) = error_named(self.steps.next()) {
            return Err(error);
        }
        self.flushes = self.flushes.saturating_add(1);
        Ok(())
    }
}
