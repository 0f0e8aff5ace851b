//! Sources and sinks over std's `Read` and `Write`. What a reader gives and a writer takes is not told.

ghost use Rattle.std.specs.Prelude.{◌≡◌, ◌≤◌, length, IfSome};

use crate::stream::{Sink, SinkFlush, SinkWrite, Source, SourceRead};
use std::io::{ErrorKind, Read, Write};

/// How often a call that was interrupted is made at most.
const TRIES: u32 = 16;

/// Reads once. An interrupted read is tried again, sixteen tries at most; None comes after those, and at
/// any other error.
fn read_from<R: Read>(reader: &mut R, out: &mut [u8]) -> Option<usize>
    ensures { IfSome result (λ n. n ≤ length out.new) }
{
    for _ in 0..TRIES {
        match reader.read(out) {
            Ok(n) => return Some(n),
            Err(e) => {
                if e.kind() != ErrorKind::Interrupted {
                    break;
                }
            }
        }
    }
    None
}

/// Writes once, by the same rule.
fn write_to<W: Write>(writer: &mut W, bytes: &[u8]) -> Option<usize>
    ensures { IfSome result (λ n. n ≤ length bytes.now) }
{
    for _ in 0..TRIES {
        match writer.write(bytes) {
            Ok(n) => return Some(n),
            Err(e) => {
                if e.kind() != ErrorKind::Interrupted {
                    break;
                }
            }
        }
    }
    None
}

/// Flushes, by the same rule. Whether it succeeded.
fn flush_through<W: Write>(writer: &mut W) -> bool {
    for _ in 0..TRIES {
        match writer.flush() {
            Ok(()) => return true,
            Err(e) => {
                if e.kind() != ErrorKind::Interrupted {
                    break;
                }
            }
        }
    }
    false
}

/// A source over a reader.
#[derive(Drop)]
pub struct ReadSource<R> {
    reader: R,
    /// How often a call failed.
    faults: u64,
}

impl<R: Read> ReadSource<R> {
    /// A source over this reader, which hasn't failed yet.
    pub fn new(reader: R) -> ReadSource<R>
        ensures { result ≡ record { reader = reader; faults = 0 } }
    {
        ReadSource { reader, faults: 0 }
    }

    /// The reader.
    pub fn into_inner(self) -> R
        ensures { result ≡ self.reader }
    {
        let ReadSource { reader, faults: _ } = self;
        reader
    }
}

impl<R: Read> Source for ReadSource<R> {
    ghost use Rattle.std.specs.Prelude.{None};

    ghost state = { λ source. record { left = None; faults = source.faults } };

    /// An interrupted read is tried again, sixteen tries at most; any other error is Failed.
    fn read(&mut self, out: &mut [u8]) -> SourceRead {
        match read_from(&mut self.reader, out) {
            Some(0) => SourceRead::End,
            Some(n) => SourceRead::Got(n),
            None => {
                self.faults = self.faults.saturating_add(1);
                SourceRead::Failed
            }
        }
    }
}

/// A sink over a writer.
#[derive(Drop)]
pub struct WriteSink<W> {
    writer: W,
    /// How often a call failed.
    faults: u64,
}

impl<W: Write> WriteSink<W> {
    /// A sink over this writer, which hasn't failed yet.
    pub fn new(writer: W) -> WriteSink<W>
        ensures { result ≡ record { writer = writer; faults = 0 } }
    {
        WriteSink { writer, faults: 0 }
    }

    /// The writer.
    pub fn into_inner(self) -> W
        ensures { result ≡ self.writer }
    {
        let WriteSink { writer, faults: _ } = self;
        writer
    }
}

impl<W: Write> Sink for WriteSink<W> {
    ghost use Rattle.std.specs.Prelude.{None};

    ghost state = { λ sink. record { written = None; faults = sink.faults } };

    /// An interrupted write is tried again, sixteen tries at most; any other error, and a write that takes
    /// nothing, is Failed.
    fn write(&mut self, bytes: &[u8]) -> SinkWrite {
        match write_to(&mut self.writer, bytes) {
            Some(0) | None => {
                self.faults = self.faults.saturating_add(1);
                SinkWrite::Failed
            }
            Some(n) => SinkWrite::Took(n),
        }
    }

    /// Like `write`.
    fn flush(&mut self) -> SinkFlush {
        if flush_through(&mut self.writer) {
            return SinkFlush::Done;
        }
        self.faults = self.faults.saturating_add(1);
        SinkFlush::Failed
    }
}
