//! A source and a sink in memory.

ghost use Rattle.std.specs.Prelude.{◌≡◌, ◌<◌, ◌≤◌, [], length};
ghost use Rattle.pg_wire.specs.MemoryStreams.{source_of, sink_of, ReadsLeft, TakesAll, IsFlushed};
ghost use Rattle.pg_wire.specs.Streams.{SourceAnswers, SinkAnswers, SinkFlushAnswers};

use crate::giving::copy_front;
use crate::stream::{Sink, SinkFlush, SinkWrite, Source, SourceRead};
use std::alloc::Global;
use std::marker::Model;

/// A source of bytes in memory, seen as those that are left.
#[derive(Drop)]
pub struct MemorySource {
    bytes: Vec<u8>,
    at: usize,
}

impl Model for MemorySource {
    ghost use Rattle.std.specs.Prelude.{List, ℕ, drop, length, ◌≤◌};

    ghost Value = { List ℕ };

    ghost view = { λ s. drop s.at s.bytes.items };

    ghost invariant = { λ s. s.at ≤ length s.bytes.items };
}

impl MemorySource {
    /// A source that gives these bytes, and then the end.
    pub fn new(bytes: Vec<u8>) -> MemorySource
        ensures { result ≡ bytes.items }
    {
        MemorySource { bytes, at: 0 }
    }

    /// Gives as much as fits of what is left.
    fn give(&mut self, out: &mut [u8]) -> SourceRead
        requires { 0 < length out.old }
        ensures { ReadsLeft self.old self.new out.new result }
    {
        let n = copy_front(&self.bytes[self.at..], out);
        if n == 0 {
            return SourceRead::End;
        }
        self.at += n;
        SourceRead::Got(n)
    }
}

impl Source for MemorySource {
    ghost state = { source_of };

    fn read(&mut self, out: &mut [u8]) -> SourceRead
        requires { 0 < length out.old }
        ensures answer { SourceAnswers (source_of self.old) (source_of self.new) out.new result }
        ensures count { (source_of self.old).faults ≤ (source_of self.new).faults }
        ensures exact { ReadsLeft self.old self.new out.new result }
    {
        self.give(out)
    }
}

/// A sink of bytes in memory, seen as those that were written.
#[derive(Drop)]
pub struct MemorySink {
    bytes: Vec<u8>,
}

impl Model for MemorySink {
    ghost use Rattle.std.specs.Prelude.{List, ℕ};

    ghost Value = { List ℕ };

    ghost view = { λ s. s.bytes.items };
}

impl MemorySink {
    /// A sink to which nothing was written. It takes no memory.
    pub fn new(alloc: Global) -> MemorySink
        ensures { result ≡ [] }
    {
        MemorySink {
            bytes: Vec::new(alloc),
        }
    }

    /// All bytes that were written.
    pub fn written(&self) -> &[u8]
        ensures { result.now ≡ self.now }
    {
        self.bytes.as_slice()
    }
}

impl Sink for MemorySink {
    ghost state = { sink_of };

    fn write(&mut self, bytes: &[u8]) -> SinkWrite
        requires { 0 < length bytes.now }
        ensures answer { SinkAnswers (sink_of self.old) (sink_of self.new) bytes.now result }
        ensures count { (sink_of self.old).faults ≤ (sink_of self.new).faults }
        ensures exact { TakesAll self.old self.new bytes.now result }
    {
        if self.bytes.extend_from_slice(bytes).is_err() {
            return SinkWrite::OutOfMemory;
        }
        SinkWrite::Took(bytes.len())
    }

    fn flush(&mut self) -> SinkFlush
        ensures answer { SinkFlushAnswers (sink_of self.old) (sink_of self.new) result }
        ensures count { (sink_of self.old).faults ≤ (sink_of self.new).faults }
        ensures exact { IsFlushed self.old self.new result }
    {
        SinkFlush::Done
    }
}
