//! The first bytes of what a sink took.

ghost use Rattle.std.specs.Prelude.{◌≡◌, ◌≤◌, ◌<◌, [], length, take, ◌++◌};
ghost use Rattle.pg_diagnostics.specs.Fronts.{Keeps};
ghost use Rattle.pg_wire.specs.Streams.{SinkAnswers, SinkFlushAnswers};

use pg_wire::{Sink, SinkFlush, SinkWrite};
use std::marker::Model;

/// How many bytes a head has at most.
const ROOM: usize = 32;

/// The first bytes of a text, 32 at most.
#[derive(Drop)]
pub(crate) struct Head {
    bytes: [u8; ROOM],
    len: usize,
}

impl Model for Head {
    ghost use Rattle.std.specs.Prelude.{List, ℕ, take, ◌≤◌};

    ghost Value = { List ℕ };

    ghost view = { λ h. take h.len h.bytes };

    ghost invariant = { λ h. h.len ≤ 32 };
}

impl Head {
    /// Of no text yet.
    fn new() -> Head
        ensures { result ≡ [] }
    {
        Head {
            bytes: [0; ROOM],
            len: 0,
        }
    }

    /// The text goes on by this piece.
    fn add(&mut self, piece: &[u8])
        ensures { self.new ≡ take 32 (self.old ++ piece.now) }
    {
        let n = (ROOM - self.len).min(piece.len());
        let (from, to) = (self.len, self.len + n);
        self.bytes[from..to].copy_from_slice(&piece[..n]);
        self.len = to;
    }

    /// The bytes.
    fn bytes(&self) -> &[u8]
        ensures { result.now ≡ self.now }
    {
        &self.bytes[..self.len]
    }
}

/// A sink that keeps the first bytes that it took, 32 at most, round another one. Each call is the call of the sink inside.
#[derive(Drop)]
pub struct Front<K> {
    sink: K,
    head: Head,
}

impl<K: Sink> Front<K> {
    /// Keeps what this sink takes from here on.
    pub fn new(sink: K) -> Front<K>
        ensures sink { result.sink ≡ sink }
        ensures head { result.head ≡ [] }
    {
        Front {
            sink,
            head: Head::new(),
        }
    }

    /// The first bytes that it took.
    pub fn head(&self) -> &[u8]
        ensures { result.now ≡ self.now.head }
    {
        self.head.bytes()
    }
}

impl<K: Sink> Sink for Front<K> {
    ghost state = { λ front. K.state front.sink };

    /// What was taken is kept.
    fn write(&mut self, bytes: &[u8]) -> SinkWrite
        requires { 0 < length bytes.now }
        ensures answer { SinkAnswers (K.state self.old.sink) (K.state self.new.sink) bytes.now result }
        ensures count { (K.state self.old.sink).faults ≤ (K.state self.new.sink).faults }
        ensures keeps { Keeps self.old.head self.new.head bytes.now result }
    {
        let answer = self.sink.write(bytes);
        if let SinkWrite::Took(n) = answer {
            self.head.add(&bytes[..n]);
        }
        answer
    }

    fn flush(&mut self) -> SinkFlush
        ensures answer { SinkFlushAnswers (K.state self.old.sink) (K.state self.new.sink) result }
        ensures count { (K.state self.old.sink).faults ≤ (K.state self.new.sink).faults }
        ensures keeps { self.new.head ≡ self.old.head }
    {
        self.sink.flush()
    }
}
