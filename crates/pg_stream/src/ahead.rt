//! The bytes that a link has read and not given yet.

ghost use Rattle.std.specs.Prelude.{◌≡◌, ◌<◌, [], length, min, take, drop, false, IfOk};

use crate::heard::{Heard, wait_answer};
use crate::inlet::Inlet;
use pg_types::OutOfMemory;
use pg_wire::LinkWait;
use std::alloc::Global;
use std::io::Read;
use std::marker::Model;

/// How many bytes are held at most.
const ROOM: usize = 8_192;

/// Bytes in a buffer of fixed size.
#[derive(Drop)]
pub(crate) struct Ahead {
    buffer: Vec<u8>,
    start: usize,
    end: usize,
}

impl Model for Ahead {
    ghost use Rattle.std.specs.Prelude.{ℕ, List};
    ghost use Rattle.pg_stream.specs.Aheads.{ahead_of, IsAhead};

    ghost Value = { List ℕ };

    ghost view = { ahead_of };

    ghost invariant = { IsAhead };
}

impl Ahead {
    ghost use Rattle.pg_spec.specs.Batches.{is_nothing};
    ghost use Rattle.pg_stream.specs.Answers.{HoldsHeard, IsSettled, is_end, wait_answer};

    /// None, in a buffer taken here.
    pub(crate) fn new(alloc: Global) -> Result<Ahead, OutOfMemory>
        ensures { IfOk result (λ ahead. ahead ≡ []) }
    {
        let mut buffer = Vec::with_capacity(alloc, ROOM)?;
        buffer.resize(ROOM, 0)?;
        Ok(Ahead {
            buffer,
            start: 0,
            end: 0,
        })
    }

    /// Gives a front of the bytes, as much as fits.
    pub(crate) fn give(&mut self, out: &mut [u8]) -> usize
        ensures count { result ≡ min (length self.old) (length out.old) }
        ensures front { take result out.new ≡ take result self.old }
        ensures rest { self.new ≡ drop result self.old }
    {
        let n = (self.end - self.start).min(out.len());
        let (from, to) = (self.start, self.start + n);
        out[..n].copy_from_slice(&self.buffer[from..to]);
        self.start = to;
        n
    }

    /// Whether there are none.
    pub(crate) fn is_empty(&self) -> bool
        ensures { result ≡ is_nothing self.now }
    {
        self.start == self.end
    }

    /// Reads into the empty buffer, and again behind each interruption. What a wait answers by it.
    pub(crate) fn fill<R: Read>(&mut self, input: &mut Inlet<R>) -> LinkWait
        requires empty { self.old ≡ [] }
        requires open { input.old.over ≡ false }
        ensures answer { result ≡ wait_answer input.new.heard }
        ensures settled { IsSettled input.new.asked input.new.interrupted input.new.heard }
        ensures over { input.new.over ≡ is_end input.new.heard }
        ensures bytes { HoldsHeard (R.remaining input.old.reader) (R.remaining input.new.reader) input.new.heard self.new }
    {
        self.start = 0;
        self.end = 0;
        input.read_for_wait(self.buffer.as_mut_slice());
        if let Heard::Done(n) = input.heard {
            self.end = n;
        }
        wait_answer(input.heard)
    }
}
