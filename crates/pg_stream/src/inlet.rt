//! The reader of a link, and what it answered.

ghost use Rattle.std.specs.Prelude.{◌≡◌, ◌<◌, true, false, [], length};
ghost use Rattle.std.specs.Option.{ForSome};
ghost use Rattle.pg_spec.specs.Links.{next_count};

use crate::heard::{Heard, heard_count, is_end};
use std::io;
use std::io::Read;

/// How many reads a wait makes at most: an interrupted one is made again, sixteen times at most.
const READS: u32 = 17;

/// A reader. Nothing is read behind its end.
#[derive(Drop)]
pub(crate) struct Inlet<R: Read> {
    pub(crate) reader: R,
    pub(crate) over: bool,
    /// How many reads the last wait made, and how many of them were interrupted.
    asked: u64,
    interrupted: u64,
    /// What the last read answered.
    pub(crate) heard: Heard,
    ghost ended: { over ≡ true → ForSome (R.remaining reader) (λ left. left ≡ []) },
}

impl<R: Read> Inlet<R> {
    ghost use Rattle.pg_stream.specs.Answers.{GivesHeard, Hears, IsSettled, interrupted_by, is_end};

    /// A reader that wasn't asked yet.
    pub(crate) fn new(reader: R) -> Inlet<R>
        ensures reader { result.reader ≡ reader }
        ensures over { result.over ≡ false }
    {
        Inlet {
            reader,
            over: false,
            asked: 0,
            interrupted: 0,
            heard: Heard::Nothing,
        }
    }

    /// Reads once.
    fn read(&mut self, out: &mut [u8]) -> io::Result<usize>
        requires open { self.old.over ≡ false }
        requires room { 0 < length out.old }
        ensures heard { Hears (λ n. n) result self.new.heard }
        ensures asked { self.new.asked ≡ next_count self.old.asked }
        ensures interrupted { self.new.interrupted ≡ interrupted_by self.new.heard self.old.interrupted }
        ensures over { self.new.over ≡ is_end self.new.heard }
        ensures bytes { GivesHeard (R.remaining self.old.reader) (R.remaining self.new.reader) self.new.heard out.new }
    {
        let answer = self.reader.read(out);
        self.heard = heard_count(&answer);
        self.asked = self.asked.saturating_add(1);
        if matches!(self.heard, Heard::Interrupted) {
            self.interrupted = self.interrupted.saturating_add(1);
        }
        self.over = is_end(self.heard);
        answer
    }

    /// Reads for a wait, and again behind each interruption, sixteen times at most.
    pub(crate) fn read_for_wait(&mut self, out: &mut [u8])
        requires open { self.old.over ≡ false }
        requires room { 0 < length out.old }
        ensures settled { IsSettled self.new.asked self.new.interrupted self.new.heard }
        ensures over { self.new.over ≡ is_end self.new.heard }
        ensures bytes { GivesHeard (R.remaining self.old.reader) (R.remaining self.new.reader) self.new.heard out.new }
    {
        self.asked = 0;
        self.interrupted = 0;
        for _ in 0..READS {
            // What it answered is heard.
            let _ = self.read(out);
            if !matches!(self.heard, Heard::Interrupted) {
                return;
            }
        }
    }
}
