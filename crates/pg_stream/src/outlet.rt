//! The writer of a link, and what it answered.

ghost use Rattle.std.specs.Prelude.{◌≡◌};
ghost use Rattle.std.specs.Io.KnownBytes.{Keeps};
ghost use Rattle.pg_spec.specs.Links.{next_count};
ghost use Rattle.pg_stream.specs.Answers.{Hears, TakesHeard, step_answer, write_answer};

use crate::heard::{Heard, heard_count, heard_flush, step_answer, write_answer};
use pg_wire::{LinkStep, LinkWrite};
use std::io;
use std::io::Write;

/// A writer.
#[derive(Drop)]
pub(crate) struct Outlet<W> {
    pub(crate) writer: W,
    /// How often it was asked to take bytes, and to pass them on.
    pub(crate) writes: u64,
    pub(crate) flushes: u64,
    /// What it answered to the last call.
    pub(crate) heard: Heard,
}

impl<W: Write> Outlet<W> {
    /// A writer that wasn't asked yet.
    pub(crate) fn new(writer: W) -> Outlet<W>
        ensures { result ≡ record { writer = writer; writes = 0; flushes = 0; heard = Heard.Nothing } }
    {
        Outlet {
            writer,
            writes: 0,
            flushes: 0,
            heard: Heard::Nothing,
        }
    }

    /// Writes once.
    fn write(&mut self, bytes: &[u8]) -> io::Result<usize>
        ensures heard { Hears (λ n. n) result self.new.heard }
        ensures writes { self.new.writes ≡ next_count self.old.writes }
        ensures flushes { self.new.flushes ≡ self.old.flushes }
        ensures bytes { TakesHeard (W.contents self.old.writer) (W.contents self.new.writer) self.new.heard bytes.now }
    {
        let answer = self.writer.write(bytes);
        self.heard = heard_count(&answer);
        self.writes = self.writes.saturating_add(1);
        answer
    }

    /// Flushes once.
    fn flush(&mut self) -> io::Result<()>
        ensures heard { Hears (λ _. 0) result self.new.heard }
        ensures writes { self.new.writes ≡ self.old.writes }
        ensures flushes { self.new.flushes ≡ next_count self.old.flushes }
        ensures bytes { Keeps (W.contents self.old.writer) (W.contents self.new.writer) }
    {
        let answer = self.writer.flush();
        self.heard = heard_flush(&answer);
        self.flushes = self.flushes.saturating_add(1);
        answer
    }

    /// What a link's write answers: the writer is asked once.
    pub(crate) fn take(&mut self, bytes: &[u8]) -> LinkWrite
        ensures answer { result ≡ write_answer self.new.heard }
        ensures once { self.new.writes ≡ next_count self.old.writes }
        ensures flushes { self.new.flushes ≡ self.old.flushes }
        ensures bytes { TakesHeard (W.contents self.old.writer) (W.contents self.new.writer) self.new.heard bytes.now }
    {
        // What was answered is heard.
        let _ = self.write(bytes);
        write_answer(self.heard)
    }

    /// What a link's flush answers: the writer is flushed once.
    pub(crate) fn pass_on(&mut self) -> LinkStep
        ensures answer { result ≡ step_answer self.new.heard }
        ensures once { self.new.flushes ≡ next_count self.old.flushes }
        ensures writes { self.new.writes ≡ self.old.writes }
        ensures bytes { Keeps (W.contents self.old.writer) (W.contents self.new.writer) }
    {
        // What was answered is heard.
        let _ = self.flush();
        step_answer(self.heard)
    }
}
