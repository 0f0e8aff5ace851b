//! A link over a reader and a writer.

ghost use Rattle.std.specs.Prelude.{◌≡◌, ◌<◌, ◌↔◌, IfOk, length, true, false};
ghost use Rattle.std.specs.Io.KnownBytes.{Keeps as KeepsBytes};
ghost use Rattle.pg_wire.specs.LinkCalls.{Keeps, KeepsPromise, ReadAnswers, WriteAnswers, FlushAnswers, ShutdownAnswers, WaitAnswers, gave, took};
ghost use Rattle.pg_stream.specs.Streams.{GivesAhead, GivesLeft, IsFresh, PassesOn, Reads, TakesAll, Waits, Writes, is_ready, left_in, view_of, written_in};
ghost use Rattle.pg_stream.specs.Tallies.{after_flush, after_shutdown};

use crate::ahead::Ahead;
use crate::inlet::Inlet;
use crate::outlet::Outlet;
use crate::tally::Tally;
use pg_types::OutOfMemory;
use pg_wire::{Link, LinkRead, LinkStep, LinkWait, LinkWrite};
use std::alloc::Global;
use std::io::{Read, Write};

/// A link whose bytes from the server come from a reader, and whose bytes to the server go to a writer. It tells no
/// bytes. Only `wait` asks the reader, and only where no bytes are held.
#[derive(Drop)]
pub struct StreamLink<R: Read, W> {
    input: Inlet<R>,
    output: Outlet<W>,
    ahead: Ahead,
    tally: Tally,
}

impl<R: Read, W: Write> StreamLink<R, W> {
    /// A link over this reader and this writer. It takes a buffer of 8,192 bytes; where memory lacks, both are dropped.
    pub fn new(alloc: Global, input: R, output: W) -> Result<StreamLink<R, W>, OutOfMemory>
    where
        R: Drop,
        W: Drop,
        ensures fresh { IfOk result (IsFresh input output) }
    {
        let ahead = Ahead::new(alloc)?;
        Ok(StreamLink {
            input: Inlet::new(input),
            output: Outlet::new(output),
            ahead,
            tally: Tally::new(),
        })
    }
}

/// Gives a front of what is held. Where nothing is, it is the end or isn't ready.
fn give(ahead: &mut Ahead, over: bool, out: &mut [u8]) -> LinkRead
    requires { 0 < length out.old }
    ensures { GivesAhead over ahead.old ahead.new out.new result }
{
    let n = ahead.give(out);
    if n > 0 {
        return LinkRead::Got(n);
    }
    if over {
        return LinkRead::End;
    }
    LinkRead::NotReady
}

impl<R: Read, W: Write> Link for StreamLink<R, W> {
    ghost view = { view_of };

    /// Gives what is held.
    fn read(&mut self, out: &mut [u8]) -> LinkRead
        requires { 0 < length out.old }
        ensures answer { ReadAnswers (view_of self.old) (view_of self.new) out.new result }
        ensures keeps { Keeps (view_of self.old) (view_of self.new) }
        ensures promise { KeepsPromise (view_of self.old) (view_of self.new) (gave result) }
        ensures exact { Reads self.old self.new out.new result }
        ensures bytes { GivesLeft (left_in self.old) (left_in self.new) out.new result }
    {
        let answer = give(&mut self.ahead, self.input.over, out);
        self.tally = self.tally.after_read(answer);
        answer
    }

    /// Writes once. A writer that takes nothing failed.
    fn write(&mut self, bytes: &[u8]) -> LinkWrite
        requires { 0 < length bytes.now }
        ensures answer { WriteAnswers (view_of self.old) (view_of self.new) bytes.now result }
        ensures keeps { Keeps (view_of self.old) (view_of self.new) }
        ensures promise { KeepsPromise (view_of self.old) (view_of self.new) (took result) }
        ensures exact { Writes W.contents self.old self.new bytes.now result }
        ensures bytes { TakesAll (written_in W.contents self.old) (written_in W.contents self.new) bytes.now result }
    {
        let answer = self.output.take(bytes);
        self.tally = self.tally.after_write(answer);
        answer
    }

    /// Flushes once.
    fn flush(&mut self) -> LinkStep
        ensures answer { FlushAnswers (view_of self.old) (view_of self.new) result }
        ensures keeps { Keeps (view_of self.old) (view_of self.new) }
        ensures promise { KeepsPromise (view_of self.old) (view_of self.new) false }
        ensures exact { PassesOn W.contents after_flush self.old self.new result }
    {
        let answer = self.output.pass_on();
        self.tally = self.tally.after_flush(answer);
        answer
    }

    /// Flushes once. What closes the writer is its own drop.
    fn shutdown(&mut self) -> LinkStep
        ensures answer { ShutdownAnswers (view_of self.old) (view_of self.new) result }
        ensures keeps { Keeps (view_of self.old) (view_of self.new) }
        ensures promise { KeepsPromise (view_of self.old) (view_of self.new) false }
        ensures exact { PassesOn W.contents after_shutdown self.old self.new result }
    {
        let flushed = self.output.pass_on();
        self.tally = self.tally.after_shutdown(flushed);
        flushed
    }

    /// Reads where neither bytes nor the end are there. An interrupted read is made again, sixteen times at most.
    fn wait(&mut self) -> LinkWait
        ensures answer { WaitAnswers (view_of self.old) (view_of self.new) result }
        ensures keeps { Keeps (view_of self.old) (view_of self.new) }
        ensures exact { Waits self.old self.new result }
        ensures ready { (result ≡ LinkWait.Ready) ↔ (is_ready self.new ≡ true) }
        ensures bytes { KeepsBytes (left_in self.old) (left_in self.new) }
    {
        let mut answer = LinkWait::Ready;
        if !self.input.over && self.ahead.is_empty() {
            answer = self.ahead.fill(&mut self.input);
        }
        self.tally = self.tally.after_wait(answer);
        answer
    }

    fn quiet(&self) -> u64 {
        self.tally.quiet
    }

    ghost use Rattle.pg_stream.specs.Streams.{tells as tells_all};

    ghost tells = { tells_all };
}
