//! A link in memory, whose course is known.

ghost use Rattle.std.specs.Prelude.{◌≡◌, ◌<◌, ◌≤◌, [], length, false};
ghost use Rattle.pg_wire.specs.LinkCalls.{Keeps, KeepsPromise, ReadAnswers, WriteAnswers, FlushAnswers, ShutdownAnswers, WaitAnswers, gave, took};
ghost use Rattle.pg_wire.specs.Memory.{Reads, TakesUp, PassesOn, EndsWriting, Waits, KeepsItsPromise, link_of};
ghost use Rattle.pg_wire.specs.Giving.{lists};

use crate::giving::Giving;
use crate::link::{Link, LinkRead, LinkStep, LinkWait, LinkWrite};
use crate::turning::Turning;
use std::alloc::Global;
use std::marker::Model;

/// A link that gives what it was made with. Entry i of its plan may be given once i + 1 frames that give
/// the turn were taken whole.
#[derive(Drop)]
pub struct MemoryLink {
    giving: Giving,
    ends: bool,
    cut: usize,
    room: usize,
    taken: Vec<u8>,
    turning: Turning,
    promised: bool,
    flushed: bool,
    shut: bool,
    quiet: u64,
    dry: u64,
    lulls: u64,
    ended: u64,
}

impl Model for MemoryLink {
    ghost use Rattle.pg_wire.specs.Memory.{Memory};

    ghost Value = { Memory };

    ghost use Rattle.pg_wire.specs.MemoryLinks.{memory_of, IsMemory};

    ghost view = { memory_of };

    ghost invariant = { IsMemory };
}

impl MemoryLink {
    /// A link that gives this plan, at most `cut` bytes a read, and takes at most `room` bytes a write.
    /// Behind the last entry it ends, if `end` is set. It takes no memory.
    pub fn new(alloc: Global, plan: Vec<Vec<u8>>, cut: usize, room: usize, end: bool) -> MemoryLink
        requires cut { 0 < cut }
        requires room { 0 < room }
        ensures { result ≡ record {
          entries = lists plan.items;
          ends = end;
          cut = cut;
          room = room;
          given = [];
          taken = [];
          promised = false;
          flushed = false;
          shut = false;
          quiet = 0;
          dry = 0;
          lulls = 0;
          ended = 0;
        } }
    {
        MemoryLink {
            giving: Giving::new(plan),
            ends: end,
            cut,
            room,
            taken: Vec::new(alloc),
            turning: Turning::new(),
            promised: false,
            flushed: false,
            shut: false,
            quiet: 0,
            dry: 0,
            lulls: 0,
            ended: 0,
        }
    }

    /// All bytes that were taken.
    pub fn taken(&self) -> &[u8]
        ensures { result.now ≡ self.now.taken }
    {
        self.taken.as_slice()
    }
}

impl MemoryLink {
    /// Gives a front of what is due, or the end.
    fn give(&mut self, out: &mut [u8]) -> LinkRead
        requires { 0 < length out.old }
        ensures exact { Reads self.old self.new out.new result }
        ensures kept { KeepsItsPromise self.old }
    {
        let limit = self.cut.min(out.len());
        let n = self.giving.give(self.turning.turns, &mut out[..limit]);
        if n > 0 {
            self.promised = false;
            return LinkRead::Got(n);
        }
        if self.ends && self.giving.is_over() {
            self.ended = self.ended.saturating_add(1);
            return LinkRead::End;
        }
        self.quiet = self.quiet.saturating_add(1);
        self.dry = self.dry.saturating_add(1);
        LinkRead::NotReady
    }
}

impl Link for MemoryLink {
    ghost view = { link_of };

    fn read(&mut self, out: &mut [u8]) -> LinkRead
        requires { 0 < length out.old }
        ensures answer { ReadAnswers (link_of self.old) (link_of self.new) out.new result }
        ensures keeps { Keeps (link_of self.old) (link_of self.new) }
        ensures promise { KeepsPromise (link_of self.old) (link_of self.new) (gave result) }
        ensures exact { Reads self.old self.new out.new result }
    {
        self.give(out)
    }

    fn write(&mut self, bytes: &[u8]) -> LinkWrite
        requires { 0 < length bytes.now }
        ensures answer { WriteAnswers (link_of self.old) (link_of self.new) bytes.now result }
        ensures keeps { Keeps (link_of self.old) (link_of self.new) }
        ensures promise { KeepsPromise (link_of self.old) (link_of self.new) (took result) }
        ensures exact { TakesUp self.old self.new bytes.now result }
    {
        let n = self.room.min(bytes.len());
        if self.taken.extend_from_slice(&bytes[..n]).is_err() {
            return LinkWrite::OutOfMemory;
        }
        self.turning = self.turning.advance(&self.taken);
        self.promised = false;
        self.flushed = false;
        LinkWrite::Took(n)
    }

    fn flush(&mut self) -> LinkStep
        ensures answer { FlushAnswers (link_of self.old) (link_of self.new) result }
        ensures keeps { Keeps (link_of self.old) (link_of self.new) }
        ensures promise { KeepsPromise (link_of self.old) (link_of self.new) false }
        ensures exact { PassesOn self.old self.new result }
    {
        self.flushed = true;
        LinkStep::Done
    }

    fn shutdown(&mut self) -> LinkStep
        ensures answer { ShutdownAnswers (link_of self.old) (link_of self.new) result }
        ensures keeps { Keeps (link_of self.old) (link_of self.new) }
        ensures promise { KeepsPromise (link_of self.old) (link_of self.new) false }
        ensures exact { EndsWriting self.old self.new result }
    {
        self.shut = true;
        LinkStep::Done
    }

    fn wait(&mut self) -> LinkWait
        ensures answer { WaitAnswers (link_of self.old) (link_of self.new) result }
        ensures keeps { Keeps (link_of self.old) (link_of self.new) }
        ensures exact { Waits self.old self.new result }
    {
        let has_due = self.giving.has_due(self.turning.turns);
        if has_due || (self.ends && self.giving.is_over()) {
            self.promised = true;
            return LinkWait::Ready;
        }
        self.quiet = self.quiet.saturating_add(1);
        self.lulls = self.lulls.saturating_add(1);
        LinkWait::Idle
    }

    fn quiet(&self) -> u64 {
        self.quiet
    }

    ghost use Rattle.pg_wire.specs.Memory.{tells as tells_all};

    ghost tells = { tells_all };
}
