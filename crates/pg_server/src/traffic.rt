//! What crosses a link to a server.

ghost use Rattle.std.specs.Prelude.{◌≡◌, ◌+◌, ◌<◌, ◌≤◌, ◌++◌, ◌||◌, [], length, take, drop, nat_lt, true, false, OnOk, OnErr};
ghost use Rattle.pg_server.specs.Answers.{answer_bytes};
ghost use Rattle.pg_server.specs.ByteLists.{are_bytes};
ghost use Rattle.pg_server.specs.Copies.{Copied};

use crate::answer::{Answer, put, ready};
use crate::copies::copy_more;
use bytes::BytesMut;
use pg_types::{Blob, OutOfMemory};
use pg_wire::{LinkRead, LinkWait};
use std::alloc::Global;

/// The bytes that a link took and what is said to them, of which a front was given; and its counts.
#[derive(Drop)]
pub(crate) struct Traffic {
    alloc: Global,
    cut: usize,
    room: usize,
    taken: BytesMut,
    /// All that was said, but for the last answer.
    said: BytesMut,
    last: Answer,
    /// How many bytes of `said`, and then of the last answer, were given.
    gave: usize,
    over: usize,
    promised: bool,
    flushed: bool,
    shut: bool,
    faults: u64,
    quiet: u64,
    dry: u64,
    lulls: u64,
    ghost bytes: { are_bytes taken.items ≡ true },
    ghost within: { gave ≤ length said.items },
    ghost within_last: { over ≤ length (answer_bytes last) },
    ghost in_order: { gave < length said.items → over ≡ 0 },
    ghost promise: { promised ≡ true → gave + over < length said.items + length (answer_bytes last) },
    ghost cuts: { 0 < cut },
    ghost takes: { 0 < room },
}

impl Traffic {
    ghost use Rattle.pg_server.specs.Crossings.{Reads, Waits, KeepsItsPromise, crossed_of, due_of, untouched, took_less, failed};

    /// Nothing crossed it. It gives at most `cut` bytes a read and takes at most `room` bytes a write.
    pub fn new(alloc: Global, cut: usize, room: usize) -> Traffic
        requires cut { 0 < cut }
        requires room { 0 < room }
        ensures { crossed_of result ≡ untouched cut room }
    {
        Traffic {
            alloc,
            cut,
            room,
            taken: BytesMut::new(alloc),
            said: BytesMut::new(alloc),
            last: Answer {
                reply: Blob::new(Vec::new(alloc)),
                ready: false,
            },
            gave: 0,
            over: 0,
            promised: false,
            flushed: false,
            shut: false,
            faults: 0,
            quiet: 0,
            dry: 0,
            lulls: 0,
        }
    }

    /// How many bytes a write takes, at most.
    pub fn room(&self) -> usize
        ensures room { result ≡ (crossed_of self.now).room }
        ensures some { 0 < result }
    {
        self.room
    }

    /// How often a call wasn't ready.
    pub fn quiet(&self) -> u64
        ensures { result ≡ (crossed_of self.now).quiet }
    {
        self.quiet
    }

    /// How many bytes the last answer has.
    fn last_len(&self) -> usize
        ensures { result ≡ length (answer_bytes self.now.last) }
    {
        self.last.reply.as_slice().len() + ready(self.last.ready).len()
    }

    /// Copies a front of what is due, as much as fits. How many bytes that were.
    fn copy_due(&self, out: &mut [u8]) -> usize
        ensures { Copied (due_of self.now) out.new result }
    {
        let reply = self.last.reply.as_slice();
        let skip = self.over.min(reply.len());
        let n = copy_more(&self.said.as_slice()[self.gave..], 0, out);
        let n = copy_more(&reply[skip..], n, out);
        copy_more(&ready(self.last.ready)[self.over - skip..], n, out)
    }

    /// Goes past bytes of what is due.
    fn pass(&mut self, n: usize)
        requires { n ≤ length (due_of self.old) }
        ensures { crossed_of self.new ≡ record (crossed_of self.old) {
          given = (crossed_of self.old).given ++ take n (due_of self.old);
          due = drop n (due_of self.old);
          promised = false;
        } }
    {
        let first = n.min(self.said.len() - self.gave);
        let last = self.last_len();
        self.gave += first;
        self.over = last.min(self.over + (n - first));
        self.promised = false;
    }

    /// Gives a front of what is due.
    pub fn give(&mut self, out: &mut [u8]) -> LinkRead
        requires { 0 < length out.old }
        ensures exact { Reads (crossed_of self.old) (crossed_of self.new) out.new result }
        ensures kept { KeepsItsPromise (crossed_of self.old) }
    {
        let limit = self.cut.min(out.len());
        let n = self.copy_due(&mut out[..limit]);
        if n > 0 {
            self.pass(n);
            return LinkRead::Got(n);
        }
        self.quiet = self.quiet.saturating_add(1);
        self.dry = self.dry.saturating_add(1);
        LinkRead::NotReady
    }

    /// Bytes are due.
    fn has_due(&self) -> bool
        ensures { result ≡ (nat_lt self.now.gave (length self.now.said.items) || nat_lt self.now.over (length (answer_bytes self.now.last))) }
    {
        self.gave < self.said.len() || self.over < self.last_len()
    }

    /// Promises bytes where some are due.
    pub fn wait(&mut self) -> LinkWait
        ensures { Waits (crossed_of self.old) (crossed_of self.new) result }
    {
        if self.has_due() {
            self.promised = true;
            return LinkWait::Ready;
        }
        self.quiet = self.quiet.saturating_add(1);
        self.lulls = self.lulls.saturating_add(1);
        LinkWait::Idle
    }

    /// Puts the last answer behind what was said before. Where memory lacks all is as before.
    fn settle(&mut self) -> Result<(), OutOfMemory>
        ensures same { crossed_of self.new ≡ crossed_of self.old }
        ensures empty { OnOk result (answer_bytes self.new.last ≡ []) }
    {
        if put(&self.last, &mut self.said).is_err() {
            return Err(OutOfMemory);
        }
        let len = self.said.len();
        self.gave = len.min(self.gave + self.over);
        self.over = 0;
        self.last = Answer {
            reply: Blob::new(Vec::new(self.alloc)),
            ready: false,
        };
        Ok(())
    }

    /// Takes bytes, to which nothing is said yet. Where memory lacks all is as before.
    pub fn offer(&mut self, bytes: &[u8]) -> Result<(), OutOfMemory>
        ensures took { OnOk result (crossed_of self.new ≡ record (crossed_of self.old) { taken = (crossed_of self.old).taken ++ bytes.now }) }
        ensures empty { OnOk result (answer_bytes self.new.last ≡ []) }
        ensures same { OnErr result (crossed_of self.new ≡ crossed_of self.old) }
    {
        if self.settle().is_err() || self.taken.extend_from_slice(bytes).is_err() {
            return Err(OutOfMemory);
        }
        Ok(())
    }

    /// Takes fewer bytes: the last `n` aren't taken.
    pub fn take_back(&mut self, n: usize)
        requires { n ≤ length (crossed_of self.old).taken }
        ensures crossed { crossed_of self.new ≡ took_less (crossed_of self.old) n }
        ensures last { self.new.last ≡ self.old.last }
    {
        let len = self.taken.len() - n;
        self.taken.truncate(len);
    }

    /// Bytes were taken: nothing is promised, and they weren't passed on.
    pub fn move_on(&mut self)
        ensures crossed { crossed_of self.new ≡ record (crossed_of self.old) { promised = false; flushed = false } }
        ensures last { self.new.last ≡ self.old.last }
    {
        self.promised = false;
        self.flushed = false;
    }

    /// This is to be given, behind all that is due.
    pub fn say(&mut self, answer: Answer)
        requires { answer_bytes self.old.last ≡ [] }
        ensures { crossed_of self.new ≡ record (crossed_of self.old) { due = (crossed_of self.old).due ++ answer_bytes answer; promised = false } }
    {
        self.promised = false;
        self.last = answer;
    }

    /// A call failed.
    pub fn fail(&mut self)
        ensures { crossed_of self.new ≡ failed (crossed_of self.old) }
    {
        self.faults = self.faults.saturating_add(1);
    }

    /// What was taken is passed on.
    pub fn flush(&mut self)
        ensures { crossed_of self.new ≡ record (crossed_of self.old) { flushed = true } }
    {
        self.flushed = true;
    }

    /// The writing side is ended.
    pub fn shut(&mut self)
        ensures { crossed_of self.new ≡ record (crossed_of self.old) { shut = true } }
    {
        self.shut = true;
    }
}
