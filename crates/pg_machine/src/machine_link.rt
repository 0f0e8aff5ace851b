//! A link to a machine.

ghost use Rattle.std.specs.Prelude.{◌≡◌, ◌<◌, length, take, min, false};
ghost use Rattle.pg_wire.specs.LinkCalls.{Keeps, KeepsPromise, ReadAnswers, WriteAnswers, FlushAnswers, ShutdownAnswers, WaitAnswers, IsInCourse, gave, took};
ghost use Rattle.pg_machine.specs.Machines.{IsMachine};
ghost use Rattle.pg_machine.specs.MachineLinks.{Reads, TakesUp, PassesOn, EndsWriting, Waits, KeepsItsPromise, link_of, new_link};

use crate::feeding::Fed;
use crate::machine::Machine;
use pg_types::Blob;
use pg_wire::{Link, LinkRead, LinkStep, LinkWait, LinkWrite};
use std::alloc::Global;
use std::marker::Model;

/// A link to a machine. It gives the startup once the startup frame was taken, and then the machine's replies to
/// the frames taken. It keeps all bytes that it took and gave.
#[derive(Drop)]
pub struct MachineLink {
    machine: Machine,
    startup: Blob,
    cut: usize,
    room: usize,
    taken: Vec<u8>,
    fed: Option<Fed>,
    said: Vec<u8>,
    gave: usize,
    promised: bool,
    flushed: bool,
    shut: bool,
    quiet: u64,
    dry: u64,
    lulls: u64,
}

impl Model for MachineLink {
    ghost use Rattle.pg_machine.specs.MachineLinks.{Served};

    ghost Value = { Served };

    ghost use Rattle.pg_machine.specs.MachineLinks.{served_of, HoldsServed};

    ghost view = { served_of };

    ghost invariant = { HoldsServed };
}

impl MachineLink {
    /// A link to this machine, which gives at most `cut` bytes a read and takes at most `room` bytes a write. It takes
    /// no memory.
    pub fn new(
        alloc: Global,
        machine: Machine,
        startup: Blob,
        cut: usize,
        room: usize,
    ) -> MachineLink
        requires cut { 0 < cut }
        requires room { 0 < room }
        ensures { result ≡ new_link machine startup cut room }
    {
        MachineLink {
            machine,
            startup,
            cut,
            room,
            taken: Vec::new(alloc),
            fed: None,
            said: Vec::new(alloc),
            gave: 0,
            promised: false,
            flushed: false,
            shut: false,
            quiet: 0,
            dry: 0,
            lulls: 0,
        }
    }

    /// A law, which does nothing when it runs: what was given and what is due is all that it gives, by the bytes taken.
    pub fn course_law(&self)
        ensures { IsInCourse (link_of self.now) }
    {
        let _ = &self.said;
    }

    /// A law, which does nothing when it runs: its table keeps the rules.
    pub fn rules_law(&self)
        ensures { IsMachine self.now.table }
    {
        self.machine.rules_law();
    }
}

/// Copies as much as fits. How many bytes that were.
fn copy_front(from: &[u8], out: &mut [u8]) -> usize
    ensures count { result ≡ min (length from.now) (length out.old) }
    ensures front { take result out.new ≡ take result from.now }
{
    let n = from.len().min(out.len());
    out[..n].copy_from_slice(&from[..n]);
    n
}

impl MachineLink {
    /// Gives a front of what is due.
    fn give(&mut self, out: &mut [u8]) -> LinkRead
        requires { 0 < length out.old }
        ensures exact { Reads self.old self.new out.new result }
        ensures kept { KeepsItsPromise self.old }
    {
        let limit = self.cut.min(out.len());
        let n = copy_front(&self.said[self.gave..], &mut out[..limit]);
        if n > 0 {
            self.promised = false;
            self.gave += n;
            return LinkRead::Got(n);
        }
        self.quiet = self.quiet.saturating_add(1);
        self.dry = self.dry.saturating_add(1);
        LinkRead::NotReady
    }

    /// Takes a front of the bytes, and answers the frames that are whole by them. Where memory lacks all is as before.
    fn take_up(&mut self, bytes: &[u8]) -> LinkWrite
        requires { 0 < length bytes.now }
        ensures exact { TakesUp self.old self.new bytes.now result }
        ensures course { IsInCourse (link_of self.new) }
        ensures room { 0 < self.old.room }
    {
        let n = self.room.min(bytes.len());
        let taken = self.taken.len();
        let said = self.said.len();
        if self.taken.extend_from_slice(&bytes[..n]).is_err() {
            return LinkWrite::OutOfMemory;
        }
        match self.machine.go_on(
            self.startup.as_slice(),
            self.taken.as_slice(),
            taken,
            self.fed,
            &mut self.said,
        ) {
            Ok(fed) => {
                self.fed = fed;
                self.promised = false;
                self.flushed = false;
                LinkWrite::Took(n)
            }
            Err(_) => {
                self.taken.truncate(taken);
                self.said.truncate(said);
                LinkWrite::OutOfMemory
            }
        }
    }
}

impl Link for MachineLink {
    ghost view = { link_of };

    fn read(&mut self, out: &mut [u8]) -> LinkRead
        requires { 0 < length out.old }
        ensures answer { ReadAnswers (link_of self.old) (link_of self.new) out.new result }
        ensures keeps { Keeps (link_of self.old) (link_of self.new) }
        ensures promise { KeepsPromise (link_of self.old) (link_of self.new) (gave result) }
        ensures exact { Reads self.old self.new out.new result }
    {
        self.give(out)
    }

    fn write(&mut self, bytes: &[u8]) -> LinkWrite
        requires { 0 < length bytes.now }
        ensures answer { WriteAnswers (link_of self.old) (link_of self.new) bytes.now result }
        ensures keeps { Keeps (link_of self.old) (link_of self.new) }
        ensures promise { KeepsPromise (link_of self.old) (link_of self.new) (took result) }
        ensures exact { TakesUp self.old self.new bytes.now result }
    {
        self.take_up(bytes)
    }

    fn flush(&mut self) -> LinkStep
        ensures answer { FlushAnswers (link_of self.old) (link_of self.new) result }
        ensures keeps { Keeps (link_of self.old) (link_of self.new) }
        ensures promise { KeepsPromise (link_of self.old) (link_of self.new) false }
        ensures exact { PassesOn self.old self.new result }
    {
        self.flushed = true;
        LinkStep::Done
    }

    fn shutdown(&mut self) -> LinkStep
        ensures answer { ShutdownAnswers (link_of self.old) (link_of self.new) result }
        ensures keeps { Keeps (link_of self.old) (link_of self.new) }
        ensures promise { KeepsPromise (link_of self.old) (link_of self.new) false }
        ensures exact { EndsWriting self.old self.new result }
    {
        self.shut = true;
        LinkStep::Done
    }

    fn wait(&mut self) -> LinkWait
        ensures answer { WaitAnswers (link_of self.old) (link_of self.new) result }
        ensures keeps { Keeps (link_of self.old) (link_of self.new) }
        ensures exact { Waits self.old self.new result }
    {
        if self.gave < self.said.len() {
            self.promised = true;
            return LinkWait::Ready;
        }
        self.quiet = self.quiet.saturating_add(1);
        self.lulls = self.lulls.saturating_add(1);
        LinkWait::Idle
    }

    fn quiet(&self) -> u64 {
        self.quiet
    }

    ghost use Rattle.pg_machine.specs.MachineLinks.{tells as tells_all};

    ghost tells = { tells_all };
}
