//! A link to a server.
//! What it does at a fault follows from the bytes taken alone: of these a session's contract tells, and not of what
//! was offered.

ghost use Rattle.std.specs.Prelude.{◌≡◌, ◌<◌, ◌≤◌, length, false, true, None, option_map};
ghost use Rattle.pg_wire.specs.LinkCalls.{Keeps, KeepsPromise, ReadAnswers, WriteAnswers, FlushAnswers, ShutdownAnswers, WaitAnswers, IsInCourse, gave, took};
ghost use Rattle.pg_server.specs.ByteLists.{are_bytes};
ghost use Rattle.pg_server.specs.Reaches.{reach_of};
ghost use Rattle.pg_server.specs.Servers.{heard_of};

use crate::fault::ServerFault;
use crate::handler::Handler;
use crate::server::Server;
use crate::traffic::Traffic;
use pg_wire::{Link, LinkRead, LinkStep, LinkWait, LinkWrite};
use std::alloc::Global;

/// A link to a server. A write takes at most to the end of the first frame that it answers, and what is said to that
/// frame is due then. It keeps all bytes that it took and gave.
///
/// What the server refuses is taken as well, and nothing is said to it: a frame up to its end, or all bytes behind which no
/// frame's end can be told. Behind such a fault each write, flush and shutdown fails; what was said before can still be read.
/// So the fault follows from the bytes taken, as what is given does.
#[derive(Drop)]
pub struct ServerLink<H> {
    server: Server<H>,
    traffic: Traffic,
    fault: Option<ServerFault>,
    ghost fails: { fault ≡ None → traffic.faults ≡ 0 },
}

impl<H: Handler> ServerLink<H> {
    ghost use Rattle.pg_server.specs.ServerLinks.{FailsByFault, served_of, link_of, new_link};

    /// A link to this server, which gives at most `cut` bytes a read and takes at most `room` bytes a write. It takes no
    /// memory.
    pub fn new(alloc: Global, server: Server<H>, cut: usize, room: usize) -> ServerLink<H>
        requires cut { 0 < cut }
        requires room { 0 < room }
        ensures { served_of H.state result ≡ new_link (heard_of H.state server) cut room }
    {
        ServerLink {
            server,
            traffic: Traffic::new(alloc, cut, room),
            fault: None,
        }
    }

    /// The fault of the server that ended it. Want of memory ends no link.
    pub fn fault(&self) -> Option<&ServerFault>
        ensures { option_map (λ fault. fault.now) result ≡ (served_of H.state self.now).fault }
    {
        self.fault.as_ref()
    }

    /// A law, which does nothing when it runs: what was given and what is due is all that it gives, by the bytes taken.
    pub fn course_law(&self)
        ensures { IsInCourse (link_of H.step (served_of H.state self.now)) }
    {
        let _ = &self.server;
    }

    /// A law, which does nothing when it runs: what was taken are bytes.
    pub fn bytes_law(&self)
        ensures { are_bytes (served_of H.state self.now).crossed.taken ≡ true }
    {
        let _ = &self.traffic;
    }

    /// A law, which does nothing when it runs: no call fails before the server has a fault.
    pub fn fault_law(&self)
        ensures { FailsByFault (served_of H.state self.now) }
    {
        let _ = &self.fault;
    }
}

impl<H: Handler> ServerLink<H> {
    ghost use Rattle.pg_server.specs.ServerLinks.{TakesUp, TakesIn, StopsBy, front_by, served_of, link_of};

    /// The server has a fault, where `n` bytes were taken.
    fn stop(&mut self, n: usize, fault: ServerFault) -> LinkWrite
        requires { n ≤ length (served_of H.state self.old).crossed.taken }
        ensures { StopsBy (served_of H.state self.old) (served_of H.state self.new) n fault result }
    {
        match fault {
            ServerFault::OutOfMemory => {
                self.traffic.take_back(n);
                LinkWrite::OutOfMemory
            }
            _ => {
                self.traffic.move_on();
                self.fault = Some(fault);
                LinkWrite::Took(n)
            }
        }
    }

    /// Takes bytes, of which none stands behind a tagged frame, and answers what is whole by them. Where memory lacks all is
    /// as before.
    fn take_piece(&mut self, bytes: &[u8]) -> LinkWrite
        requires { reach_of (served_of H.state self.old).heard.standing.stage (served_of H.state self.old).heard.left bytes.now ≡ length bytes.now }
        ensures { TakesIn (served_of H.state self.old) (served_of H.state self.new) bytes.now (front_by H.step (served_of H.state self.old) bytes.now) result }
    {
        if self.traffic.offer(bytes).is_err() {
            return LinkWrite::OutOfMemory;
        }
        match self.server.take_up(bytes) {
            Ok(Some((answer, left))) => {
                self.traffic.take_back(left);
                self.traffic.move_on();
                self.traffic.say(answer);
                LinkWrite::Took(bytes.len() - left)
            }
            Ok(None) => {
                self.traffic.move_on();
                LinkWrite::Took(bytes.len())
            }
            Err(fault) => self.stop(bytes.len(), fault),
        }
    }

    /// Takes bytes up to the end of the first frame that is whole by them, and answers it unless the server refuses it. Bytes
    /// behind that frame aren't copied. Where memory lacks all is as before.
    fn take_in(&mut self, bytes: &[u8]) -> LinkWrite
        ensures { TakesIn (served_of H.state self.old) (served_of H.state self.new) bytes.now (front_by H.step (served_of H.state self.old) bytes.now) result }
    {
        let n = self.server.reach(bytes);
        self.take_piece(&bytes[..n])
    }

    /// Takes a front of the bytes. Behind a fault it fails.
    fn take_up(&mut self, bytes: &[u8]) -> LinkWrite
        ensures exact { TakesUp H.step (served_of H.state self.old) (served_of H.state self.new) bytes.now result }
        ensures course { IsInCourse (link_of H.step (served_of H.state self.new)) }
        ensures room { 0 < (served_of H.state self.old).crossed.room }
    {
        if self.fault.is_some() {
            self.traffic.fail();
            return LinkWrite::Failed;
        }
        let n = self.traffic.room().min(bytes.len());
        self.take_in(&bytes[..n])
    }
}

impl<H: Handler> Link for ServerLink<H> {
    ghost use Rattle.pg_server.specs.ServerLinks.{Reads, TakesUp, Flushes, EndsWriting, AwaitsBytes, served_of, link_of};

    ghost view = { λ link. link_of H.step (served_of H.state link) };

    fn read(&mut self, out: &mut [u8]) -> LinkRead
        requires { 0 < length out.old }
        ensures answer { ReadAnswers (link_of H.step (served_of H.state self.old)) (link_of H.step (served_of H.state self.new)) out.new result }
        ensures keeps { Keeps (link_of H.step (served_of H.state self.old)) (link_of H.step (served_of H.state self.new)) }
        ensures promise { KeepsPromise (link_of H.step (served_of H.state self.old)) (link_of H.step (served_of H.state self.new)) (gave result) }
        ensures exact { Reads (served_of H.state self.old) (served_of H.state self.new) out.new result }
    {
        self.traffic.give(out)
    }

    fn write(&mut self, bytes: &[u8]) -> LinkWrite
        requires { 0 < length bytes.now }
        ensures answer { WriteAnswers (link_of H.step (served_of H.state self.old)) (link_of H.step (served_of H.state self.new)) bytes.now result }
        ensures keeps { Keeps (link_of H.step (served_of H.state self.old)) (link_of H.step (served_of H.state self.new)) }
        ensures promise { KeepsPromise (link_of H.step (served_of H.state self.old)) (link_of H.step (served_of H.state self.new)) (took result) }
        ensures exact { TakesUp H.step (served_of H.state self.old) (served_of H.state self.new) bytes.now result }
    {
        self.take_up(bytes)
    }

    fn flush(&mut self) -> LinkStep
        ensures answer { FlushAnswers (link_of H.step (served_of H.state self.old)) (link_of H.step (served_of H.state self.new)) result }
        ensures keeps { Keeps (link_of H.step (served_of H.state self.old)) (link_of H.step (served_of H.state self.new)) }
        ensures promise { KeepsPromise (link_of H.step (served_of H.state self.old)) (link_of H.step (served_of H.state self.new)) false }
        ensures exact { Flushes (served_of H.state self.old) (served_of H.state self.new) result }
    {
        if self.fault.is_some() {
            self.traffic.fail();
            return LinkStep::Failed;
        }
        self.traffic.flush();
        LinkStep::Done
    }

    fn shutdown(&mut self) -> LinkStep
        ensures answer { ShutdownAnswers (link_of H.step (served_of H.state self.old)) (link_of H.step (served_of H.state self.new)) result }
        ensures keeps { Keeps (link_of H.step (served_of H.state self.old)) (link_of H.step (served_of H.state self.new)) }
        ensures promise { KeepsPromise (link_of H.step (served_of H.state self.old)) (link_of H.step (served_of H.state self.new)) false }
        ensures exact { EndsWriting (served_of H.state self.old) (served_of H.state self.new) result }
    {
        if self.fault.is_some() {
            self.traffic.fail();
            return LinkStep::Failed;
        }
        self.traffic.shut();
        LinkStep::Done
    }

    fn wait(&mut self) -> LinkWait
        ensures answer { WaitAnswers (link_of H.step (served_of H.state self.old)) (link_of H.step (served_of H.state self.new)) result }
        ensures keeps { Keeps (link_of H.step (served_of H.state self.old)) (link_of H.step (served_of H.state self.new)) }
        ensures exact { AwaitsBytes (served_of H.state self.old) (served_of H.state self.new) result }
    {
        self.traffic.wait()
    }

    fn quiet(&self) -> u64 {
        self.traffic.quiet()
    }

    ghost use Rattle.pg_server.specs.ServerLinks.{tells as tells_all};

    ghost tells = { λ link. tells_all H.step (served_of H.state link) };
}
