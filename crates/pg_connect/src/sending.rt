//! The write step: parts go out of the hub and are offered to the link.

ghost use Rattle.std.specs.Prelude.{◌≡◌, ◌≤◌, [], true, false, IsTrue, None, Ok, length, drop};
ghost use Rattle.pg_spec.specs.Frames.{terminate_frame};
ghost use Rattle.pg_connect.specs.Calm.{MissesNone, MissesOne, StaysCalm};
ghost use Rattle.pg_connect.specs.Passes.{Passes, Goes, OnlySends};
ghost use Rattle.pg_connect.specs.Ends.{OfferEnds, PartsEnds, Written};

use crate::fault::fault_of;
use crate::{ConnectionFault, PartsEnd, Streams, WriteEnd};
use bytes::Bytes;
use pg_desk::{Engine, Out};
use pg_wire::{Link, LinkWrite};

/// Terminate (PostgreSQL documentation, "Message Formats").
const TERMINATE: [u8; 5] = [b'X', 0, 0, 0, 4];

impl Streams {
    /// Drops the first bytes that are unsent, which the link took.
    fn took(&mut self, n: usize)
        requires { n ≤ length self.old.unsent }
        ensures { self.new ≡ record self.old { unsent = drop n self.old.unsent; moved = true } }
    {
        self.unsent.advance(n);
        self.moved = true;
    }

    /// Offers what is unsent until nothing is left (`true`), or until the link isn't ready (`false`).
    #[tactic(auto, using(crate::proofs::Calm::no_lulls))]
    pub(crate) fn offer<L: Link>(&mut self, link: &mut L) -> Result<bool, ConnectionFault>
        requires { self.old.unread ≡ None }
        ensures passes { Passes self.old self.new (L.view link.old) (L.view link.new) [] [] }
        ensures end { OfferEnds self.new (L.view link.old) (L.view link.new) result }
        ensures closing { self.new.closing ≡ self.old.closing }
        ensures only { OnlySends self.old self.new (L.view link.old) (L.view link.new) }
        ensures shut { (L.view link.new).shut ≡ (L.view link.old).shut }
        ensures no_lull { StaysCalm (L.view link.old) (L.view link.new) }
        ensures quiet { MissesOne (L.view link.old) (L.view link.new) }
        ensures ready { result ≡ Ok true → MissesNone (L.view link.old) (L.view link.new) }
        ensures steady { IsTrue (L.view link.old).steady → MissesNone (L.view link.old) (L.view link.new) }
    {
        while !self.unsent.is_empty() {
            match link.write(self.unsent.as_slice()) {
                LinkWrite::Took(n) => self.took(n),
                LinkWrite::NotReady => return Ok(false),
                LinkWrite::Failed => return Err(ConnectionFault::Link),
                LinkWrite::OutOfMemory => return Err(ConnectionFault::OutOfMemory),
            }
        }
        Ok(true)
    }

    /// Takes a part that came out of the hub.
    fn queue_part(&mut self, part: Bytes)
        ensures { self.new ≡ record self.old { unsent = part; moved = true } }
    {
        self.unsent = part;
        self.moved = true;
    }

    /// Takes part after part out of the hub, each once the one before was taken by the link.
    #[tactic(auto, using(crate::proofs::Calm::no_lulls))]
    pub(crate) fn send_parts<L: Link, E: Engine>(
        &mut self,
        link: &mut L,
        hub: &mut E,
    ) -> Result<PartsEnd, ConnectionFault>
        requires active { self.old.closing ≡ false }
        requires unread { self.old.unread ≡ None }
        ensures goes { Goes E.becomes hub.old hub.new self.old self.new (L.view link.old) (L.view link.new) []
            (PartsEnds self.new (L.view link.old) (L.view link.new) result) }
        ensures closing { self.new.closing ≡ false }
        ensures only { OnlySends self.old self.new (L.view link.old) (L.view link.new) }
        ensures shut { (L.view link.new).shut ≡ (L.view link.old).shut }
        ensures no_lull { StaysCalm (L.view link.old) (L.view link.new) }
        ensures quiet { MissesOne (L.view link.old) (L.view link.new) }
        ensures waits { result ≡ Ok PartsEnd.Waits → MissesNone (L.view link.old) (L.view link.new) }
        ensures no_more { result ≡ Ok PartsEnd.NoMore → MissesNone (L.view link.old) (L.view link.new) }
        ensures steady { IsTrue (L.view link.old).steady → MissesNone (L.view link.old) (L.view link.new) }
    {
        'parts: loop {
            match self.offer(link) {
                Ok(true) => {}
                Ok(false) => return Ok(PartsEnd::Blocked),
                Err(e) => return Err(e),
            }
            match hub.next_out() {
                Ok(Out::Part(part)) => self.queue_part(part),
                Ok(Out::CopyWaits) => return Ok(PartsEnd::Waits),
                Ok(Out::Nothing) => return Ok(PartsEnd::Waits),
                Ok(Out::NoMore) => return Ok(PartsEnd::NoMore),
                Err(fault) => return Err(fault_of(fault)),
            }
        }
    }

    fn queue_terminate(&mut self)
        ensures { self.new ≡ record self.old { unsent = terminate_frame; closing = true } }
    {
        self.unsent = Bytes::from_static(&TERMINATE);
        self.closing = true;
    }

    /// Offers what is unsent where no part will follow.
    fn offer_last<L: Link>(&mut self, link: &mut L) -> Result<WriteEnd, ConnectionFault>
        requires closing { self.old.closing ≡ true }
        requires unread { self.old.unread ≡ None }
        ensures passes { Passes self.old self.new (L.view link.old) (L.view link.new) [] [] }
        ensures end { Written self.old self.new (L.view link.old) (L.view link.new) false result [] }
        ensures closing { self.new.closing ≡ true }
        ensures only { OnlySends self.old self.new (L.view link.old) (L.view link.new) }
        ensures shut { (L.view link.new).shut ≡ (L.view link.old).shut }
        ensures no_lull { StaysCalm (L.view link.old) (L.view link.new) }
        ensures quiet { MissesOne (L.view link.old) (L.view link.new) }
        ensures ready { result ≡ Ok WriteEnd.AllTaken → MissesNone (L.view link.old) (L.view link.new) }
        ensures steady { IsTrue (L.view link.old).steady → MissesNone (L.view link.old) (L.view link.new) }
    {
        match self.offer(link) {
            Ok(true) => Ok(WriteEnd::AllTaken),
            Ok(false) => Ok(WriteEnd::Blocked),
            Err(e) => Err(e),
        }
    }

    /// The write step: sends until the link isn't ready or the hub has no part. Where it may close and
    /// nothing more will come, Terminate is sent too.
    #[tactic(auto, using(crate::proofs::Calm::no_lulls))]
    pub(crate) fn write_step<L: Link, E: Engine>(
        &mut self,
        link: &mut L,
        hub: &mut E,
        may_close: bool,
    ) -> Result<WriteEnd, ConnectionFault>
        requires { self.old.unread ≡ None }
        ensures goes { Goes E.becomes hub.old hub.new self.old self.new (L.view link.old) (L.view link.new) []
            (Written self.old self.new (L.view link.old) (L.view link.new) may_close result) }
        ensures only { OnlySends self.old self.new (L.view link.old) (L.view link.new) }
        ensures shut { (L.view link.new).shut ≡ (L.view link.old).shut }
        ensures no_lull { StaysCalm (L.view link.old) (L.view link.new) }
        ensures quiet { MissesOne (L.view link.old) (L.view link.new) }
        ensures ready { result ≡ Ok WriteEnd.AllTaken → MissesNone (L.view link.old) (L.view link.new) }
        ensures steady { IsTrue (L.view link.old).steady → MissesNone (L.view link.old) (L.view link.new) }
    {
        if self.closing {
            return self.offer_last(link);
        }
        match self.send_parts(link, hub) {
            Ok(PartsEnd::NoMore) => {
                if may_close {
                    self.queue_terminate();
                    return self.offer_last(link);
                }
                Ok(WriteEnd::AllTaken)
            }
            Ok(PartsEnd::Waits) => Ok(WriteEnd::AllTaken),
            Ok(PartsEnd::Blocked) => Ok(WriteEnd::Blocked),
            Err(e) => Err(e),
        }
    }
}
