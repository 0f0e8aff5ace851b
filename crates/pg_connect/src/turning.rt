//! A turn: read, write, flush.

ghost use Rattle.std.specs.Prelude.{◌≡◌, ◌^◌, ◌<◌, ◌≤◌, [], true, false, IsTrue, None, OnOk};
ghost use Rattle.pg_connect.specs.Calm.{MissesFew, MissesNone, MissesOne, StaysCalm};
ghost use Rattle.pg_connect.specs.Passes.{Goes, OnlySends};
ghost use Rattle.pg_connect.specs.Polls.{Sends, Turns};
ghost use Rattle.pg_connect.specs.Reads.{IsWithin};

use crate::flushing::flush_step;
use crate::{ConnectionFault, FlushEnd, ReadEnd, SendEnd, Streams, TurnEnd, WriteEnd};
use pg_desk::Engine;
use pg_wire::Link;
use std::alloc::Global;

impl Streams {
    /// The write step, and the flush step where nothing is unsent.
    #[tactic(auto, using(crate::proofs::Calm::no_lulls))]
    pub(crate) fn send<L: Link, E: Engine>(
        &mut self,
        link: &mut L,
        hub: &mut E,
        may_close: bool,
    ) -> Result<SendEnd, ConnectionFault>
        requires { self.old.unread ≡ None }
        ensures goes { Goes E.becomes hub.old hub.new self.old self.new (L.view link.old) (L.view link.new) []
            (Sends self.old self.new (L.view link.old) (L.view link.new) may_close result) }
        ensures only { OnlySends self.old self.new (L.view link.old) (L.view link.new) }
        ensures no_lull { StaysCalm (L.view link.old) (L.view link.new) }
        ensures quiet { MissesOne (L.view link.old) (L.view link.new) }
        ensures steady { IsTrue (L.view link.old).steady → MissesNone (L.view link.old) (L.view link.new) }
    {
        match self.write_step(link, hub, may_close) {
            Ok(WriteEnd::AllTaken) => {}
            Ok(WriteEnd::Blocked) => return Ok(SendEnd::Waits),
            Err(e) => return Err(e),
        }
        match flush_step(link, self.closing) {
            Ok(FlushEnd::Blocked) => Ok(SendEnd::Waits),
            Ok(FlushEnd::Flushed) => Ok(SendEnd::Waits),
            Ok(FlushEnd::ShutDown) => Ok(SendEnd::Over),
            Err(e) => Err(e),
        }
    }

    /// A turn where the connection is closing: nothing is read.
    fn close_turn<L: Link, E: Engine>(
        &mut self,
        link: &mut L,
        hub: &mut E,
    ) -> Result<TurnEnd, ConnectionFault>
        requires closing { self.old.closing ≡ true }
        requires unread { self.old.unread ≡ None }
        ensures turns { Turns E.becomes hub.old hub.new self.old self.new (L.view link.old) (L.view link.new) result }
        ensures unread { self.new.unread ≡ None }
        ensures at_end { self.new.at_end ≡ self.old.at_end }
        ensures within { self.new.given ≡ self.old.given }
        ensures no_lull { StaysCalm (L.view link.old) (L.view link.new) }
        ensures quiet { MissesOne (L.view link.old) (L.view link.new) }
        ensures steady { IsTrue (L.view link.old).steady → MissesNone (L.view link.old) (L.view link.new) }
    {
        match self.send(link, hub, false) {
            Ok(SendEnd::Waits) => Ok(TurnEnd::Waits),
            Ok(SendEnd::Over) => Ok(TurnEnd::Over),
            Err(e) => Err(e),
        }
    }

    /// A turn: reads where the connection isn't closing, writes and flushes.
    #[tactic(auto, using(crate::proofs::Calm::no_lulls))]
    pub(crate) fn turn<L: Link, E: Engine>(
        &mut self,
        alloc: Global,
        link: &mut L,
        hub: &mut E,
    ) -> Result<TurnEnd, ConnectionFault>
        requires limit { self.old.max_bytes < 2 ^ 63 }
        requires given { self.old.given ≤ self.old.max_bytes }
        requires unread { self.old.unread ≡ None }
        ensures turns { Turns E.becomes hub.old hub.new self.old self.new (L.view link.old) (L.view link.new) result }
        ensures unread { OnOk result (self.new.unread ≡ None) }
        ensures at_end { OnOk result (self.new.at_end ≡ self.old.at_end) }
        ensures within { IsWithin self.new result }
        ensures no_lull { StaysCalm (L.view link.old) (L.view link.new) }
        ensures quiet { MissesFew (L.view link.old) (L.view link.new) }
    {
        if self.closing {
            return self.close_turn(link, hub);
        }
        match self.read_step(alloc, link, hub) {
            Ok(ReadEnd::Handed(message)) => match self.send(link, hub, false) {
                Ok(SendEnd::Waits) => Ok(TurnEnd::Handed(message)),
                Ok(SendEnd::Over) => Ok(TurnEnd::Over),
                Err(e) => Err(e),
            },
            Ok(ReadEnd::Full) => match self.send(link, hub, false) {
                Ok(SendEnd::Waits) => Ok(TurnEnd::Waits),
                Ok(SendEnd::Over) => Ok(TurnEnd::Over),
                Err(e) => Err(e),
            },
            Ok(ReadEnd::Dry) => match self.send(link, hub, true) {
                Ok(SendEnd::Waits) => Ok(TurnEnd::Waits),
                Ok(SendEnd::Over) => Ok(TurnEnd::Over),
                Err(e) => Err(e),
            },
            Err(e) => Err(e),
        }
    }
}
