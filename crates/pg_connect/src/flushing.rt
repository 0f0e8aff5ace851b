//! The flush step.

ghost use Rattle.pg_wire.specs.LinkCalls.{Keeps};
ghost use Rattle.std.specs.Prelude.{IsTrue};
ghost use Rattle.pg_connect.specs.Calm.{MissesNone, MissesOne, StaysCalm};
ghost use Rattle.pg_connect.specs.Passes.{Untouched};
ghost use Rattle.pg_connect.specs.Polls.{FlushEnds, Shuts, is_shut_down};

use crate::{ConnectionFault, FlushEnd};
use pg_wire::{Link, LinkStep};

/// Flushes, and shuts the link down where the connection is closing.
#[tactic(auto, using(crate::proofs::Calm::no_lulls))]
pub(crate) fn flush_step<L: Link>(link: &mut L, closing: bool) -> Result<FlushEnd, ConnectionFault>
    ensures end { FlushEnds closing (L.view link.old) (L.view link.new) result }
    ensures shut { Shuts (is_shut_down result) (L.view link.old) (L.view link.new) }
    ensures untouched { Untouched (L.view link.old) (L.view link.new) }
    ensures keeps { Keeps (L.view link.old) (L.view link.new) }
    ensures no_lull { StaysCalm (L.view link.old) (L.view link.new) }
    ensures quiet { MissesOne (L.view link.old) (L.view link.new) }
    ensures steady { IsTrue (L.view link.old).steady → MissesNone (L.view link.old) (L.view link.new) }
{
    match link.flush() {
        LinkStep::Done => {}
        LinkStep::NotReady => return Ok(FlushEnd::Blocked),
        LinkStep::Failed => return Err(ConnectionFault::Link),
    }
    if !closing {
        return Ok(FlushEnd::Flushed);
    }
    match link.shutdown() {
        LinkStep::Done => Ok(FlushEnd::ShutDown),
        LinkStep::NotReady => Ok(FlushEnd::Blocked),
        LinkStep::Failed => Err(ConnectionFault::Link),
    }
}
