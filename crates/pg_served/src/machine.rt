//! A session text against a machine.

ghost use Rattle.std.specs.Prelude.{◌≡◌, ◌<◌};
ghost use Rattle.pg_machine.specs.MachineLinks.{link_of, new_link};
ghost use Rattle.pg_served.specs.Rehearsals.{PlaysOver};

use crate::pieces::Pieces;
use crate::rehearsal::rehearse;
use pg_machine::{MachineFile, MachineLink};
use pg_tool::Outcome;
use pg_wire::{Sink, Source};
use std::alloc::Global;

/// A new link to this machine, with this startup.
pub fn machine_link(alloc: Global, file: MachineFile, pieces: Pieces) -> MachineLink
    requires cut { 0 < pieces.cut }
    requires room { 0 < pieces.room }
    ensures { result ≡ new_link file.machine file.startup pieces.cut pieces.room }
{
    let MachineFile { machine, startup } = file;
    MachineLink::new(alloc, machine, startup, pieces.cut, pieces.room)
}

/// Plays the session text of a source over a link to a machine, and writes the report to a sink. The text's own link isn't
/// used.
pub fn rehearse_machine<S: Source, K: Sink>(
    alloc: Global,
    source: &mut S,
    sink: &mut K,
    link: &mut MachineLink,
) -> Outcome
    ensures { PlaysOver (link_of link.old) (link_of link.new) (record {
      source_before = S.state source.old;
      source_after = S.state source.new;
      sink_before = K.state sink.old;
      sink_after = K.state sink.new;
      status = result.status;
      result = result.result;
    }) }
{
    rehearse(alloc, source, sink, link)
}
