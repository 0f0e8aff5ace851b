//! A session text against a server that echoes.

ghost use Rattle.std.specs.Prelude.{◌≡◌, ◌<◌, IfOk};
ghost use Rattle.pg_server.specs.Echoes.{echo_step};
ghost use Rattle.pg_server.specs.ServerLinks.{link_of, new_link, served_of};
ghost use Rattle.pg_server.specs.Servers.{heard_of, new_heard};
ghost use Rattle.pg_served.specs.Rehearsals.{FailsByServer, HasItsFault, PlaysOver};

use crate::pieces::Pieces;
use crate::rehearsal::rehearse;
use pg_server::{Echo, Server, ServerLink};
use pg_tool::Outcome;
use pg_types::{Blob, OutOfMemory};
use pg_wire::{Sink, Source};
use std::alloc::Global;

/// AuthenticationOk and ReadyForQuery.
const STARTUP: [u8; 15] = [b'R', 0, 0, 0, 8, 0, 0, 0, 0, b'Z', 0, 0, 0, 5, b'I'];

/// A server that echoes. Its startup is AuthenticationOk and ReadyForQuery.
pub fn echo_server(alloc: Global) -> Result<Server<Echo>, OutOfMemory>
    ensures { IfOk result (λ server. heard_of {S = Unit {0}} (λ _. tt) server ≡ new_heard tt STARTUP) }
{
    let startup = Blob::from_slice(alloc, &STARTUP)?;
    match Server::new(alloc, Echo::new(alloc), startup) {
        Ok(server) => Ok(server),
        Err(_) => Err(OutOfMemory),
    }
}

/// A new link to such a server.
pub fn echo_link(alloc: Global, pieces: Pieces) -> Result<ServerLink<Echo>, OutOfMemory>
    requires cut { 0 < pieces.cut }
    requires room { 0 < pieces.room }
    ensures { IfOk result (λ link. served_of {S = Unit {0}} (λ _. tt) link ≡ new_link (new_heard tt STARTUP) pieces.cut pieces.room) }
{
    let server = echo_server(alloc)?;
    Ok(ServerLink::new(alloc, server, pieces.cut, pieces.room))
}

/// Plays the session text of a source over a link to a server that echoes, and writes the report to a sink. The text's own
/// link isn't used. Io(Link) comes only where the server has a fault; over a link that was just made it is the one for which
/// the server stops at the bytes that were taken.
pub fn rehearse_echo<S: Source, K: Sink>(
    alloc: Global,
    source: &mut S,
    sink: &mut K,
    link: &mut ServerLink<Echo>,
) -> Outcome
    ensures plays { PlaysOver (link_of {S = Unit {0}} echo_step (served_of (λ _. tt) link.old)) (link_of {S = Unit {0}} echo_step (served_of (λ _. tt) link.new)) (record {
      source_before = S.state source.old;
      source_after = S.state source.new;
      sink_before = K.state sink.old;
      sink_after = K.state sink.new;
      status = result.status;
      result = result.result;
    }) }
    ensures fault { FailsByServer (served_of {S = Unit {0}} (λ _. tt) link.new) result.result }
    ensures its_fault { HasItsFault {S = Unit {0}} echo_step (served_of (λ _. tt) link.old) (served_of (λ _. tt) link.new) }
{
    let outcome = rehearse(alloc, source, sink, link);
    link.fault_law();
    link.bytes_law();
    outcome
}
