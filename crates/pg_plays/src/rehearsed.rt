//! A session against a server of the repository.

ghost use Rattle.std.specs.Prelude.{◌<◌};

use crate::alike::are_alike;
use crate::outputs::{output, pieces_of};
use pg_machine::{MachineFile, machine_of};
use pg_served::{Pieces, echo_link, machine_link, rehearse_echo, rehearse_machine};
use pg_wire::{MemorySink, MemorySource};
use std::alloc::{AllocError, Global};

/// What a session is played against.
#[derive(Clone, Copy, Drop)]
enum Against<'a> {
    Echo,
    /// The machine of this text.
    Machine(&'a str),
}

/// What the program gives with a server that echoes.
fn with_echo(alloc: Global, session: &str, pieces: Pieces) -> Result<String, AllocError>
    requires cut { 0 < pieces.cut }
    requires room { 0 < pieces.room }
{
    let mut source = MemorySource::new(Vec::from_slice(alloc, session.as_bytes())?);
    let mut sink = MemorySink::new(alloc);
    let Ok(mut link) = echo_link(alloc, pieces) else {
        return Err(AllocError);
    };
    let status = rehearse_echo(alloc, &mut source, &mut sink, &mut link).status;
    output(alloc, status, sink.written())
}

/// What it gives with a machine.
fn with_machine(
    alloc: Global,
    machine: MachineFile,
    session: &str,
    pieces: Pieces,
) -> Result<String, AllocError>
    requires cut { 0 < pieces.cut }
    requires room { 0 < pieces.room }
{
    let mut source = MemorySource::new(Vec::from_slice(alloc, session.as_bytes())?);
    let mut sink = MemorySink::new(alloc);
    let mut link = machine_link(alloc, machine, pieces);
    let status = rehearse_machine(alloc, &mut source, &mut sink, &mut link).status;
    output(alloc, status, sink.written())
}

/// What the program gives, or why the text of a machine is none.
fn played(
    alloc: Global,
    against: Against<'_>,
    session: &str,
    pieces: Pieces,
) -> Result<String, AllocError>
    requires cut { 0 < pieces.cut }
    requires room { 0 < pieces.room }
{
    let text = match against {
        Against::Echo => return with_echo(alloc, session, pieces),
        Against::Machine(text) => text,
    };
    match machine_of(alloc, text.as_bytes()) {
        Ok(machine) => with_machine(alloc, machine, session, pieces),
        Err(fault) => format!(in alloc; "-- {fault}\n"),
    }
}

/// Appends what the program gives where so many bytes go over the link at a time as the head says, and whether it gives
/// the like byte by byte and in large pieces.
fn tell_against(
    alloc: Global,
    head: &str,
    against: Against<'_>,
    session: &str,
    out: &mut String,
) -> Result<(), AllocError> {
    let told = played(alloc, against, session, pieces_of(head))?;
    out.push_str(told.as_str())?;
    let small = Pieces { cut: 1, room: 1 };
    let small = played(alloc, against, session, small)?;
    let large = Pieces {
        cut: 8192,
        room: 8192,
    };
    let large = played(alloc, against, session, large)?;
    let alike = are_alike(told.as_str(), small.as_str())
        && are_alike(told.as_str(), large.as_str());
    write!(out, "alike {alike}\n")
}

/// Appends what the texts behind a head give: a session, or a machine and a session.
pub(crate) fn tell(
    alloc: Global,
    head: &str,
    texts: &str,
    out: &mut String,
) -> Result<(), AllocError> {
    match texts.split_once("--\n") {
        Some((machine, session)) => {
            tell_against(alloc, head, Against::Machine(machine), session, out)
        }
        None => tell_against(alloc, head, Against::Echo, texts, out),
    }
}
