//! Plays a session text against a server that echoes, or a machine that is read from a file.
#![tactic(auto)]

mod telling;

ghost use Rattle.std.specs.Prelude.{◌≡◌, ◌<◌};

use crate::telling::{PROGRAM, tell_fault, tell_usage};
use pg_diagnostics::{Front, Reason, reason_of, tell};
use pg_machine::{FileFault, machine_of};
use pg_served::{
    Outcome, Pieces, echo_link, machine_link, pieces_of, rehearse_echo, rehearse_machine,
};
use pg_types::Error;
use pg_wire::{ReadSource, WriteSink};
use std::process::ExitCode;
use std::{env, fs, io, mem};

/// What is written for words that are none of the program's.
const USAGE: &str = "usage: pgserve echo [CUT ROOM] | machine FILE [CUT ROOM]";

/// The words or a text are refused.
const REFUSED: u8 = 2;

/// A file couldn't be read.
const SOURCE_FAILED: u8 = 3;

/// What is due couldn't be written.
const SINK_FAILED: u8 = 4;

/// Memory lacked.
const OUT_OF_MEMORY: u8 = 5;

/// The words behind the program's own name.
fn words(rt: &HostRuntime) -> io::Result<Vec<String>> {
    let mut words = Vec::new(rt.alloc());
    for word in env::args(rt)?.skip(1) {
        words.push(word)?;
    }
    Ok(words)
}

/// The error that a session answered.
fn error_of(outcome: &Outcome) -> Option<&Error> {
    match &outcome.result {
        Some(Err(error)) => Some(error),
        _ => None,
    }
}

/// The status, and on standard error why it isn't 0. The program ends behind it, so what the session answered isn't let go piece
/// by piece.
fn end(rt: &HostRuntime, outcome: Outcome, head: &[u8]) -> u8
    ensures { result ≡ outcome.status }
{
    let status = outcome.status;
    if let Some(reason) = reason_of(status, error_of(&outcome), head) {
        tell_end(rt, reason);
    }
    mem::forget(outcome);
    status
}

/// Tells why, of the text or of the report.
fn tell_end(rt: &HostRuntime, reason: Reason<'_>) {
    let file = match reason {
        Reason::Unwritten => "standard output",
        _ => "standard input",
    };
    tell(rt, rt.alloc(), PROGRAM, file, reason, None);
}

/// Writes the usage line, and tells what the words mean.
fn refuse(rt: &HostRuntime) -> u8 {
    match println!(rt; "{USAGE}") {
        Ok(()) => {
            tell_usage(rt);
            REFUSED
        }
        Err(_) => unwritten(rt),
    }
}

/// The status where standard output can't be written, and tells so.
fn unwritten(rt: &HostRuntime) -> u8 {
    tell_end(rt, Reason::Unwritten);
    SINK_FAILED
}

/// The status of want of memory, and tells so.
fn no_memory(rt: &HostRuntime) -> u8 {
    tell_end(rt, Reason::OutOfMemory);
    OUT_OF_MEMORY
}

/// The status where a file can't be read, and tells so.
fn unread(rt: &HostRuntime, file: &str, error: &io::Error) -> u8 {
    if matches!(error.kind(), io::ErrorKind::OutOfMemory) {
        return no_memory(rt);
    }
    tell(rt, rt.alloc(), PROGRAM, file, Reason::Unread, Some(error));
    SOURCE_FAILED
}

/// Writes what is wrong with the file of a machine, and tells it.
fn refuse_machine(rt: &HostRuntime, file: &str, fault: FileFault) -> u8 {
    if matches!(fault, FileFault::OutOfMemory) {
        return no_memory(rt);
    }
    match println!(rt; "refused machine, {fault}") {
        Ok(()) => {
            tell_fault(rt, file, fault);
            REFUSED
        }
        Err(_) => unwritten(rt),
    }
}

/// A session text on standard input against a server that echoes.
fn echo(rt: &HostRuntime, pieces: Pieces) -> u8
    requires cut { 0 < pieces.cut }
    requires room { 0 < pieces.room }
{
    let mut link = match echo_link(rt.alloc(), pieces) {
        Ok(link) => link,
        Err(_) => return no_memory(rt),
    };
    let mut source = ReadSource::new(rt.reader());
    let mut sink = Front::new(WriteSink::new(io::writer(rt)));
    let outcome = rehearse_echo(rt.alloc(), &mut source, &mut sink, &mut link);
    end(rt, outcome, sink.head())
}

/// A session text on standard input against the machine of a file.
fn machine(rt: &HostRuntime, file: &str, pieces: Pieces) -> u8
    requires cut { 0 < pieces.cut }
    requires room { 0 < pieces.room }
{
    let text = match fs::read(rt, file) {
        Ok(text) => text,
        Err(error) => return unread(rt, file, &error),
    };
    let read = match machine_of(rt.alloc(), text.as_slice()) {
        Ok(read) => read,
        Err(fault) => return refuse_machine(rt, file, fault),
    };
    let mut link = machine_link(rt.alloc(), read, pieces);
    let mut source = ReadSource::new(rt.reader());
    let mut sink = Front::new(WriteSink::new(io::writer(rt)));
    let outcome = rehearse_machine(rt.alloc(), &mut source, &mut sink, &mut link);
    end(rt, outcome, sink.head())
}

/// Does what the words ask for.
fn play(rt: &HostRuntime, words: &[String]) -> u8 {
    match words {
        [word, more @ ..] if word.as_str() == "echo" => match pieces_of(more) {
            Some(pieces) => echo(rt, pieces),
            None => refuse(rt),
        },
        [word, file, more @ ..] if word.as_str() == "machine" => match pieces_of(more) {
            Some(pieces) => machine(rt, file.as_str(), pieces),
            None => refuse(rt),
        },
        _ => refuse(rt),
    }
}

fn main(rt: HostRuntime) -> ExitCode {
    let words = match words(&rt) {
        Ok(words) => words,
        Err(error) if matches!(error.kind(), io::ErrorKind::OutOfMemory) => {
            return ExitCode::from(no_memory(&rt));
        }
        // A word isn't UTF-8, so it isn't one that is known: without words the usage line is due.
        Err(_) => Vec::new(rt.alloc()),
    };
    ExitCode::from(play(&rt, words.as_slice()))
}
