//! Plays session texts: over a link in memory, or over its own standard input and output.
#![tactic(auto)]

mod opened;
mod report_file;
mod telling;

ghost use Rattle.std.specs.Prelude.{◌≡◌};

use crate::opened::Opened;
use crate::report_file::Beside;
use crate::telling::{PROGRAM, tell_beside, tell_usage};
use pg_diagnostics::{Front, Reason, reason_of, tell};
use pg_stream::{StreamLink, Told};
use pg_tool::{Outcome, run};
use pg_types::Error;
use pg_wire::{MemoryLink, ReadSource, WriteSink};
use std::fs::File;
use std::process::ExitCode;
use std::{env, fs, io, mem};

/// The status of a usage error, and of a text that is refused.
const REFUSED: u8 = 2;

/// The status of a report that can't be written.
const SINK_FAILED: u8 = 4;

/// The status of want of memory.
const OUT_OF_MEMORY: u8 = 5;

/// The words behind the program's own name.
fn words(rt: &HostRuntime) -> io::Result<Vec<String>> {
    let mut words = Vec::new(rt.alloc());
    for word in env::args(rt)?.skip(1) {
        words.push(word)?;
    }
    Ok(words)
}

/// What a text is read from and what its report is written into, by their names, and what the system said where they couldn't
/// be opened.
#[derive(Drop)]
struct Ends<'a> {
    text: &'a str,
    report: &'a str,
    unread: Option<io::Error>,
    unwritten: Option<io::Error>,
}

/// The error that a session answered.
fn error_of(outcome: &Outcome) -> Option<&Error> {
    match &outcome.result {
        Some(Err(error)) => Some(error),
        _ => None,
    }
}

/// The status, and on standard error why it isn't 0. The program ends behind it, so what the session answered isn't let go piece
/// by piece.
fn end(rt: &HostRuntime, ends: &Ends<'_>, outcome: Outcome, head: &[u8]) -> u8
    ensures { result ≡ outcome.status }
{
    let status = outcome.status;
    if let Some(reason) = reason_of(status, error_of(&outcome), head) {
        tell_end(rt, ends, reason);
    }
    mem::forget(outcome);
    status
}

/// Tells why, of the text or of the report.
fn tell_end(rt: &HostRuntime, ends: &Ends<'_>, reason: Reason<'_>) {
    let (file, system) = match reason {
        Reason::Unread => (ends.text, ends.unread.as_ref()),
        Reason::Unwritten => (ends.report, ends.unwritten.as_ref()),
        _ => (ends.text, None),
    };
    tell(rt, rt.alloc(), PROGRAM, file, reason, system);
}

/// A session text on standard input, its report on standard output; its link is its own. With other words what these are for is
/// told, by the status of the usage line.
fn play(rt: &HostRuntime, words: &[String]) -> u8 {
    let alloc = rt.alloc();
    let mut source = ReadSource::new(rt.reader());
    let mut sink = Front::new(WriteSink::new(io::writer(rt)));
    let mut link = MemoryLink::new(alloc, Vec::new(alloc), 1, 1, false);
    let outcome = run(alloc, words, &mut source, &mut sink, &mut link);
    if outcome.status == REFUSED && !is_play(words) {
        mem::forget(outcome);
        tell_usage(rt);
        return REFUSED;
    }
    let ends = Ends {
        text: "standard input",
        report: "standard output",
        unread: None,
        unwritten: None,
    };
    end(rt, &ends, outcome, sink.head())
}

/// The one word `play`.
fn is_play(words: &[String]) -> bool {
    match words {
        [word] => word.as_str() == "play",
        _ => false,
    }
}

/// The file that a text is read from, and what the system said where it couldn't be opened.
fn open_text(rt: &HostRuntime, text: &str) -> (Opened<ReadSource<File>>, Option<io::Error>) {
    match fs::open(rt, text) {
        Ok(file) => (Opened::Open(ReadSource::new(file)), None),
        Err(error) => (Opened::Missing(0), Some(error)),
    }
}

/// A session text in a file, its report in another; its link is standard input and output, and tells the bytes that cross it.
fn pipe(rt: &HostRuntime, words: &[String], text: &str, report: &str) -> u8 {
    let (source, unread) = open_text(rt, text);
    let (sink, beside, unwritten) = match report_file::open(rt, text, report) {
        Ok((file, beside)) => (Opened::Open(WriteSink::new(file)), beside, None),
        Err(error) => (Opened::Missing(0), None, Some(error)),
    };
    let ends = Ends {
        text,
        report,
        unread,
        unwritten,
    };
    let status = join(rt, words, &ends, source, sink);
    match beside {
        Some(beside) => settle(rt, report, &beside, status),
        None => status,
    }
}

/// Plays the text of the source over standard input and output, and writes its report to the sink.
fn join(
    rt: &HostRuntime,
    words: &[String],
    ends: &Ends<'_>,
    mut source: Opened<ReadSource<File>>,
    sink: Opened<WriteSink<File>>,
) -> u8 {
    let alloc = rt.alloc();
    let mut sink = Front::new(sink);
    match StreamLink::new(alloc, rt.reader(), io::writer(rt)) {
        Ok(link) => {
            let mut link = Told::new(link);
            let outcome = run(alloc, words, &mut source, &mut sink, &mut link);
            end(rt, ends, outcome, sink.head())
        }
        Err(_) => {
            tell_end(rt, ends, Reason::OutOfMemory);
            OUT_OF_MEMORY
        }
    }
}

/// The report takes its place, where it is whole; the status.
fn settle(rt: &HostRuntime, report: &str, beside: &Beside, status: u8) -> u8 {
    if beside.is_let_go(rt, status) {
        return status;
    }
    match beside.put(rt) {
        Ok(()) => status,
        Err(error) => {
            tell_beside(rt, report, beside.path(), &error);
            SINK_FAILED
        }
    }
}

fn main(rt: HostRuntime) -> ExitCode {
    let alloc = rt.alloc();
    let words = match words(&rt) {
        Ok(words) => words,
        Err(error) if matches!(error.kind(), io::ErrorKind::OutOfMemory) => {
            tell(&rt, alloc, PROGRAM, "", Reason::OutOfMemory, None);
            return ExitCode::from(OUT_OF_MEMORY);
        }
        // A word isn't UTF-8, so it isn't one that is known: without words the usage line is due.
        Err(_) => Vec::new(alloc),
    };
    let status = match words.as_slice() {
        [word, file, report] if word.as_str() == "pipe" => {
            pipe(&rt, words.as_slice(), file.as_str(), report.as_str())
        }
        _ => play(&rt, words.as_slice()),
    };
    ExitCode::from(status)
}
