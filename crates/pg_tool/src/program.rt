//! The program around a session.

ghost use Rattle.std.specs.Prelude.{◌≡◌, ◌↔◌, ◌<◌, ◌^◌, ℕ, List, None, Err, IfOk, IfSome, IsSome, length, map, string_bytes};
ghost use Rattle.pg_text.specs.Sessions.{IsNew, ReadsText, session_of};
ghost use Rattle.pg_text.specs.declared.session.TextFault.TheVariants as fault;
ghost use Rattle.pg_gen.specs.Generated.{IsCount};
ghost use Rattle.pg_tool.specs.RunContract.{Answered, IsOver, IsPiped, IsPlayed, PlayedSession, PlayedText, RefusedLine, RunContract, SumsUp, WritesSummary, Written};

use crate::numbers::{Numbers, asked_numbers};
use crate::over::{Over, asked_link};
use crate::reading::{ReadFault, read_all};
use crate::session::run_session;
use crate::writing::{WriteFault, write_all};
use pg_errors::Error;
use pg_gen::{gen_session, summary_text};
use pg_text::{Report, Session, TextFault, error_text, report_text, session_text};
use pg_types::{Blob, OutOfMemory};
use pg_wire::{Link, Sink, Source};
use std::alloc::Global;

/// What is written for words that are none of the program's.
const USAGE: &str = "usage: pgplay play | pipe FILE REPORT | threads | gen N SEED\n";

/// The exit status, and what the session answered where one was played.
#[derive(Drop)]
pub struct Outcome {
    /// 0: the session answered Ok. 1: it answered an error. 2: the words or the text were refused. 3: the
    /// source failed. 4: the sink failed. 5: want of memory.
    pub status: u8,
    pub result: Option<Result<Report, Error>>,
}

/// Runs the program: its words say what to do, the source has the session text, and the sink gets the
/// report. With the one word `play` the text is played over its own link, and the link handed in isn't
/// used; with `pipe` and two words more it is played over the link handed in, and its own isn't used.
/// With `gen` and two numbers a generated session is played over its own link, neither the source nor the
/// link handed in is used, and the sink gets what its report comes to.
pub fn run<S: Source, K: Sink, L: Link>(
    alloc: Global,
    words: &[String],
    source: &mut S,
    sink: &mut K,
    link: &mut L,
) -> Outcome
    ensures { RunContract (record {
      words = map string_bytes words.now;
      source_before = S.state source.old;
      source_after = S.state source.new;
      sink_before = K.state sink.old;
      sink_after = K.state sink.new;
      link_before = L.view link.old;
      link_after = L.view link.new;
      status = result.status;
      result = result.result;
    }) }
{
    if let Some(numbers) = asked_numbers(words) {
        return sum_up(alloc, numbers, sink);
    }
    let Some(over) = asked_link(words) else {
        return refuse(sink, USAGE.as_bytes());
    };
    match read_all(alloc, source) {
        Ok(text) => play(alloc, text, over, sink, link),
        Err(ReadFault::TooLong) => refuse(sink, b"refused length\n"),
        Err(ReadFault::Failed) => without_session(3),
        Err(ReadFault::OutOfMemory) => without_session(5),
    }
}

/// An end without a session and without a text.
fn without_session(status: u8) -> Outcome
    ensures { result ≡ record { status = status; result = None } }
{
    Outcome {
        status,
        result: None,
    }
}

/// Writes why the words or the text are refused.
fn refuse<K: Sink>(sink: &mut K, text: &[u8]) -> Outcome
    ensures status { Written (K.state sink.old) (K.state sink.new) text.now 2 result.status }
    ensures none { result.result ≡ None }
{
    without_session(status_of(sink, text, 2))
}

/// The status where the text due was written whole, else 4 or 5.
fn status_of<K: Sink>(sink: &mut K, text: &[u8], status: u8) -> u8
    ensures { Written (K.state sink.old) (K.state sink.new) text.now status result }
{
    match write_all(sink, text) {
        Ok(()) => status,
        Err(WriteFault::Failed) => 4,
        Err(WriteFault::OutOfMemory) => 5,
    }
}

/// The session of a text. The text is let go then, before the session is played.
fn read_session(alloc: Global, text: Vec<u8>) -> Result<Session, TextFault>
    ensures text { ReadsText text.items result }
    ensures too_long { (result ≡ Err fault.TooLong) ↔ (67108864 < length text.items) }
{
    session_text(alloc, text.as_slice())
}

/// Plays a text, over its own link or the one that was handed in.
fn play<K: Sink, L: Link>(
    alloc: Global,
    text: Vec<u8>,
    over: Over,
    sink: &mut K,
    link: &mut L,
) -> Outcome
    ensures played { PlayedText (IsOver over (L.view link.old) (L.view link.new)) text.items (K.state sink.old) (K.state sink.new)
        result.status result.result }
    ensures unused { result.result ≡ None → L.view link.new ≡ L.view link.old }
{
    match read_session(alloc, text) {
        Ok(session) => match over {
            Over::Own => play_session(alloc, session, sink),
            Over::Handed => pipe_session(alloc, session, sink, link),
        },
        Err(TextFault::TooLong) => refuse(sink, b"refused length\n"),
        Err(TextFault::Line(number)) => refuse_line(alloc, number, sink),
        Err(TextFault::OutOfMemory) => without_session(5),
    }
}

/// Writes which line is refused.
fn refuse_line<K: Sink>(alloc: Global, number: u64, sink: &mut K) -> Outcome
    ensures status { RefusedLine (K.state sink.old) (K.state sink.new) number result.status }
    ensures none { result.result ≡ None }
{
    match format!(in alloc; "refused {number}\n") {
        Ok(text) => refuse(sink, text.as_str().as_bytes()),
        Err(_) => without_session(5),
    }
}

/// Plays a session over its own link.
fn play_own(alloc: Global, session: Session) -> Result<Report, Error>
    requires limit { session.max_bytes < 2 ^ 63 }
    requires new { IsNew session }
    ensures { IsPlayed (session_of session) result }
{
    let Session {
        config,
        scripts,
        turns,
        nonce,
        max_bytes,
        mut link,
    } = session;
    run_session(
        alloc,
        config.as_str(),
        &scripts,
        turns.as_slice(),
        nonce.as_slice(),
        max_bytes,
        &mut link,
    )
}

/// Plays a session over its own link, and writes what it answered.
fn play_session<K: Sink>(alloc: Global, session: Session, sink: &mut K) -> Outcome
    requires limit { session.max_bytes < 2 ^ 63 }
    requires new { IsNew session }
    ensures some { IsSome result.result }
    ensures played { IfSome result.result
        (PlayedSession IsPlayed (session_of session) (K.state sink.old) (K.state sink.new) result.status) }
{
    let result = play_own(alloc, session);
    let status = write_answer(alloc, &result, sink);
    Outcome {
        status,
        result: Some(result),
    }
}

/// Plays a generated session over its own link, and writes what its report comes to.
fn sum_up<K: Sink>(alloc: Global, numbers: Numbers, sink: &mut K) -> Outcome
    requires count { IsCount numbers.commands }
    ensures { SumsUp numbers (K.state sink.old) (K.state sink.new) result.status result.result }
{
    let Ok(session) = gen_session(alloc, numbers.commands, numbers.seed) else {
        return without_session(5);
    };
    let result = play_own(alloc, session);
    let status = write_summary(alloc, &result, sink);
    Outcome {
        status,
        result: Some(result),
    }
}

/// Writes what a report comes to, and gives the status. Where there is none, memory lacked.
fn write_summary<K: Sink>(alloc: Global, answer: &Result<Report, Error>, sink: &mut K) -> u8
    ensures { WritesSummary (K.state sink.old) (K.state sink.new) result answer.now }
{
    match answer {
        Ok(report) => write_text(sink, summary_text(alloc, report), 0),
        Err(_) => 5,
    }
}

/// Plays a session over the link handed in, and writes what it answered.
fn pipe_session<K: Sink, L: Link>(
    alloc: Global,
    session: Session,
    sink: &mut K,
    link: &mut L,
) -> Outcome
    requires limit { session.max_bytes < 2 ^ 63 }
    ensures some { IsSome result.result }
    ensures played { IfSome result.result
        (PlayedSession (IsPiped (L.view link.old) (L.view link.new)) (session_of session) (K.state sink.old) (K.state sink.new) result.status) }
{
    let Session {
        config,
        scripts,
        turns,
        nonce,
        max_bytes,
        link: _,
    } = session;
    let result = run_session(
        alloc,
        config.as_str(),
        &scripts,
        turns.as_slice(),
        nonce.as_slice(),
        max_bytes,
        link,
    );
    let status = write_answer(alloc, &result, sink);
    Outcome {
        status,
        result: Some(result),
    }
}

/// Writes the report or the error, and gives the status.
fn write_answer<K: Sink>(alloc: Global, answer: &Result<Report, Error>, sink: &mut K) -> u8
    ensures { Answered (K.state sink.old) (K.state sink.new) result answer.now }
{
    match answer {
        Ok(report) => write_text(sink, report_text(alloc, report), 0),
        Err(error) => write_failure(alloc, error, sink),
    }
}

/// Writes the error, unless it is want of memory, and gives the status.
fn write_failure<K: Sink>(alloc: Global, error: &Error, sink: &mut K) -> u8
    ensures { Answered (K.state sink.old) (K.state sink.new) result (Err error.now) }
{
    match error {
        Error::OutOfMemory => 5,
        _ => write_text(sink, error_text(alloc, error), 1),
    }
}

/// Writes a text that could be made, and gives the status.
fn write_text<K: Sink>(sink: &mut K, text: Result<Blob, OutOfMemory>, status: u8) -> u8
    ensures { (due : List ℕ) → IfOk text (λ made. made ≡ due)
        → Written (K.state sink.old) (K.state sink.new) due status result }
{
    match text {
        Ok(text) => status_of(sink, text.as_slice(), status),
        Err(OutOfMemory) => 5,
    }
}
