//! Connections that are opened.

ghost use Rattle.pg_open.specs.Opening.{IsOpening};
ghost use Rattle.pg_cases_login.specs.Around.{around};

use crate::connector::{Connector, Stream};
use crate::endings::{tell_choice, tell_chosen, tell_error, tell_link};
use crate::setting;
use futures::task::Poll;
use pg_cases::words::{at, text_at};
use pg_cases::written;
use pg_config::Config;
use pg_connect::Connection;
use pg_errors::Error;
use pg_open::{ConnectRaw, MaybeTls, OpenStage, Opened, connect_raw};
use pg_wire::{LinkWait, MemoryLink};
use std::alloc::{AllocError, Global};

/// How often a case is polled at most.
const POLLS: u32 = 9;

/// The settings that the server reported.
fn tell_parameters(
    connection: &Connection<MaybeTls<MemoryLink, Stream>>,
    out: &mut String,
) -> Result<(), AllocError> {
    for i in 0..9 {
        if let Some((name, value)) = connection.parameter_at(i) {
            write!(out, " {name}={value}")?;
        }
    }
    Ok(())
}

/// Whether these bytes are what the link took, and then the stream over it.
fn is_what_went(sent: &[u8], link: &MaybeTls<MemoryLink, Stream>) -> bool {
    match link {
        MaybeTls::Raw(link) => sent == link.taken(),
        MaybeTls::Tls(stream) => {
            let asked = match &stream.under {
                Some(link) => link.taken(),
                None => b"",
            };
            sent.starts_with(asked)
                && sent.ends_with(stream.inside.taken())
                && sent.len() == asked.len().saturating_add(stream.inside.taken().len())
        }
    }
}

/// The connection behind its startup: the key, the reports, what the links took, whether that is what is said to have been
/// sent, and what came behind ReadyForQuery.
fn tell_opened(opened: &Opened<MemoryLink, Connector>, out: &mut String) -> Result<(), AllocError> {
    let info = &opened.info;
    write!(out, " opened {} {}", info.process_id, info.secret_key)?;
    write!(out, " {:?} {:?}", info.ssl_mode, info.ssl_negotiation)?;
    tell_parameters(&opened.connection, out)?;
    tell_chosen(&opened.connection.link, out)?;
    if !is_what_went(opened.sent.as_slice(), &opened.connection.link) {
        out.push_str(" but sent")?;
        written::tell(opened.sent.as_slice(), out)?;
    }
    let streams = &opened.connection.streams;
    write!(out, " notices {} left", streams.delayed.len())?;
    written::tell(streams.buffer.as_slice(), out)
}

/// What the links took where it stands.
fn tell_stage(
    stage: &OpenStage<MemoryLink, Connector>,
    out: &mut String,
) -> Result<(), AllocError> {
    match stage {
        OpenStage::Fresh(link, _) => tell_link(link, out),
        OpenStage::Choosing(choice) => tell_choice(choice, out),
        OpenStage::Starting(starting) => tell_chosen(&starting.link, out),
        OpenStage::Over(Some(link)) => tell_chosen(link, out),
        OpenStage::Over(None) => Ok(()),
    }
}

/// A poll that was pending: whether it moved, how often the link wasn't ready, and what a wait answers.
fn tell_pending(
    raw: &mut ConnectRaw<MemoryLink, Connector>,
    out: &mut String,
) -> Result<LinkWait, AllocError>
    requires open { IsOpening around raw.old.settings raw.old.stage }
    ensures open { IsOpening around raw.new.settings raw.new.stage }
{
    out.push_str(if raw.moved() { " moved" } else { " still" })?;
    let quiet = raw.quiet();
    let wait = raw.wait();
    write!(out, " {quiet} {wait:?}")?;
    Ok(wait)
}

/// What the last poll answered; behind an error what the links took where it stood.
fn tell_answer(
    answer: &Result<Opened<MemoryLink, Connector>, Error>,
    stage: &OpenStage<MemoryLink, Connector>,
    out: &mut String,
) -> Result<(), AllocError> {
    match answer {
        Ok(opened) => tell_opened(opened, out),
        Err(error) => {
            tell_error(error, out)?;
            tell_stage(stage, out)
        }
    }
}

/// The same of an answer that is owned here alone.
fn tell_ready(
    answer: Result<Opened<MemoryLink, Connector>, Error>,
    stage: &OpenStage<MemoryLink, Connector>,
    out: &mut String,
) -> Result<(), AllocError> {
    tell_answer(&answer, stage, out)
}

/// Polls until it answers, or until the link has nothing to wait for.
fn tell_polls(
    alloc: Global,
    raw: ConnectRaw<MemoryLink, Connector>,
    out: &mut String,
) -> Result<(), AllocError>
    requires open { IsOpening around raw.settings raw.stage }
{
    let mut raw = raw;
    'polls: for _ in 0..POLLS {
        match raw.poll(alloc) {
            Poll::Ready(answer) => return tell_ready(answer, &raw.stage, out),
            Poll::Pending => {
                if tell_pending(&mut raw, out)? != LinkWait::Ready {
                    break;
                }
            }
        }
    }
    out.push_str(" waits")?;
    tell_stage(&raw.stage, out)
}

/// Opens a connection by the words: the first one is `open`, or `nameless` where the host has no name, and may name a limit
/// on the bytes that are given; then the connection string, the nonce, the connector and what the server gives.
pub(crate) fn tell(alloc: Global, words: &[Vec<u8>], out: &mut String) -> Result<(), AllocError> {
    let config = match Config::from_str(alloc, text_at(words, 1)) {
        Ok(config) => config,
        Err(error) => return tell_error(&error, out),
    };
    let (kind, limit) = match text_at(words, 0).split_once('=') {
        Some((kind, limit)) => (kind, limit.parse::<u64>().unwrap_or(0)),
        None => (text_at(words, 0), 1 << 20),
    };
    let rest = words.get(4..).unwrap_or(&[]);
    let (link, connector) = setting::read(alloc, at(words, 3), rest)?;
    let raw = connect_raw(
        link,
        connector,
        kind != "nameless",
        &config,
        at(words, 2),
        limit.min(1 << 20),
    );
    tell_polls(alloc, raw, out)
}
