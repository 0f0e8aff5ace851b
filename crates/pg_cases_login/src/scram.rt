//! Dialogues of SCRAM-SHA-256.

use pg_cases::words::{at, text_at};
use pg_cases::written;
use pg_scram::{ChannelBinding, ScramFault, ScramSha256, ScramSha256Final};
use pg_types::{Blob, OutOfMemory};
use std::alloc::{AllocError, Global};

// The password of RFC 7677, section 3.
const PASSWORD: &[u8] = b"pencil";

const NONCE: &[u8] = b"abcdefghijklmnopqrstuvwx";

// The server's first message where a case is about its last one. The salt is that of RFC 7677.
const CHALLENGE: &[u8] = b"r=abcdefghijklmnopqrstuvwxSERVER,s=W22ZaJ0SNY7soEsUEjb6gQ==,i=1";

fn tell_fault(fault: &ScramFault, out: &mut String) -> Result<(), AllocError> {
    match fault {
        ScramFault::ServerError(text) => write!(out, " refused ServerError {:?}", text.as_str()),
        _ => write!(out, " refused {fault:?}"),
    }
}

fn tell_end(end: &Result<(), ScramFault>, out: &mut String) -> Result<(), AllocError> {
    match end {
        Ok(()) => out.push_str(" accepted"),
        Err(fault) => tell_fault(fault, out),
    }
}

fn tell_finished(
    alloc: Global,
    last: ScramSha256Final,
    verdict: &[u8],
    out: &mut String,
) -> Result<(), AllocError> {
    let end = last.finish(alloc, verdict);
    tell_end(&end, out)
}

/// The client's last message, and what it says to the server's.
fn tell_last(
    alloc: Global,
    last: ScramSha256Final,
    verdict: &[u8],
    out: &mut String,
) -> Result<(), AllocError> {
    let told = written::tell(last.message(), out);
    tell_finished(alloc, last, verdict, out).and(told)
}

fn tell_reply(
    alloc: Global,
    reply: Result<ScramSha256Final, ScramFault>,
    verdict: &[u8],
    out: &mut String,
) -> Result<(), AllocError> {
    match reply {
        Ok(last) => tell_last(alloc, last, verdict, out),
        Err(fault) => tell_fault(&fault, out),
    }
}

/// The state with the client's first message.
fn opened(alloc: Global, binding: ChannelBinding) -> Result<ScramSha256, AllocError> {
    match ScramSha256::new(alloc, PASSWORD, binding, NONCE) {
        Ok(scram) => Ok(scram),
        Err(_) => Err(AllocError),
    }
}

fn tell_under(
    alloc: Global,
    binding: ChannelBinding,
    challenge: &[u8],
    verdict: &[u8],
    out: &mut String,
) -> Result<(), AllocError> {
    let scram = opened(alloc, binding)?;
    let told = written::tell(scram.message(), out);
    tell_reply(alloc, scram.update(alloc, challenge), verdict, out).and(told)
}

fn binding_of(alloc: Global, name: &str, hash: &[u8]) -> Result<ChannelBinding, OutOfMemory> {
    match name {
        "unsupported" => Ok(ChannelBinding::Unsupported),
        "unrequested" => Ok(ChannelBinding::Unrequested),
        _ => Ok(ChannelBinding::TlsServerEndPoint(Blob::from_slice(alloc, hash)?)),
    }
}

/// What the client says and how the dialogue ends: the binding, the server's two messages, and the hash of
/// its certificate where the binding has one.
pub(crate) fn tell(alloc: Global, words: &[Vec<u8>], out: &mut String) -> Result<(), AllocError> {
    match binding_of(alloc, text_at(words, 1), at(words, 4)) {
        Ok(binding) => tell_under(alloc, binding, at(words, 2), at(words, 3), out),
        Err(OutOfMemory) => Err(AllocError),
    }
}

fn tell_taken(
    reply: &Result<ScramSha256Final, ScramFault>,
    out: &mut String,
) -> Result<(), AllocError> {
    match reply {
        Ok(_) => out.push_str(" taken"),
        Err(fault) => tell_fault(fault, out),
    }
}

/// Whether the server's first message is taken.
pub(crate) fn tell_challenge(
    alloc: Global,
    challenge: &[u8],
    out: &mut String,
) -> Result<(), AllocError> {
    let scram = opened(alloc, ChannelBinding::Unsupported)?;
    let reply = scram.update(alloc, challenge);
    tell_taken(&reply, out)
}

fn tell_judged(
    alloc: Global,
    reply: Result<ScramSha256Final, ScramFault>,
    verdict: &[u8],
    out: &mut String,
) -> Result<(), AllocError> {
    match reply {
        Ok(last) => tell_finished(alloc, last, verdict, out),
        Err(fault) => tell_fault(&fault, out),
    }
}

/// Whether the server's last message is accepted.
pub(crate) fn tell_verdict(
    alloc: Global,
    verdict: &[u8],
    out: &mut String,
) -> Result<(), AllocError> {
    let scram = opened(alloc, ChannelBinding::Unsupported)?;
    tell_judged(alloc, scram.update(alloc, CHALLENGE), verdict, out)
}
