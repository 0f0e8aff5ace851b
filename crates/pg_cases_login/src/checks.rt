//! A check of a session, over a hub to which a reply is delivered.

ghost use Rattle.pg_client.specs.States.{IsLiveCheck};

use bytes::BytesMut;
use futures::task::Poll;
use pg_cases::words::text_at;
use pg_cases::written;
use pg_client::{SessionCheckState, session_check_state};
use pg_config::TargetSessionAttrs;
use pg_errors::Error;
use pg_hub::{Deliver, Desk, Engine, Hub, Out, Stamp, Take};
use pg_query::Polled;
use pg_wire::{BackendMessage, PostgresCodec};
use std::alloc::{AllocError, Global};

const STAMP: Stamp = Stamp {
    owner: 0,
    command: 0,
    turn: 0,
};

/// What the session is to be.
fn attrs_of(word: &str) -> TargetSessionAttrs {
    match word {
        "read-write" => TargetSessionAttrs::ReadWrite,
        "read-only" => TargetSessionAttrs::ReadOnly,
        _ => TargetSessionAttrs::Any,
    }
}

fn tell_error(error: &Error, out: &mut String) -> Result<(), AllocError> {
    match error.as_db_error() {
        Some(error) => write!(out, "; Db {:?}", error.message()),
        None => write!(out, "; {error:?}"),
    }
}

fn tell_answer(answer: &Result<(), Error>, out: &mut String) -> Result<(), AllocError> {
    match answer {
        Ok(()) => out.push_str("; ok"),
        Err(error) => tell_error(error, out),
    }
}

/// The frame that goes out.
fn tell_part(hub: &mut Hub, out: &mut String) -> Result<(), AllocError> {
    match hub.next_out() {
        Ok(Out::Part(part)) => written::tell(part.as_slice(), out),
        _ => out.push_str(" nothing"),
    }
}

/// Whether the one request was hung up.
fn tell_left(hub: &mut Hub, out: &mut String) -> Result<(), AllocError> {
    match hub.take(0) {
        Ok(Take::Gone) => out.push_str("; hung up"),
        _ => out.push_str("; left open"),
    }
}

/// Delivers the batch in front. Whether it was taken.
fn deliver(hub: &mut Hub, reply: &mut BytesMut) -> bool {
    match PostgresCodec::decode(reply) {
        Ok(
            Some(
                BackendMessage::Normal {
                    messages,
                    request_complete,
                },
            ),
        ) => matches!(&hub.deliver(messages, request_complete), Deliver::Taken),
        _ => false,
    }
}

/// The messages, each a word in hex.
fn reply_of(alloc: Global, words: &[Vec<u8>]) -> Result<BytesMut, AllocError> {
    let mut reply = BytesMut::new(alloc);
    for word in words {
        let bytes = hex::decode(alloc, word.as_slice()).unwrap_or(Vec::new(alloc));
        reply.extend_from_slice(bytes.as_slice())?;
    }
    Ok(reply)
}

/// What the answer is, and whether the request was hung up.
fn tell_answered(
    answer: &Result<(), Error>,
    hub: &mut Hub,
    out: &mut String,
) -> Result<(), AllocError> {
    tell_answer(answer, out)?;
    tell_left(hub, out)
}

/// What the reply makes it answer.
fn tell_reply(
    alloc: Global,
    state: &mut SessionCheckState,
    messages: &[Vec<u8>],
    hub: &mut Hub,
    out: &mut String,
) -> Result<(), AllocError>
    requires { IsLiveCheck state.old }
{
    let mut reply = reply_of(alloc, messages)?;
    if !deliver(hub, &mut reply) {
        return out.push_str("; not delivered");
    }
    match state.poll(alloc, hub, STAMP) {
        Poll::Ready(answer) => tell_answered(&answer, hub, out),
        Poll::Pending => out.push_str("; waits"),
    }
}

/// The frame that was asked, and what was answered without a reply.
fn tell_unasked(
    answer: &Result<(), Error>,
    hub: &mut Hub,
    out: &mut String,
) -> Result<(), AllocError> {
    tell_part(hub, out)?;
    tell_answer(answer, out)
}

/// What a check asks over a hub, and what it answers.
fn tell_over(
    alloc: Global,
    words: &[Vec<u8>],
    hub: &mut Hub,
    out: &mut String,
) -> Result<(), AllocError> {
    let mut state = session_check_state(attrs_of(text_at(words, 0)));
    match state.poll(alloc, hub, STAMP) {
        Poll::Ready(answer) => tell_unasked(&answer, hub, out),
        Poll::Pending => {
            let told = tell_part(hub, out);
            told.and(tell_reply(alloc, &mut state, words.get(1..).unwrap_or(&[]), hub, out))
        }
    }
}

/// What a check asks, and what it answers.
pub(crate) fn tell(alloc: Global, words: &[Vec<u8>], out: &mut String) -> Result<(), AllocError> {
    out.push_str(" asks")?;
    let mut hub = Hub::new(alloc, 0, 0);
    tell_over(alloc, words, &mut hub, out)
}
