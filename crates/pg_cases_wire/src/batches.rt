//! Headers, and what the codec cuts off the received bytes.

use bytes::BytesMut;
use pg_types::OutOfMemory;
use pg_wire::{BackendMessage, BackendMessages, Header, PostgresCodec, WireFault};
use std::alloc::{AllocError, Global};

fn tell_parsed(header: Header, out: &mut String) -> Result<(), AllocError> {
    write!(out, " {:?} {}", char::from(header.tag()), header.len())
}

pub(crate) fn tell_fault(fault: WireFault, out: &mut String) -> Result<(), AllocError> {
    write!(out, " refused {fault:?}")
}

/// The header at the front of bytes.
pub(crate) fn tell_header(bytes: &[u8], out: &mut String) -> Result<(), AllocError> {
    match Header::parse(bytes) {
        Ok(Some(header)) => tell_parsed(header, out),
        Ok(None) => out.push_str(" incomplete"),
        Err(fault) => tell_fault(fault, out),
    }
}

fn tell_shared(
    shared: &Result<BackendMessages, OutOfMemory>,
    out: &mut String,
) -> Result<(), AllocError> {
    match shared {
        Ok(shared) => write!(out, " of {};", shared.len()),
        Err(OutOfMemory) => Err(AllocError),
    }
}

/// How many messages a batch holds, by a second look at it.
fn tell_count(messages: &BackendMessages, out: &mut String) -> Result<(), AllocError> {
    let shared = messages.share();
    tell_shared(&shared, out)
}

fn tell_normal(
    messages: &BackendMessages,
    is_whole: bool,
    out: &mut String,
) -> Result<(), AllocError> {
    out.push_str(if is_whole {
        " whole reply"
    } else {
        " part of a reply"
    })?;
    tell_count(messages, out)
}

fn tell_batch(
    answer: &Result<Option<BackendMessage>, WireFault>,
    out: &mut String,
) -> Result<(), AllocError> {
    match answer {
        Ok(Some(BackendMessage::Async(_))) => out.push_str(" message aside;"),
        Ok(
            Some(
                BackendMessage::Normal {
                    messages,
                    request_complete,
                },
            ),
        ) => tell_normal(messages, *request_complete, out),
        Ok(None) => out.push_str(" nothing;"),
        Err(fault) => tell_fault(*fault, out),
    }
}

fn tell_next(buffer: &mut BytesMut, out: &mut String) -> Result<(), AllocError> {
    let answer = PostgresCodec::decode(buffer);
    tell_batch(&answer, out)
}

/// What is cut off the front, four times.
pub(crate) fn tell(alloc: Global, bytes: &[u8], out: &mut String) -> Result<(), AllocError> {
    let mut buffer = BytesMut::copy_from_slice(alloc, bytes)?;
    for _ in 0..4 {
        tell_next(&mut buffer, out)?;
    }
    Ok(())
}
