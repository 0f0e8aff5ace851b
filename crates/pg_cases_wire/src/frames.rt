//! Frames of the client.

use bytes::{Bytes, BytesMut};
use pg_cases::words::{at, text_at};
use pg_cases::{shared, written};
use pg_wire::{
    FrameFault, FrontendMessage, PostgresCodec, StartupParams, bind, cancel_request, close,
    copy_data, copy_done, copy_fail, describe, execute, flush, parse, password_message, query,
    sasl_initial_response, sasl_response, ssl_request, startup_message, sync, terminate,
};
use std::alloc::{AllocError, Global};

// A value of two bytes, and null.
const VALUES: &[u8] = b"\0\0\0\x02hi\xff\xff\xff\xff";

/// The first byte of a word.
fn byte_at(words: &[Vec<u8>], place: usize) -> u8 {
    at(words, place).first().copied().unwrap_or(0)
}

fn number_at(words: &[Vec<u8>], place: usize) -> i32 {
    text_at(words, place).parse::<i32>().unwrap_or(0)
}

fn put_startup(alloc: Global, words: &[Vec<u8>], out: &mut BytesMut) -> Result<(), FrameFault> {
    let mut params = StartupParams::new(alloc);
    match params.push(alloc, text_at(words, 2), text_at(words, 3)) {
        Ok(()) => startup_message(&params, out),
        Err(_) => Err(FrameFault::OutOfMemory),
    }
}

fn item_of(form: &str, bytes: Bytes) -> FrontendMessage {
    match form {
        "raw" => FrontendMessage::Raw(bytes),
        _ => FrontendMessage::CopyData(bytes),
    }
}

/// Appends what a codec encodes: a frame as it is, or a piece of a copy.
fn put_encoded(alloc: Global, words: &[Vec<u8>], out: &mut BytesMut) -> Result<(), FrameFault> {
    let bytes = shared::of_slice(alloc, at(words, 3))?;
    let item = item_of(text_at(words, 2), bytes);
    PostgresCodec::encode(&item, out)
}

/// An oid so many times.
fn oids_of(alloc: Global, count: u32, oid: u32) -> Result<Vec<u32>, AllocError> {
    let mut oids = Vec::new(alloc);
    for _ in 0..count {
        oids.push(oid)?;
    }
    Ok(oids)
}

/// Appends Parse, with so many types of an oid.
fn put_parse(alloc: Global, words: &[Vec<u8>], out: &mut BytesMut) -> Result<(), FrameFault> {
    let count = text_at(words, 4).parse::<u32>().unwrap_or(0);
    let oid = text_at(words, 5).parse::<u32>().unwrap_or(0);
    let oids = oids_of(alloc, count, oid)?;
    parse(text_at(words, 2), text_at(words, 3), oids.as_slice(), out)
}

/// Appends a frame whose writer takes no memory of its own, but that of a statement.
fn put_plain(words: &[Vec<u8>], out: &mut BytesMut) -> Result<(), FrameFault> {
    match text_at(words, 1) {
        "SSLRequest" => ssl_request(out),
        "CancelRequest" => cancel_request(number_at(words, 2), number_at(words, 3), out),
        "Password" => password_message(at(words, 2), out),
        "SASLInitial" => sasl_initial_response(text_at(words, 2), at(words, 3), out),
        "SASL" => sasl_response(at(words, 2), out),
        "Query" => query(text_at(words, 2), out),
        "CopyData" => copy_data(at(words, 2), out),
        "CopyDone" => copy_done(out),
        "CopyFail" => copy_fail(text_at(words, 2), out),
        "Terminate" => terminate(out),
        _ => put_of_statement(words, out),
    }
}

/// Appends Bind with the two values, in binary and as text, and a result in binary.
fn put_bind(portal: &str, statement: &str, out: &mut BytesMut) -> Result<(), FrameFault> {
    bind(portal, statement, &[1, 0], 2, VALUES, 1, out)
}

fn put_of_statement(words: &[Vec<u8>], out: &mut BytesMut) -> Result<(), FrameFault> {
    match text_at(words, 1) {
        "Bind" => put_bind(text_at(words, 2), text_at(words, 3), out),
        "Describe" => describe(byte_at(words, 2), text_at(words, 3), out),
        "Execute" => execute(text_at(words, 2), number_at(words, 3), out),
        "Close" => close(byte_at(words, 2), text_at(words, 3), out),
        "Flush" => flush(out),
        _ => sync(out),
    }
}

fn put(alloc: Global, words: &[Vec<u8>], out: &mut BytesMut) -> Result<(), FrameFault> {
    match text_at(words, 1) {
        "Startup" => put_startup(alloc, words, out),
        "Encode" => put_encoded(alloc, words, out),
        "Parse" => put_parse(alloc, words, out),
        _ => put_plain(words, out),
    }
}

fn tell_fault(answer: Result<(), FrameFault>, out: &mut String) -> Result<(), AllocError> {
    match answer {
        Ok(()) => Ok(()),
        Err(fault) => write!(out, " refused {fault:?}"),
    }
}

fn tell_bytes(bytes: &[u8], out: &mut String) -> Result<(), AllocError> {
    match bytes {
        [] => Ok(()),
        _ => written::tell(bytes, out),
    }
}

/// The bytes of a frame, or why its writer refuses.
pub(crate) fn tell(alloc: Global, words: &[Vec<u8>], out: &mut String) -> Result<(), AllocError> {
    let mut buffer = BytesMut::new(alloc);
    let told = tell_fault(put(alloc, words, &mut buffer), out);
    tell_bytes(buffer.as_slice(), out).and(told)
}
