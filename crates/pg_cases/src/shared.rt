//! Bytes and whole messages as shared bytes.

use bytes::{Bytes, BytesMut};
use std::alloc::{AllocError, Global};

/// Appends a message.
fn put(tag: u8, body: &[u8], out: &mut BytesMut) -> Result<(), AllocError> {
    let len = body.len().min(100_000) as u32 + 4;
    out.extend_from_slice(&[tag])?;
    out.extend_from_slice(&len.to_be_bytes())?;
    out.extend_from_slice(body)
}

/// The bytes, shared.
fn freeze(bytes: BytesMut) -> Result<Bytes, AllocError> {
    match bytes.freeze() {
        Ok(bytes) => Ok(bytes),
        Err(_) => Err(AllocError),
    }
}

/// The message with this tag and body, of 100,000 bytes at most.
pub fn of_message(alloc: Global, tag: u8, body: &[u8]) -> Result<Bytes, AllocError> {
    let mut bytes = BytesMut::new(alloc);
    put(tag, body, &mut bytes)?;
    freeze(bytes)
}

/// These bytes.
pub fn of_slice(alloc: Global, slice: &[u8]) -> Result<Bytes, AllocError> {
    let bytes = BytesMut::copy_from_slice(alloc, slice)?;
    freeze(bytes)
}
