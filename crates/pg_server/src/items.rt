//! Counted items of a frame's body.

ghost use Rattle.std.specs.Prelude.{◌≡◌, IfOk, option_map};
ghost use Rattle.std.specs.Int.{w16, w32};
ghost use Rattle.pg_spec.specs.Bytes.{number_at, signed_at};
ghost use Rattle.pg_spec.specs.ClientFrames as spec;
ghost use Rattle.pg_server.specs.Readings.{listed};

use crate::reading::{number16, number32, signed16, value};
use pg_types::{Blob, OutOfMemory};
use std::alloc::Global;

/// So many type numbers, and the bytes behind them. None where bytes run out.
fn oids(alloc: Global, count: u16, bytes: &[u8]) -> Result<Option<(Vec<u32>, &[u8])>, OutOfMemory>
    ensures { IfOk result (λ read. listed read ≡ spec.items_at count (number_at w32) bytes.now) }
{
    let mut oids = Vec::new(alloc);
    let mut rest = bytes;
    for i in 0..count {
        let Some((oid, behind)) = number32(rest) else {
            return Ok(None);
        };
        if oids.push(oid).is_err() {
            return Err(OutOfMemory);
        }
        rest = behind;
    }
    Ok(Some((oids, rest)))
}

/// A count and so many type numbers, and the bytes behind them. None where bytes run out.
pub(crate) fn counted_oids(
    alloc: Global,
    bytes: &[u8],
) -> Result<Option<(Vec<u32>, &[u8])>, OutOfMemory>
    ensures { IfOk result (λ read. listed read ≡ spec.counted_at (number_at w32) bytes.now) }
{
    match number16(bytes) {
        Some((count, rest)) => oids(alloc, count, rest),
        None => Ok(None),
    }
}

/// So many formats, and the bytes behind them. None where bytes run out.
fn formats(
    alloc: Global,
    count: u16,
    bytes: &[u8],
) -> Result<Option<(Vec<i16>, &[u8])>, OutOfMemory>
    ensures { IfOk result (λ read. listed read ≡ spec.items_at count (signed_at w16) bytes.now) }
{
    let mut formats = Vec::new(alloc);
    let mut rest = bytes;
    for i in 0..count {
        let Some((format, behind)) = signed16(rest) else {
            return Ok(None);
        };
        if formats.push(format).is_err() {
            return Err(OutOfMemory);
        }
        rest = behind;
    }
    Ok(Some((formats, rest)))
}

/// A count and so many formats, and the bytes behind them. None where bytes run out.
pub(crate) fn counted_formats(
    alloc: Global,
    bytes: &[u8],
) -> Result<Option<(Vec<i16>, &[u8])>, OutOfMemory>
    ensures { IfOk result (λ read. listed read ≡ spec.counted_at (signed_at w16) bytes.now) }
{
    match number16(bytes) {
        Some((count, rest)) => formats(alloc, count, rest),
        None => Ok(None),
    }
}

/// Bytes of their own, or null.
fn owned_value(alloc: Global, value: Option<&[u8]>) -> Result<Option<Blob>, OutOfMemory>
    ensures { IfOk result (λ owned. owned ≡ option_map (λ v. v.now) value.entry) }
{
    match value {
        Some(value) => Ok(Some(Blob::from_slice(alloc, value)?)),
        None => Ok(None),
    }
}

/// So many values, and the bytes behind them. None where bytes run out, or a length is below -1.
fn values(
    alloc: Global,
    count: u16,
    bytes: &[u8],
) -> Result<Option<(Vec<Option<Blob>>, &[u8])>, OutOfMemory>
    ensures { IfOk result (λ read. listed read ≡ spec.items_at count spec.value_at bytes.now) }
{
    let mut values = Vec::new(alloc);
    let mut rest = bytes;
    for i in 0..count {
        let Some((item, behind)) = value(rest) else {
            return Ok(None);
        };
        let owned = owned_value(alloc, item)?;
        if values.push(owned).is_err() {
            return Err(OutOfMemory);
        }
        rest = behind;
    }
    Ok(Some((values, rest)))
}

/// A count and so many values, and the bytes behind them. None where bytes run out, or a length is below -1.
pub(crate) fn counted_values(
    alloc: Global,
    bytes: &[u8],
) -> Result<Option<(Vec<Option<Blob>>, &[u8])>, OutOfMemory>
    ensures { IfOk result (λ read. listed read ≡ spec.counted_at spec.value_at bytes.now) }
{
    match number16(bytes) {
        Some((count, rest)) => values(alloc, count, rest),
        None => Ok(None),
    }
}
