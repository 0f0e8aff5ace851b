//! Arrays of many items.

use crate::datums::{bytes_of, typed};
use pg_cases::words::{at, text_at};
use pg_types::Type;
use pg_values::{Datum, read_datum};
use std::alloc::{AllocError, Global};

/// The bytes of a front, and those of an item so many times.
fn repeated(alloc: Global, front: &[u8], item: &[u8], count: u32) -> Result<Vec<u8>, AllocError> {
    let mut bytes = bytes_of(alloc, front)?;
    let item = bytes_of(alloc, item)?;
    for _ in 0..count {
        bytes.extend_from_slice(item.as_slice())?;
    }
    Ok(bytes)
}

/// How many items an array has.
fn items_len(value: &Datum) -> usize {
    match value {
        Datum::Array { items, .. } => items.as_slice().len(),
        _ => 0,
    }
}

/// How many items bytes are read as.
fn tell_len(alloc: Global, ty: &Type, raw: &[u8], out: &mut String) -> Result<(), AllocError> {
    match read_datum(alloc, ty, Some(raw)) {
        Ok(value) => write!(out, " {}", items_len(&value)),
        Err(fault) => write!(out, " {fault:?}"),
    }
}

/// How many items there are behind a front, where the bytes of one stand so many times. The words are a type, a front, an item and a
/// count.
pub(crate) fn tell(alloc: Global, words: &[Vec<u8>], out: &mut String) -> Result<(), AllocError> {
    let ty = typed(alloc, text_at(words, 1))?;
    let count = text_at(words, 4).parse::<u32>().unwrap_or(0);
    let bytes = repeated(alloc, at(words, 2), at(words, 3), count)?;
    tell_len(alloc, &ty, bytes.as_slice(), out)
}
