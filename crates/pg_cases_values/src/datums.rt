//! Values that are read, printed, and written again.

use crate::datum_types::type_of;
use bytes::BytesMut;
use pg_cases::written;
use pg_types::{IsNull, OutOfMemory, Type, ValueFault};
use pg_values::{Datum, read_datum, write_datum};
use std::alloc::{AllocError, Global};
use std::mem;

/// The number of a digit in hexadecimal.
fn digit(c: u8) -> u8 {
    match c {
        b'0'..=b'9' => c - b'0',
        b'a'..=b'f' => c - b'a' + 10,
        _ => 0,
    }
}

/// The bytes that are written in hexadecimal.
pub(crate) fn bytes_of(alloc: Global, text: &[u8]) -> Result<Vec<u8>, AllocError> {
    let mut bytes = Vec::new(alloc);
    let mut high = None;
    for &c in text {
        match high {
            None => high = Some(digit(c)),
            Some(first) => {
                bytes.push((first & 15) * 16 + (digit(c) & 15))?;
                high = None;
            }
        }
    }
    Ok(bytes)
}

/// Bytes in hexadecimal.
fn tell_hex(bytes: &[u8], out: &mut String) -> Result<(), AllocError> {
    out.push(' ')?;
    for byte in bytes {
        write!(out, "{byte:02x}")?;
    }
    Ok(())
}

/// What was written: `same` where it is the bytes that the value was read from.
pub(crate) fn tell_written(
    answer: Result<IsNull, ValueFault>,
    bytes: &[u8],
    raw: Option<&[u8]>,
    out: &mut String,
) -> Result<(), AllocError> {
    match (answer, raw) {
        (Ok(IsNull::No), Some(raw)) if bytes == raw => out.push_str(" same"),
        (Ok(IsNull::Yes), None) => out.push_str(" same"),
        (Ok(IsNull::No), _) => tell_hex(bytes, out),
        (Ok(IsNull::Yes), Some(_)) => out.push_str(" null"),
        (Err(fault), _) => write!(out, " {fault:?}"),
    }
}

/// What a value is written as under its type.
fn tell_again(
    alloc: Global,
    ty: &Type,
    value: &Datum,
    raw: Option<&[u8]>,
    out: &mut String,
) -> Result<(), AllocError> {
    let mut bytes = BytesMut::new(alloc);
    let answer = write_datum(value, ty, &mut bytes);
    tell_written(answer, bytes.as_slice(), raw, out)
}

/// What bytes of a type are read as, its text, and how that is written.
fn tell_read(
    alloc: Global,
    ty: &Type,
    raw: Option<&[u8]>,
    out: &mut String,
) -> Result<(), AllocError> {
    match read_datum(alloc, ty, raw) {
        Ok(value) => {
            write!(out, " {value:?}")?;
            let text = format!(in alloc; "{value}")?;
            written::tell(text.as_str().as_bytes(), out)?;
            tell_again(alloc, ty, &value, raw, out)
        }
        Err(fault) => write!(out, " {fault:?}"),
    }
}

/// The type that words say.
pub(crate) fn typed(alloc: Global, words: &str) -> Result<Type, AllocError> {
    match type_of(alloc, words) {
        Ok(ty) => Ok(ty),
        Err(OutOfMemory) => Err(AllocError),
    }
}

/// What the value of bytes in hexadecimal, read under one type, is written as under another.
pub(crate) fn tell_write(
    alloc: Global,
    ty: &str,
    from: &str,
    hex: &[u8],
    out: &mut String,
) -> Result<(), AllocError> {
    let (ty, from) = (typed(alloc, ty)?, typed(alloc, from)?);
    let bytes = bytes_of(alloc, hex)?;
    match read_datum(alloc, &from, Some(bytes.as_slice())) {
        Ok(value) => tell_again(alloc, &ty, &value, None, out),
        Err(fault) => write!(out, " {fault:?}"),
    }
}

/// The value of bytes in hexadecimal under a type; `null` stands for null.
pub(crate) fn tell(alloc: Global, ty: &str, hex: &str, out: &mut String) -> Result<(), AllocError> {
    let ty = typed(alloc, ty)?;
    if hex == "null" {
        return tell_read(alloc, &ty, None, out);
    }
    let bytes = bytes_of(alloc, hex.as_bytes())?;
    tell_read(alloc, &ty, Some(bytes.as_slice()), out)
}

/// How much room a value takes in a list.
pub(crate) fn tell_size(out: &mut String) -> Result<(), AllocError> {
    write!(out, " {}", mem::size_of::<Datum>())
}
