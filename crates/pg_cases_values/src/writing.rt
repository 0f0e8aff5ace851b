//! Values that are written.

use crate::refusal;
use bytes::BytesMut;
use pg_cases::words::{at, text_at};
use pg_cases::written;
use pg_types::{Blob, IsNull, OutOfMemory, Text, ToSql, Type, Value, ValueFault};
use std::alloc::{AllocError, Global};

/// What stands in the buffer before a value is written.
const BEFORE: &[u8] = b"x";

fn tell_answer(answer: Result<IsNull, ValueFault>, out: &mut String) -> Result<(), AllocError> {
    match answer {
        Ok(IsNull::Yes) => out.push_str(" null"),
        Ok(IsNull::No) => Ok(()),
        Err(fault) => refusal::tell(fault, out),
    }
}

/// What was written behind that.
fn tell_behind(buffer: &[u8], out: &mut String) -> Result<(), AllocError> {
    match buffer.strip_prefix(BEFORE) {
        Some([]) => Ok(()),
        Some(behind) => written::tell(behind, out),
        None => out.push_str(" lost"),
    }
}

/// What a value gives under a type.
fn tell_value<T: ToSql>(
    alloc: Global,
    value: &T,
    ty: &Type,
    out: &mut String,
) -> Result<(), AllocError> {
    let mut buffer = BytesMut::copy_from_slice(alloc, BEFORE)?;
    let answer = value.to_sql_checked(ty, &mut buffer);
    let told = tell_answer(answer, out);
    tell_behind(buffer.as_slice(), out).and(told)
}

/// A copy of a text.
fn text_of(alloc: Global, word: &str) -> Result<Text, OutOfMemory> {
    let text = Text::from_str(alloc, word)?;
    text.copy(alloc)
}

fn tell_text(alloc: Global, word: &str, ty: &Type, out: &mut String) -> Result<(), AllocError> {
    match text_of(alloc, word) {
        Ok(text) => tell_value(alloc, &text, ty, out),
        Err(OutOfMemory) => Err(AllocError),
    }
}

/// A copy of bytes.
fn blob_of(alloc: Global, word: &[u8]) -> Result<Blob, OutOfMemory> {
    let blob = Blob::from_slice(alloc, word)?;
    blob.copy(alloc)
}

fn tell_blob(alloc: Global, word: &[u8], ty: &Type, out: &mut String) -> Result<(), AllocError> {
    match blob_of(alloc, word) {
        Ok(blob) => tell_value(alloc, &blob, ty, out),
        Err(OutOfMemory) => Err(AllocError),
    }
}

fn tell_int(alloc: Global, word: &str, ty: &Type, out: &mut String) -> Result<(), AllocError> {
    let value = match word.parse::<i64>() {
        Ok(n) => Value::Int(n),
        Err(_) => Value::Null,
    };
    tell_value(alloc, &value, ty, out)
}

fn tell_small(
    alloc: Global,
    rust: &str,
    word: &str,
    ty: &Type,
    out: &mut String,
) -> Result<(), AllocError> {
    match rust {
        "bool" => tell_value(alloc, &(word == "true"), ty, out),
        "i8" => tell_value(alloc, &word.parse::<i8>().unwrap_or(0), ty, out),
        "i16" => tell_value(alloc, &word.parse::<i16>().unwrap_or(0), ty, out),
        "i32" => tell_value(alloc, &word.parse::<i32>().unwrap_or(0), ty, out),
        "i64" => tell_value(alloc, &word.parse::<i64>().unwrap_or(0), ty, out),
        "u32" => tell_value(alloc, &word.parse::<u32>().unwrap_or(0), ty, out),
        _ => tell_value(alloc, &word.parse::<i16>().ok(), ty, out),
    }
}

fn tell_under(
    alloc: Global,
    words: &[Vec<u8>],
    ty: &Type,
    out: &mut String,
) -> Result<(), AllocError> {
    let word = text_at(words, 3);
    match text_at(words, 1) {
        "&str" => tell_value(alloc, &word, ty, out),
        "Text" => tell_text(alloc, word, ty, out),
        "&[u8]" => tell_value(alloc, &at(words, 3), ty, out),
        "Blob" => tell_blob(alloc, at(words, 3), ty, out),
        "Value" => tell_int(alloc, word, ty, out),
        rust => tell_small(alloc, rust, word, ty, out),
    }
}

/// What a value gives: its Rust type, the oid of the type, and the value.
pub(crate) fn tell(alloc: Global, words: &[Vec<u8>], out: &mut String) -> Result<(), AllocError> {
    let oid = text_at(words, 2).parse::<u32>().unwrap_or(0);
    match Type::from_oid(alloc, oid) {
        Ok(Some(ty)) => tell_under(alloc, words, &ty, out),
        Ok(None) => out.push_str(" no type"),
        Err(OutOfMemory) => Err(AllocError),
    }
}
