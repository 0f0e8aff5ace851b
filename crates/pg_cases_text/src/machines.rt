//! Machines as texts.

use pg_machine::machine_of;
use std::alloc::{AllocError, Global};

/// The words as the lines of a text, the last without a line feed.
fn text_of(alloc: Global, lines: &[Vec<u8>]) -> Result<Vec<u8>, AllocError> {
    let mut text = Vec::new(alloc);
    for (place, line) in lines.iter().enumerate() {
        if place > 0 {
            text.push(b'\n')?;
        }
        text.extend_from_slice(line.as_slice())?;
    }
    Ok(text)
}

/// The machine that the lines say, or why they say none. They stand behind the first word.
pub(crate) fn tell(alloc: Global, words: &[Vec<u8>], out: &mut String) -> Result<(), AllocError> {
    let text = text_of(alloc, words.get(1..).unwrap_or(&[]))?;
    match machine_of(alloc, text.as_slice()) {
        Ok(file) => write!(out, " {file:?}"),
        Err(fault) => write!(out, " {fault}"),
    }
}
