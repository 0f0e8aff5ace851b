//! A line of standard input.

use crate::words;
use std::alloc::{AllocError, Global};

/// Prints the line, and gives the words of its case. A comment and an empty line have none, and stand as they
/// are.
pub fn words_of(
    alloc: Global,
    line: &str,
    out: &mut String,
) -> Result<Option<Vec<Vec<u8>>>, AllocError> {
    out.push_str(line)?;
    if line.is_empty() || line.starts_with("#") {
        return Ok(None);
    }
    out.push_str(" =>")?;
    Ok(Some(words::read(alloc, line.as_bytes())?))
}
