//! What the programs say on standard error, by an error's variant or by a status.

use crate::named::error_of;
use pg_cases::written;
use pg_diagnostics::{Reason, message, reason_of, tell as say};
use pg_types::OutOfMemory;
use std::alloc::{AllocError, Global};

fn tell_line(line: &Result<String, OutOfMemory>, out: &mut String) -> Result<(), AllocError> {
    match line {
        Ok(line) => written::tell(line.as_str().as_bytes(), out),
        Err(OutOfMemory) => Err(AllocError),
    }
}

/// The line that says this reason.
fn tell_reason(alloc: Global, reason: Reason<'_>, out: &mut String) -> Result<(), AllocError> {
    let line = message(alloc, "pgplay", "query", reason);
    tell_line(&line, out)
}

/// The line for the error of a variant.
pub(crate) fn tell(alloc: Global, words: &[Vec<u8>], out: &mut String) -> Result<(), AllocError> {
    let error = error_of(words);
    tell_reason(alloc, Reason::Session(&error), out)
}

/// The line for a status without an error, where these bytes were written first.
pub(crate) fn tell_status(
    alloc: Global,
    status: u8,
    head: &[u8],
    out: &mut String,
) -> Result<(), AllocError> {
    match reason_of(status, None, head) {
        Some(reason) => tell_reason(alloc, reason, out),
        None => out.push_str(" nothing"),
    }
}

/// The line for the error of a variant, on standard error.
pub(crate) fn tell_aloud(rt: &HostRuntime, words: &[Vec<u8>]) {
    let error = error_of(words);
    say(
        rt,
        rt.alloc(),
        "pgplay",
        "query",
        Reason::Session(&error),
        None,
    );
}
