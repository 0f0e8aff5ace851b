//! What is said on standard error. Where that can't be written, nothing is said.

use crate::reason::{Reason, code_in_form, message};
use std::alloc::Global;
use std::io;
use std::io::Eprint;

/// Says why a program ends with another status than 0: `message`, and behind it the SQLSTATE of what a session answered, or what
/// the system said of the file.
pub fn tell<R: Eprint>(
    rt: &R,
    alloc: Global,
    program: &str,
    file: &str,
    reason: Reason<'_>,
    system: Option<&io::Error>,
) {
    match message(alloc, program, file, reason) {
        Ok(text) => say(rt, text.as_str(), code_of(reason), system),
        Err(_) => tell_no_memory(rt, program),
    }
}

/// Says that memory lacked. It takes none.
fn tell_no_memory<R: Eprint>(rt: &R, program: &str) {
    let _said = eprintln!(rt; "{program}: out of memory");
}

/// The SQLSTATE of what a session answered.
fn code_of<'a>(reason: Reason<'a>) -> Option<&'a str> {
    match reason {
        Reason::Session(error) => code_in_form(error),
        _ => None,
    }
}

/// A line, with what is known besides.
fn say<R: Eprint>(rt: &R, text: &str, code: Option<&str>, system: Option<&io::Error>) {
    let _said = match (code, system) {
        (Some(code), _) => eprintln!(rt; "{text}: SQLSTATE {code}"),
        (None, Some(error)) => eprintln!(rt; "{text}: {error}"),
        (None, None) => eprintln!(rt; "{text}"),
    };
}
