//! What the program gives: its status and its output.

use pg_tool::{Session, run, session_text};
use pg_wire::{MemoryLink, MemorySink, MemorySource};
use std::alloc::{AllocError, Global};
use std::str;

/// What stands behind the first word of the program: two names, or the numbers that the text says.
fn behind<'a>(word: &str, text: &'a str) -> &'a str {
    match word {
        "pipe" => "FILE REPORT",
        "gen" => match text.strip_suffix("\n") {
            Some(numbers) => numbers,
            None => text,
        },
        _ => "",
    }
}

/// The words of the program.
fn words_of(alloc: Global, word: &str, more: &str) -> Result<Vec<String>, AllocError> {
    let mut words = Vec::new(alloc);
    words.push(String::from_str(alloc, word)?)?;
    if more.is_empty() {
        return Ok(words);
    }
    for word in more.split(' ') {
        words.push(String::from_str(alloc, word)?)?;
    }
    Ok(words)
}

/// The link that is handed in: that of the text, where it is a session's.
fn link_of(alloc: Global, text: &str) -> MemoryLink {
    match session_text(alloc, text.as_bytes()) {
        Ok(session) => {
            let Session { link, .. } = session;
            link
        }
        Err(_) => MemoryLink::new(alloc, Vec::new(alloc), 1, 1, false),
    }
}

/// The status and what was written.
pub(crate) fn tell_output(status: u8, written: &[u8], out: &mut String) -> Result<(), AllocError> {
    write!(out, "-- status {status}\n")?;
    match str::from_utf8(written) {
        Ok(text) => out.push_str(text),
        Err(_) => out.push_str("not UTF-8\n"),
    }
}

/// Runs the program over this input and this link.
fn tell_run(
    alloc: Global,
    words: &[String],
    source: &mut MemorySource,
    link: &mut MemoryLink,
    out: &mut String,
) -> Result<(), AllocError> {
    let mut sink = MemorySink::new(alloc);
    let status = run(alloc, words, source, &mut sink, link).status;
    tell_output(status, sink.written(), out)
}

/// Appends the status and the output of the program for a word and a text.
pub(crate) fn tell(
    alloc: Global,
    word: &str,
    text: &str,
    out: &mut String,
) -> Result<(), AllocError> {
    let words = words_of(alloc, word, behind(word, text))?;
    let mut source = MemorySource::new(Vec::from_slice(alloc, text.as_bytes())?);
    let mut link = link_of(alloc, text);
    tell_run(alloc, words.as_slice(), &mut source, &mut link, out)
}
