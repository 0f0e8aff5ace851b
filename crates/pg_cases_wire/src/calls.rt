//! Calls of a link, in order.

use crate::input::Input;
use crate::output::Output;
use pg_cases::words::text;
use pg_cases::written;
use pg_stream::StreamLink;
use pg_types::OutOfMemory;
use pg_wire::{Link, LinkRead, LinkWrite};
use std::alloc::{AllocError, Global};

/// How many bytes a read gives at most.
const ROOM: usize = 100;

fn tell_read<L: Link>(link: &mut L, len: usize, out: &mut String) -> Result<(), AllocError> {
    let mut bytes = [0u8; ROOM];
    let len = len.clamp(1, ROOM);
    match link.read(&mut bytes[..len]) {
        LinkRead::Got(n) => written::tell(&bytes[..n], out),
        answer => write!(out, " {answer:?}"),
    }
}

fn tell_write<L: Link>(link: &mut L, bytes: &[u8], out: &mut String) -> Result<(), AllocError> {
    if bytes.is_empty() {
        return out.push_str(" nothing");
    }
    match link.write(bytes) {
        LinkWrite::Took(n) => write!(out, " {n}"),
        answer => write!(out, " {answer:?}"),
    }
}

/// Makes the call that a word names, and what it answers.
fn tell_call<L: Link>(link: &mut L, word: &str, out: &mut String) -> Result<(), AllocError> {
    match word.split_once('=') {
        Some(("read", len)) => tell_read(link, len.parse::<usize>().unwrap_or(1), out),
        Some((_, bytes)) => tell_write(link, bytes.as_bytes(), out),
        None => match word {
            "wait" => write!(out, " {:?}", link.wait()),
            "flush" => write!(out, " {:?}", link.flush()),
            "shutdown" => write!(out, " {:?}", link.shutdown()),
            _ => write!(out, " {}", link.quiet()),
        },
    }
}

fn tell_calls<L: Link>(
    link: &mut L,
    words: &[Vec<u8>],
    out: &mut String,
) -> Result<(), AllocError> {
    for word in words {
        tell_call(link, text(word.as_slice()), out)?;
    }
    Ok(())
}

/// The words before and behind the first `:`.
fn split(words: &[Vec<u8>]) -> (&[Vec<u8>], &[Vec<u8>]) {
    for place in 0..words.len() {
        if text(words[place].as_slice()) == ":" {
            return (&words[..place], &words[place + 1..]);
        }
    }
    (words, &[])
}

/// What the reader answers, what the writer answers, and the calls, with `:` between; then what was written.
pub(crate) fn tell(alloc: Global, words: &[Vec<u8>], out: &mut String) -> Result<(), AllocError> {
    let (reads, rest) = split(words);
    let (writes, calls) = split(rest);
    let mut output = Output::new(alloc, writes);
    match StreamLink::new(alloc, Input::new(reads), &mut output) {
        Ok(mut link) => tell_calls(&mut link, calls, out)?,
        Err(OutOfMemory) => return Err(AllocError),
    }
    out.push_str(" |")?;
    written::tell(output.taken.as_slice(), out)?;
    write!(out, " {}", output.flushes)
}
