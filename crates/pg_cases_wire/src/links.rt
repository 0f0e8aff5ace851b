//! A link to a server: what each of its calls answers.

ghost use Rattle.std.specs.Prelude.{◌<◌};

use crate::feeds::{STARTUP, from};
use crate::told::Told;
use pg_cases::words::{text, text_at};
use pg_cases::written;
use pg_server::{Echo, Handler, Server, ServerLink};
use pg_types::Blob;
use pg_wire::{Link, LinkRead, LinkWrite};
use std::alloc::{AllocError, Global};

/// How many bytes a read gives at most.
const LONGEST: usize = 100;

/// The number that a word says, 1 where it says none.
fn number(word: &str) -> usize
    ensures { 0 < result }
{
    word.parse::<usize>().unwrap_or(1).max(1)
}

fn tell_read<L: Link>(link: &mut L, out: &mut String) -> Result<(), AllocError> {
    let mut bytes = [0u8; LONGEST];
    match link.read(&mut bytes) {
        LinkRead::Got(n) => written::tell(&bytes[..n], out),
        answer => write!(out, " {answer:?}"),
    }
}

fn tell_write<L: Link>(link: &mut L, bytes: &[u8], out: &mut String) -> Result<(), AllocError> {
    if bytes.is_empty() {
        return out.push_str(" nothing");
    }
    match link.write(bytes) {
        LinkWrite::Took(n) => write!(out, " {n}"),
        answer => write!(out, " {answer:?}"),
    }
}

/// Makes the call that a word names, and tells what it answers. Any other word is written.
fn tell_call<H: Handler>(
    link: &mut ServerLink<H>,
    word: &[u8],
    out: &mut String,
) -> Result<(), AllocError> {
    match text(word) {
        "read" => tell_read(link, out),
        "wait" => write!(out, " {:?}", link.wait()),
        "flush" => write!(out, " {:?}", link.flush()),
        "shutdown" => write!(out, " {:?}", link.shutdown()),
        "quiet" => write!(out, " {}", link.quiet()),
        "fault" => write!(out, " {:?}", link.fault()),
        _ => tell_write(link, word, out),
    }
}

/// Makes a link that gives and takes as many bytes as the first two words say, and the calls of the others.
fn tell_calls<H: Handler + Drop>(
    alloc: Global,
    handler: H,
    words: &[Vec<u8>],
    out: &mut String,
) -> Result<(), AllocError> {
    let cut = number(text_at(words, 0));
    let room = number(text_at(words, 1));
    let Ok(startup) = Blob::from_slice(alloc, STARTUP) else {
        return Err(AllocError);
    };
    let server = match Server::new(alloc, handler, startup) {
        Ok(server) => server,
        Err(fault) => return write!(out, " {fault:?}"),
    };
    let mut link = ServerLink::new(alloc, server, cut, room);
    for word in from(words, 2) {
        tell_call(&mut link, word.as_slice(), out)?;
    }
    Ok(())
}

/// A link to a server that echoes, or to one whose handler the next two words tell.
pub fn tell(alloc: Global, words: &[Vec<u8>], out: &mut String) -> Result<(), AllocError> {
    match text_at(words, 0) {
        "link" => tell_calls(alloc, Echo::new(alloc), from(words, 1), out),
        _ => {
            let handler = Told::of(alloc, from(words, 1))?;
            tell_calls(alloc, handler, from(words, 3), out)
        }
    }
}
