//! The link and the connector of a case.

use crate::connector::Connector;
use pg_cases::words::text;
use pg_types::{Blob, OutOfMemory};
use pg_wire::MemoryLink;
use std::alloc::{AllocError, Global};

/// How many bytes a link gives or takes at once.
const PIECE: usize = 8192;

/// The words before and behind the first `:`.
fn split(words: &[Vec<u8>]) -> (&[Vec<u8>], &[Vec<u8>]) {
    for place in 0..words.len() {
        if text(words[place].as_slice()) == ":" {
            return (&words[..place], &words[place + 1..]);
        }
    }
    (words, &[])
}

/// A link that gives these words, each behind a frame that gives the turn, and takes all.
fn link_of(alloc: Global, words: &[Vec<u8>]) -> Result<MemoryLink, AllocError> {
    let mut plan = Vec::new(alloc);
    for word in words {
        plan.push(Vec::from_slice(alloc, word.as_slice())?)?;
    }
    Ok(MemoryLink::new(alloc, plan, PIECE, PIECE, false))
}

/// The connector that a word names, over a stream that gives these words.
fn connector_of(alloc: Global, word: &[u8], inside: &[Vec<u8>]) -> Result<Connector, AllocError> {
    let hash = match word {
        [b'=', hash @ ..] => match Blob::from_slice(alloc, hash) {
            Ok(hash) => Some(hash),
            Err(OutOfMemory) => return Err(AllocError),
        },
        _ => None,
    };
    let fails = text(word) == "fails";
    Ok(Connector {
        can_connect: text(word) != "none",
        inside: if fails {
            None
        } else {
            Some(link_of(alloc, inside)?)
        },
        hash,
    })
}

/// The link and the connector: the connector's word, and what the server gives without and inside TLS, with `:` between.
pub(crate) fn read(
    alloc: Global,
    connector: &[u8],
    words: &[Vec<u8>],
) -> Result<(MemoryLink, Connector), AllocError> {
    let (outside, inside) = split(words);
    Ok((
        link_of(alloc, outside)?,
        connector_of(alloc, connector, inside)?,
    ))
}
