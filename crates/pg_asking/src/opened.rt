//! Connections that are opened.

use std::alloc::{AllocError, AllocGlobal, Global};
use std::sync::Wait;
use tokio_postgres::{Config, Error, Link, MemoryLink, NoTls, Opened, connect_raw};

/// How many bytes the link gives or takes at once.
const PIECE: usize = 8192;

/// AuthenticationOk, BackendKeyData of the process 1234 and the key 5678, and ReadyForQuery.
const STARTED: &[u8; 28] = b"R\0\0\0\x08\0\0\0\0K\0\0\0\x0c\0\0\x04\xd2\0\0\x16.Z\0\0\0\x05I";

/// A link of a server that starts up, and then gives these words, each behind a frame that gives the turn.
fn link_of(alloc: Global, words: &[Vec<u8>], ends: bool) -> Result<MemoryLink, AllocError> {
    let mut plan = Vec::new(alloc);
    plan.push(Vec::from_slice(alloc, STARTED)?)?;
    for word in words {
        plan.push(Vec::from_slice(alloc, word.as_slice())?)?;
    }
    Ok(MemoryLink::new(alloc, plan, PIECE, PIECE, ends))
}

/// Opens a connection over a link, by a connection string.
pub fn open_over<R: Wait + AllocGlobal, L: Link + Drop>(
    rt: &R,
    config: &str,
    link: L,
) -> Result<Opened<L, NoTls>, Error> {
    let alloc = rt.alloc();
    let config = Config::from_str(alloc, config)?;
    let nonce = b"abcdefghijklmnopqrstuvwx";
    let mut raw = connect_raw(link, NoTls, false, &config, nonce, 1 << 40);
    tokio_postgres::open(rt, alloc, &mut raw)
}

/// Opens a connection to a server that gives these words.
pub fn open<R: Wait + AllocGlobal>(
    rt: &R,
    words: &[Vec<u8>],
    ends: bool,
) -> Result<Opened<MemoryLink, NoTls>, Error> {
    let link = link_of(rt.alloc(), words, ends)?;
    open_over(rt, "user=a", link)
}
