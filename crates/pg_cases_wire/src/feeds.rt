//! A server, fed with pieces of bytes: what it says to each.

use crate::told::Told;
use bytes::BytesMut;
use pg_cases::words::{at, text_at};
use pg_cases::written;
use pg_server::{Echo, Handler, Server};
use pg_types::Blob;
use std::alloc::{AllocError, Global};

/// AuthenticationOk and ReadyForQuery.
pub(crate) const STARTUP: &[u8] = b"R\0\0\0\x08\0\0\0\0Z\0\0\0\x05I";

/// The words from this place on.
pub(crate) fn from(words: &[Vec<u8>], place: usize) -> &[Vec<u8>] {
    words.get(place..).unwrap_or(&[])
}

/// What is said to one piece, and the fault.
fn tell_piece<H: Handler>(
    alloc: Global,
    server: &mut Server<H>,
    piece: &[u8],
    out: &mut String,
) -> Result<(), AllocError> {
    let mut said = BytesMut::new(alloc);
    let fed = server.feed(piece, &mut said);
    written::tell(said.as_slice(), out)?;
    match fed {
        Ok(()) => Ok(()),
        Err(fault) => write!(out, " {fault:?}"),
    }
}

/// What a server with this handler and startup says to each piece, or why it can't be made.
fn tell_pieces<H: Handler + Drop>(
    alloc: Global,
    handler: H,
    startup: &[u8],
    pieces: &[Vec<u8>],
    out: &mut String,
) -> Result<(), AllocError> {
    let Ok(startup) = Blob::from_slice(alloc, startup) else {
        return Err(AllocError);
    };
    let mut server = match Server::new(alloc, handler, startup) {
        Ok(server) => server,
        Err(fault) => return write!(out, " {fault:?}"),
    };
    for piece in pieces {
        tell_piece(alloc, &mut server, piece.as_slice(), out)?;
    }
    Ok(())
}

/// Feeds a server. The first word says which: one that echoes, one whose handler the next two words tell, or one whose
/// startup are the bytes of the next.
pub fn tell(alloc: Global, words: &[Vec<u8>], out: &mut String) -> Result<(), AllocError> {
    match text_at(words, 0) {
        "feed" => tell_pieces(alloc, Echo::new(alloc), STARTUP, from(words, 1), out),
        "told" => {
            let handler = Told::of(alloc, from(words, 1))?;
            tell_pieces(alloc, handler, STARTUP, from(words, 3), out)
        }
        _ => tell_pieces(alloc, Echo::new(alloc), at(words, 1), from(words, 2), out),
    }
}
