//! What the link of a session took.

use pg_errors::Error;
use pg_tool::{Report, Session, TextFault, run_session, session_text};
use std::alloc::{AllocError, Global};

/// The largest limit that a link may have.
const MOST: u64 = 9_223_372_036_854_775_807;

/// Plays a session over its link.
fn play(alloc: Global, session: &mut Session) -> Result<Report, Error> {
    if session.max_bytes > MOST {
        return Err(Error::OutOfMemory);
    }
    run_session(
        alloc,
        session.config.as_str(),
        &session.scripts,
        session.turns.as_slice(),
        session.nonce.as_slice(),
        session.max_bytes,
        &mut session.link,
    )
}

/// Whether the report says so, and what the link took, in hex.
fn tell_link(
    alloc: Global,
    answer: &Result<Report, Error>,
    taken: &[u8],
    out: &mut String,
) -> Result<(), AllocError> {
    if let Ok(report) = answer {
        write!(out, "reported {}\n", report.sent.as_slice() == taken)?;
    }
    let text = hex::encode(alloc, taken)?;
    write!(out, "taken {text}\n")
}

fn tell_session(alloc: Global, session: &mut Session, out: &mut String) -> Result<(), AllocError> {
    let answer = play(alloc, session);
    tell_link(alloc, &answer, session.link.taken(), out)
}

fn tell_read(
    alloc: Global,
    read: &mut Result<Session, TextFault>,
    out: &mut String,
) -> Result<(), AllocError> {
    match read {
        Ok(session) => tell_session(alloc, session, out),
        Err(_) => Ok(()),
    }
}

/// Appends what the link took, where the word is `play` and the text isn't refused.
pub(crate) fn tell(
    alloc: Global,
    word: &str,
    text: &str,
    out: &mut String,
) -> Result<(), AllocError> {
    if word != "play" {
        return Ok(());
    }
    let mut read = session_text(alloc, text.as_bytes());
    tell_read(alloc, &mut read, out)
}
