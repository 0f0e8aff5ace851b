//! What crossed a link in memory.

use crate::answers::tell_aside;
use pg_cases::written;
use std::alloc::AllocError;
use tokio_postgres::{AsyncMessage, Hub, Line, MaybeTls, MemoryLink, NoTls, StreamOf};

/// The link of a connection that was opened without TLS.
pub type Wired = MaybeTls<MemoryLink, StreamOf<MemoryLink, NoTls>>;

/// A connection over its hub.
pub type Session = Line<Wired, Hub>;

/// The frame in front of these bytes, and what is behind it.
fn cut(bytes: &[u8]) -> Option<(&[u8], &[u8])> {
    let [_, a, b, c, d, ..] = *bytes else {
        return None;
    };
    let len = u32::from_be_bytes([a, b, c, d]) as usize + 1;
    Some((bytes.get(..len)?, bytes.get(len..)?))
}

/// Frames.
fn tell_frames(bytes: &[u8], out: &mut String) -> Result<(), AllocError> {
    let mut rest = bytes;
    for _ in 0..bytes.len() {
        let Some((frame, behind)) = cut(rest) else {
            break;
        };
        written::tell(frame, out)?;
        rest = behind;
    }
    Ok(())
}

/// Messages that no request asked for.
pub fn tell_asides(messages: &[AsyncMessage], out: &mut String) -> Result<(), AllocError> {
    for message in messages {
        tell_aside(message, out)?;
    }
    Ok(())
}

/// What came that no request asked for, and the frames that the server got, but for so many bytes of the startup.
pub fn tell_end(session: &Session, startup: usize, out: &mut String) -> Result<(), AllocError> {
    tell_asides(session.messages.as_slice(), out)?;
    out.push_str(" sent")?;
    match &session.connection.link {
        MaybeTls::Raw(link) => tell_frames(link.taken().get(startup..).unwrap_or(&[]), out),
        MaybeTls::Tls(_) => Ok(()),
    }
}
