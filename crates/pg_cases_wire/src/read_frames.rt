//! A frame in front of some bytes, and how many bytes are left behind it.

use pg_cases::shared;
use pg_cases::words::at;
use pg_server::Frame;
use std::alloc::{AllocError, Global};

fn tell_frame(frame: &Frame, out: &mut String) -> Result<(), AllocError> {
    match frame {
        Frame::Query(text) => write!(out, " Query {:?}", text.as_str()),
        Frame::Parse { name, text, oids } => write!(
            out,
            " Parse {:?} {:?} {:?}",
            name.as_str(),
            text.as_str(),
            oids.as_slice()
        ),
        Frame::Bind { .. } => write!(out, " {frame:?}"),
        Frame::Describe(variant, name) => write!(out, " Describe {variant} {:?}", name.as_str()),
        Frame::Execute(portal, max_rows) => {
            write!(out, " Execute {:?} {max_rows}", portal.as_str())
        }
        Frame::Close(variant, name) => write!(out, " Close {variant} {:?}", name.as_str()),
        Frame::CopyData(piece) => write!(out, " CopyData {:?}", piece.as_slice()),
        Frame::CopyFail(message) => write!(out, " CopyFail {:?}", message.as_str()),
        _ => write!(out, " {frame:?}"),
    }
}

/// The frame in front, what is wrong with it, or that it isn't whole.
pub fn tell(alloc: Global, words: &[Vec<u8>], out: &mut String) -> Result<(), AllocError> {
    let mut bytes = shared::of_slice(alloc, at(words, 1))?;
    match Frame::parse(alloc, &mut bytes) {
        Ok(Some(frame)) => tell_frame(&frame, out)?,
        Ok(None) => out.push_str(" none")?,
        Err(fault) => write!(out, " {fault:?}")?,
    }
    write!(out, " left {}", bytes.len())
}

/// No whole frame stands in front of these bytes.
fn is_short(alloc: Global, bytes: &[u8]) -> Result<bool, AllocError> {
    let mut bytes = shared::of_slice(alloc, bytes)?;
    Ok(matches!(Frame::parse(alloc, &mut bytes), Ok(None)))
}

/// At how many places the bytes can be cut, and the front is no whole frame.
pub fn tell_fronts(alloc: Global, words: &[Vec<u8>], out: &mut String) -> Result<(), AllocError> {
    let bytes = at(words, 1);
    let mut short = 0usize;
    for n in 0..bytes.len() {
        if is_short(alloc, &bytes[..n])? {
            short = short.saturating_add(1);
        }
    }
    write!(out, " {short} of {}", bytes.len())
}
