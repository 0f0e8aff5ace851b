//! The body of each frame (PostgreSQL documentation, "Message Formats").

ghost use Rattle.std.specs.Prelude.{◌≡◌, ℕ, List, [], Some, option_map};
ghost use Rattle.pg_spec.specs.ClientFrames as spec;
ghost use Rattle.pg_server.specs.Frames.{ReadsFrame, ReadsText, IsFrame, frame_view, texts_in};

use crate::binding::bind;
use crate::frame::Frame;
use crate::parsing::parse;
use crate::reading::{signed32, text0};
use pg_types::{Blob, Text, WireFault};
use std::alloc::Global;
use std::str;

/// The frame of a tag and a body, or what is wrong with them: UnknownTag, Layout or NotUtf8.
pub(crate) fn frame_of(alloc: Global, tag: u8, body: &[u8]) -> Result<Frame, WireFault>
    ensures { IsFrame (record { tag = tag; body = body.now }) result }
{
    match tag {
        b'Q' => query(alloc, body),
        b'P' => parse(alloc, body),
        b'B' => bind(alloc, body),
        b'D' => describe(alloc, body),
        b'C' => close(alloc, body),
        b'E' => execute(alloc, body),
        b'S' => empty(Frame::Sync, body),
        b'H' => empty(Frame::Flush, body),
        b'd' => copy_data(alloc, body),
        b'c' => empty(Frame::CopyDone, body),
        b'f' => copy_fail(alloc, body),
        b'X' => empty(Frame::Terminate, body),
        _ => Err(WireFault::UnknownTag),
    }
}

/// A text of its own.
pub(crate) fn owned(alloc: Global, bytes: &[u8]) -> Result<Text, WireFault>
    ensures { ReadsText bytes.now result }
{
    let Ok(text) = str::from_utf8(bytes) else {
        return Err(WireFault::NotUtf8);
    };
    match Text::from_str(alloc, text) {
        Ok(text) => Ok(text),
        Err(_) => Err(WireFault::OutOfMemory),
    }
}

/// Nothing may stand there.
fn empty(frame: Frame, body: &[u8]) -> Result<Frame, WireFault>
    requires { texts_in (frame_view frame) ≡ [] }
    ensures { ReadsFrame (spec.empty (frame_view frame) body.now) result }
{
    if body.is_empty() {
        Ok(frame)
    } else {
        Err(WireFault::Layout)
    }
}

/// One text, and nothing behind it.
fn lone_text(body: &[u8]) -> Option<&[u8]>
    ensures { (frame : List ℕ → spec.ClientFrame) → option_map (λ text. frame text.now) result ≡ spec.one_text frame body.now }
{
    let Some((text, [])) = text0(body) else {
        return None;
    };
    Some(text)
}

/// Query.
fn query(alloc: Global, body: &[u8]) -> Result<Frame, WireFault>
    ensures { ReadsFrame (spec.one_text spec.Query body.now) result }
{
    let Some(text) = lone_text(body) else {
        return Err(WireFault::Layout);
    };
    match owned(alloc, text) {
        Ok(text) => Ok(Frame::Query(text)),
        Err(fault) => Err(fault),
    }
}

/// CopyFail.
fn copy_fail(alloc: Global, body: &[u8]) -> Result<Frame, WireFault>
    ensures { ReadsFrame (spec.one_text spec.CopyFail body.now) result }
{
    let Some(message) = lone_text(body) else {
        return Err(WireFault::Layout);
    };
    match owned(alloc, message) {
        Ok(message) => Ok(Frame::CopyFail(message)),
        Err(fault) => Err(fault),
    }
}

/// CopyData.
fn copy_data(alloc: Global, body: &[u8]) -> Result<Frame, WireFault>
    ensures { ReadsFrame (Some (spec.CopyData body.now)) result }
{
    match Blob::from_slice(alloc, body) {
        Ok(piece) => Ok(Frame::CopyData(piece)),
        Err(_) => Err(WireFault::OutOfMemory),
    }
}

/// The portal and the row limit of an Execute.
fn execute_parts(body: &[u8]) -> Option<(&[u8], i32)>
    ensures { option_map (λ p. spec.Execute p.0.now p.1) result ≡ spec.executing body.now }
{
    let (portal, rest) = text0(body)?;
    let Some((max_rows, [])) = signed32(rest) else {
        return None;
    };
    Some((portal, max_rows))
}

/// Execute.
fn execute(alloc: Global, body: &[u8]) -> Result<Frame, WireFault>
    ensures { ReadsFrame (spec.executing body.now) result }
{
    let Some((portal, max_rows)) = execute_parts(body) else {
        return Err(WireFault::Layout);
    };
    match owned(alloc, portal) {
        Ok(portal) => Ok(Frame::Execute(portal, max_rows)),
        Err(fault) => Err(fault),
    }
}

/// Which of a statement and a portal is meant, and its name.
fn target(body: &[u8]) -> Option<(u8, &[u8])>
    ensures { (frame : ℕ → List ℕ → spec.ClientFrame) → option_map (λ p. frame p.0 p.1.now) result ≡ spec.target frame body.now }
{
    let [variant, rest @ ..] = body else {
        return None;
    };
    let Some((name, [])) = text0(rest) else {
        return None;
    };
    if *variant != b'S' && *variant != b'P' {
        return None;
    }
    Some((*variant, name))
}

/// Describe.
fn describe(alloc: Global, body: &[u8]) -> Result<Frame, WireFault>
    ensures { ReadsFrame (spec.target spec.Describe body.now) result }
{
    let Some((variant, name)) = target(body) else {
        return Err(WireFault::Layout);
    };
    match owned(alloc, name) {
        Ok(name) => Ok(Frame::Describe(variant, name)),
        Err(fault) => Err(fault),
    }
}

/// Close.
fn close(alloc: Global, body: &[u8]) -> Result<Frame, WireFault>
    ensures { ReadsFrame (spec.target spec.Close body.now) result }
{
    let Some((variant, name)) = target(body) else {
        return Err(WireFault::Layout);
    };
    match owned(alloc, name) {
        Ok(name) => Ok(Frame::Close(variant, name)),
        Err(fault) => Err(fault),
    }
}
