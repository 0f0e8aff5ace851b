//! The body of Parse (PostgreSQL documentation, "Message Formats").

ghost use Rattle.std.specs.Prelude.{◌≡◌, IfOk, option_map};
ghost use Rattle.pg_spec.specs.ClientFrames as spec;
ghost use Rattle.pg_server.specs.Frames.{ReadsFrame};

use crate::frame::Frame;
use crate::items::counted_oids;
use crate::layout::owned;
use crate::reading::text0;
use pg_types::{List, OutOfMemory, WireFault};
use std::alloc::Global;

/// A statement's name, its text and the types of its parameters. None where the layout is broken.
fn parse_parts(alloc: Global, body: &[u8]) -> Result<Option<(&[u8], &[u8], Vec<u32>)>, OutOfMemory>
    ensures { IfOk result (λ parts. option_map (λ p. spec.Parse p.0.now p.1.now p.2.items) parts ≡ spec.parsing body.now) }
{
    let Some((name, rest)) = text0(body) else {
        return Ok(None);
    };
    let Some((text, rest)) = text0(rest) else {
        return Ok(None);
    };
    match counted_oids(alloc, rest)? {
        Some((oids, [])) => Ok(Some((name, text, oids))),
        _ => Ok(None),
    }
}

/// Parse.
pub(crate) fn parse(alloc: Global, body: &[u8]) -> Result<Frame, WireFault>
    ensures { ReadsFrame (spec.parsing body.now) result }
{
    let (name, text, oids) = match parse_parts(alloc, body) {
        Ok(Some(parts)) => parts,
        Ok(None) => return Err(WireFault::Layout),
        Err(_) => return Err(WireFault::OutOfMemory),
    };
    let name = match owned(alloc, name) {
        Ok(name) => name,
        Err(fault) => return Err(fault),
    };
    match owned(alloc, text) {
        Ok(text) => Ok(Frame::Parse {
            name,
            text,
            oids: List::new(oids),
        }),
        Err(fault) => Err(fault),
    }
}
