//! The body of Bind (PostgreSQL documentation, "Message Formats").

ghost use Rattle.std.specs.Prelude.{◌≡◌, ℤ, ℕ, List, Option, IfOk, option_map};
ghost use Rattle.pg_spec.specs.ClientFrames as spec;
ghost use Rattle.pg_server.specs.Frames.{ReadsFrame};
ghost use Rattle.pg_server.specs.Readings.{giving};

use crate::frame::Frame;
use crate::items::{counted_formats, counted_values};
use crate::layout::owned;
use crate::reading::text0;
use pg_types::{Blob, List, OutOfMemory, WireFault};
use std::alloc::Global;

/// What a Bind says behind its names.
#[derive(Drop)]
struct Given {
    formats: List<i16>,
    values: List<Option<Blob>>,
    results: List<i16>,
}

/// The formats of the values, the values and the formats of the result. None where the layout is broken.
fn read_given(alloc: Global, bytes: &[u8]) -> Result<Option<Given>, OutOfMemory>
    ensures { IfOk result (λ read. (frame : List ℤ → List (Option (List ℕ)) → List ℤ → spec.ClientFrame) →
        option_map (λ g. frame g.formats g.values g.results) read ≡ giving frame bytes.now) }
{
    let Some((formats, rest)) = counted_formats(alloc, bytes)? else {
        return Ok(None);
    };
    let Some((values, rest)) = counted_values(alloc, rest)? else {
        return Ok(None);
    };
    match counted_formats(alloc, rest)? {
        Some((results, [])) => Ok(Some(Given {
            formats: List::new(formats),
            values: List::new(values),
            results: List::new(results),
        })),
        _ => Ok(None),
    }
}

/// Two names, and what is said behind them. None where the layout is broken.
fn bind_parts(alloc: Global, body: &[u8]) -> Result<Option<(&[u8], &[u8], Given)>, OutOfMemory>
    ensures { IfOk result (λ parts. option_map (λ p. spec.Bind p.0.now p.1.now p.2.formats p.2.values p.2.results) parts ≡ spec.binding body.now) }
{
    let Some((portal, rest)) = text0(body) else {
        return Ok(None);
    };
    let Some((statement, rest)) = text0(rest) else {
        return Ok(None);
    };
    match read_given(alloc, rest)? {
        Some(given) => Ok(Some((portal, statement, given))),
        None => Ok(None),
    }
}

/// Bind.
pub(crate) fn bind(alloc: Global, body: &[u8]) -> Result<Frame, WireFault>
    ensures { ReadsFrame (spec.binding body.now) result }
{
    let (portal, statement, given) = match bind_parts(alloc, body) {
        Ok(Some(parts)) => parts,
        Ok(None) => return Err(WireFault::Layout),
        Err(_) => return Err(WireFault::OutOfMemory),
    };
    let portal = match owned(alloc, portal) {
        Ok(portal) => portal,
        Err(fault) => return Err(fault),
    };
    match owned(alloc, statement) {
        Ok(statement) => Ok(Frame::Bind {
            portal,
            statement,
            formats: given.formats,
            values: given.values,
            results: given.results,
        }),
        Err(fault) => Err(fault),
    }
}
