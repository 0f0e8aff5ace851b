//! The requests that bind a portal, execute and close one (PostgreSQL documentation, "Extended Query").

ghost use Rattle.std.specs.Prelude.{◌≡◌, ℕ, List, Option, MatchResult, IfOk, Ok};
ghost use Rattle.pg_wire.specs.Faults.{frame_fault};
ghost use Rattle.pg_wire.specs.Writes.{IsRefusal};
ghost use Rattle.pg_core.specs.Composing.{or_encode};
ghost use Rattle.pg_execute.specs.GivenValues.{IsGiven};
ghost use Rattle.pg_execute.specs.Parameters.{params};
ghost use Rattle.pg_portals.specs.Requests as spec;

use crate::portal::Portal;
use bytes::{Bytes, BytesMut};
use pg_desk::Statement;
use pg_errors::{Cause, Error};
use pg_execute::given_values::{BINARY, GivenValues, given_values};
use pg_types::Params;
use pg_wire::{FrameFault, bind, close, execute, sync};
use std::alloc::{AllocError, Global};

/// Bind of a statement to this portal with these values, Sync.
fn bind_frames(
    alloc: Global,
    portal: &str,
    name: &str,
    given: &GivenValues,
) -> Result<Bytes, FrameFault>
    requires { (values : List (Option (List ℕ))) × IsGiven values given.now }
    ensures { (values : List (Option (List ℕ))) → IsGiven values given.now → MatchResult result
        (λ bytes. spec.bind_frames portal.now name.now values ≡ Ok bytes)
        (λ fault. IsRefusal (spec.bind_frames portal.now name.now values) (frame_fault fault)) }
{
    let mut out = BytesMut::new(alloc);
    let count = given.formats.len();
    bind(
        portal,
        name,
        &given.formats,
        count,
        &given.bytes,
        BINARY,
        &mut out,
    )?;
    sync(&mut out)?;
    match out.freeze() {
        Ok(bytes) => Ok(bytes),
        Err(_) => Err(FrameFault::OutOfMemory),
    }
}

/// The request with values that were written.
fn request_with(
    alloc: Global,
    portal: &Portal,
    given: &GivenValues,
) -> Result<Result<Bytes, Error>, AllocError>
    requires { (values : List (Option (List ℕ))) × IsGiven values given.now }
    ensures { (values : List (Option (List ℕ))) → IsGiven values given.now → IfOk result (λ request.
        request ≡ or_encode (spec.bind_frames (spec.portal_name portal.now.number) portal.now.statement.name values)) }
{
    let Ok(name) = portal.name(alloc) else {
        return Err(AllocError);
    };
    match bind_frames(alloc, name.as_str(), portal.statement.name(), given) {
        Ok(request) => Ok(Ok(request)),
        Err(FrameFault::OutOfMemory) => Err(AllocError),
        Err(fault) => Ok(Err(Error::Encode(Cause::Frame(fault)))),
    }
}

/// The request that binds the statement of a portal to these values, or why they are refused: by their number, by the first that can't
/// stand where it does, or by the frames.
pub(crate) fn bind_request<P: Params>(
    alloc: Global,
    portal: &Portal,
    values: &P,
) -> Result<Result<Bytes, Error>, AllocError>
    ensures { IfOk result (λ request. request ≡ spec.bind_request portal.now.number portal.now.statement (params (P.count values.now) (P.gives_at values.now))) }
{
    let types = portal.statement.params();
    if values.len() != types.len() {
        return Ok(Err(Error::Parameters(values.len(), types.len())));
    }
    match given_values(alloc, types, values)? {
        Ok(given) => request_with(alloc, portal, &given),
        Err(error) => Ok(Err(error)),
    }
}

/// Execute of so many rows of this portal at most, Sync.
fn execute_frames(alloc: Global, portal: &str, max_rows: i32) -> Result<Bytes, FrameFault>
    ensures { MatchResult result
        (λ bytes. spec.portal_frames portal.now max_rows ≡ Ok bytes)
        (λ fault. IsRefusal (spec.portal_frames portal.now max_rows) (frame_fault fault)) }
{
    let mut out = BytesMut::new(alloc);
    execute(portal, max_rows, &mut out)?;
    sync(&mut out)?;
    match out.freeze() {
        Ok(bytes) => Ok(bytes),
        Err(_) => Err(FrameFault::OutOfMemory),
    }
}

/// The request of so many rows of a portal at most, all for 0, or why it can't be written.
pub fn portal_request(
    alloc: Global,
    portal: &Portal,
    max_rows: i32,
) -> Result<Result<Bytes, Error>, AllocError>
    ensures { IfOk result (λ request. request ≡ spec.portal_request portal.now.number max_rows) }
{
    let Ok(name) = portal.name(alloc) else {
        return Err(AllocError);
    };
    match execute_frames(alloc, name.as_str(), max_rows) {
        Ok(request) => Ok(Ok(request)),
        Err(FrameFault::OutOfMemory) => Err(AllocError),
        Err(fault) => Ok(Err(Error::Encode(Cause::Frame(fault)))),
    }
}

/// Close of this portal, Sync.
fn close_frames(alloc: Global, portal: &str) -> Result<Bytes, FrameFault>
    ensures { MatchResult result
        (λ bytes. spec.close_frames portal.now ≡ Ok bytes)
        (λ fault. IsRefusal (spec.close_frames portal.now) (frame_fault fault)) }
{
    let mut out = BytesMut::new(alloc);
    close(b'P', portal, &mut out)?;
    sync(&mut out)?;
    match out.freeze() {
        Ok(bytes) => Ok(bytes),
        Err(_) => Err(FrameFault::OutOfMemory),
    }
}

/// The request that closes a portal, or why it can't be written.
pub(crate) fn close_request(
    alloc: Global,
    portal: &Portal,
) -> Result<Result<Bytes, Error>, AllocError>
    ensures { IfOk result (λ request. request ≡ spec.close_portal_request portal.now.number) }
{
    let Ok(name) = portal.name(alloc) else {
        return Err(AllocError);
    };
    match close_frames(alloc, name.as_str()) {
        Ok(request) => Ok(Ok(request)),
        Err(FrameFault::OutOfMemory) => Err(AllocError),
        Err(fault) => Ok(Err(Error::Encode(Cause::Frame(fault)))),
    }
}
