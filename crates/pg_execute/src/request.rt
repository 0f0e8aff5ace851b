//! The requests that execute a statement and close one (PostgreSQL documentation, "Extended Query").

ghost use Rattle.std.specs.Prelude.{◌≡◌, ◌≤◌, ◌∷◌, [], ℕ, List, Option, MatchResult, IfOk, Ok, Err, false};
ghost use Rattle.pg_wire.specs.Faults.{frame_fault};
ghost use Rattle.pg_wire.specs.Writes.{IsRefusal};
ghost use Rattle.pg_query.specs.Reading.{reads};
ghost use Rattle.pg_query.specs.SingleRequests.{dialogue_of, steps_of};
ghost use Rattle.pg_core.specs.Composing.{asks_for, or_encode};
ghost use Rattle.pg_execute.specs.Executes as executing;
ghost use Rattle.pg_execute.specs.GivenValues.{IsGiven};
ghost use Rattle.pg_execute.specs.Parameters as spec;

use crate::given_values::{BINARY, GivenValues, given_values};
use bytes::{Bytes, BytesMut};
use pg_desk::Statement;
use pg_errors::{Cause, Error};
use pg_query::{Reading, SingleRequest};
use pg_types::Params;
use pg_wire::{FrameFault, bind, close, execute, sync};
use std::alloc::{AllocError, Global};

/// Bind with these values, Execute of all rows, Sync.
fn execute_frames(alloc: Global, name: &str, given: &GivenValues) -> Result<Bytes, FrameFault>
    requires { (values : List (Option (List ℕ))) × IsGiven values given.now }
    ensures { (values : List (Option (List ℕ))) → IsGiven values given.now → MatchResult result
        (λ bytes. spec.execute_frames name.now values ≡ Ok bytes)
        (λ fault. IsRefusal (spec.execute_frames name.now values) (frame_fault fault)) }
{
    let mut out = BytesMut::new(alloc);
    let count = given.formats.len();
    bind(
        "",
        name,
        &given.formats,
        count,
        &given.bytes,
        BINARY,
        &mut out,
    )?;
    execute("", 0, &mut out)?;
    sync(&mut out)?;
    match out.freeze() {
        Ok(bytes) => Ok(bytes),
        Err(_) => Err(FrameFault::OutOfMemory),
    }
}

/// The request with values that were written.
fn request_with(
    alloc: Global,
    name: &str,
    given: &GivenValues,
) -> Result<Result<Bytes, Error>, AllocError>
    requires { (values : List (Option (List ℕ))) × IsGiven values given.now }
    ensures { (values : List (Option (List ℕ))) → IsGiven values given.now → IfOk result (λ request. request ≡ or_encode (spec.execute_frames name.now values)) }
{
    match execute_frames(alloc, name, given) {
        Ok(request) => Ok(Ok(request)),
        Err(FrameFault::OutOfMemory) => Err(AllocError),
        Err(fault) => Ok(Err(Error::Encode(Cause::Frame(fault)))),
    }
}

/// The request that executes a statement with these values, or why they are refused: by their number, by the first
/// that can't stand where it does, or by the frames.
pub fn execute_request<P: Params>(
    alloc: Global,
    statement: &Statement,
    values: &P,
) -> Result<Result<Bytes, Error>, AllocError>
    ensures { IfOk result (λ request. request ≡ spec.execute_request statement.now (spec.params (P.count values.now) (P.gives_at values.now))) }
{
    let params = statement.params();
    if values.len() != params.len() {
        return Ok(Err(Error::Parameters(values.len(), params.len())));
    }
    match given_values(alloc, params, values)? {
        Ok(given) => request_with(alloc, statement.name(), &given),
        Err(error) => Ok(Err(error)),
    }
}

/// Sends a request and reads its reply, or answers why it can't be sent.
pub fn ask<R: Reading>(reading: R, request: Result<Bytes, Error>) -> SingleRequest<R, R::Output>
    ensures dialogue { dialogue_of R.reading result ≡ asks_for request (reads false (R.reading reading)) }
    ensures steps { steps_of result ≤ 2 }
{
    read_reply(false, reading, request)
}

/// The same, where at Ok the request is hung up too if it stops there.
pub(crate) fn read_reply<R: Reading>(
    stops: bool,
    reading: R,
    request: Result<Bytes, Error>,
) -> SingleRequest<R, R::Output>
    ensures dialogue { dialogue_of R.reading result ≡ asks_for request (reads stops (R.reading reading)) }
    ensures steps { steps_of result ≤ 2 }
{
    match request {
        Ok(request) => SingleRequest::new(reading, request, stops),
        Err(error) => SingleRequest::refused(reading, error),
    }
}

/// Close of a statement, and Sync.
fn close_frames(alloc: Global, name: &str) -> Result<Bytes, FrameFault>
    ensures { MatchResult result
        (λ bytes. executing.close_request name.now ≡ Ok bytes)
        (λ fault. IsRefusal (executing.close_request name.now) (frame_fault fault)) }
{
    let mut out = BytesMut::new(alloc);
    close(b'S', name, &mut out)?;
    sync(&mut out)?;
    match out.freeze() {
        Ok(bytes) => Ok(bytes),
        Err(_) => Err(FrameFault::OutOfMemory),
    }
}

/// The request that closes the statement of this name, or why it can't be written.
pub fn close_request(alloc: Global, name: &str) -> Result<Result<Bytes, Error>, AllocError>
    ensures { IfOk result (λ request. request ≡ or_encode (executing.close_request name.now)) }
{
    match close_frames(alloc, name) {
        Ok(request) => Ok(Ok(request)),
        Err(FrameFault::OutOfMemory) => Err(AllocError),
        Err(fault) => Ok(Err(Error::Encode(Cause::Frame(fault)))),
    }
}

/// What closes the statement of this name. A name that was prepared can be written.
pub fn close_bytes(alloc: Global, name: &str) -> Result<Option<Bytes>, AllocError>
    ensures { IfOk result (λ part. part ≡ executing.close_part name.now) }
{
    match close_frames(alloc, name) {
        Ok(part) => Ok(Some(part)),
        Err(FrameFault::OutOfMemory) => Err(AllocError),
        Err(_) => Ok(None),
    }
}
