//! The request that asks a statement for one oid (PostgreSQL documentation, "Extended Query").

ghost use Rattle.std.specs.Prelude.{◌≡◌, ◌≤◌, ◌∷◌, [], MatchResult, Some, Ok, pos};
ghost use Rattle.pg_spec.specs.Frames.{bind_frame};
ghost use Rattle.pg_types.specs.Values.{oid_bytes};
ghost use Rattle.pg_wire.specs.Faults.{frame_fault};
ghost use Rattle.pg_wire.specs.Writes.{IsRefusal, Writes};
ghost use Rattle.pg_wire.specs.Items.{SpellValues};
ghost use Rattle.pg_query.specs.Reading.{reads};
ghost use Rattle.pg_query.specs.SingleRequests.{dialogue_of, steps_of};
ghost use Rattle.pg_core.specs.Composing.{asks_for, or_encode};
ghost use Rattle.pg_core.specs.Lookups as spec;
ghost use Rattle.pg_search.specs.Given.{Gives};

use crate::cells::wrong_type;
use bytes::{Bytes, BytesMut};
use pg_desk::Statement;
use pg_errors::{Cause, Error};
use pg_query::{Reading, SingleRequest};
use pg_types::{FromSqlOwned, Oid, RustType, Type};
use pg_wire::{FrameFault, bind, execute, sync};
use std::alloc::Global;

/// The binary format of a value.
const BINARY: i16 = 1;

/// An oid as a value of Bind.
fn oid_value(oid: Oid) -> [u8; 8]
    ensures { SpellValues 1 result (Some (oid_bytes oid) ∷ []) }
{
    let [a, b, c, d] = oid.to_be_bytes();
    [0, 0, 0, 4, a, b, c, d]
}

/// Appends Bind with one oid.
fn bind_oid(name: &str, oid: Oid, out: &mut BytesMut) -> Result<(), FrameFault>
    ensures { Writes (bind_frame [] name.now (pos 1 ∷ []) (Some (oid_bytes oid) ∷ []) (pos 1)) out.old.items out.new.items result }
{
    let value = oid_value(oid);
    bind("", name, &[BINARY], 1, &value, BINARY, out)
}

/// Bind with one oid, Execute and Sync.
fn oid_frames(alloc: Global, name: &str, oid: Oid) -> Result<Bytes, FrameFault>
    ensures { MatchResult result
        (λ bytes. spec.oid_frames name.now oid ≡ Ok bytes)
        (λ fault. IsRefusal (spec.oid_frames name.now oid) (frame_fault fault)) }
{
    let mut out = BytesMut::new(alloc);
    bind_oid(name, oid, &mut out)?;
    execute("", 0, &mut out)?;
    sync(&mut out)?;
    match out.freeze() {
        Ok(bytes) => Ok(bytes),
        Err(_) => Err(FrameFault::OutOfMemory),
    }
}

/// The request for an oid of a statement whose parameter is one.
fn request_of(alloc: Global, name: &str, oid: Oid) -> Result<Bytes, Error>
    ensures { Gives (or_encode (spec.oid_frames name.now oid)) result }
{
    match oid_frames(alloc, name, oid) {
        Ok(request) => Ok(request),
        Err(FrameFault::OutOfMemory) => Err(Error::OutOfMemory),
        Err(fault) => Err(Error::Encode(Cause::Frame(fault))),
    }
}

/// The request that asks a statement for an oid. Parameters comes where it hasn't one parameter, then ToSql where
/// that is no oid.
pub fn oid_request(alloc: Global, statement: &Statement, oid: Oid) -> Result<Bytes, Error>
    ensures { Gives (spec.oid_request statement.now.name statement.now.params oid) result }
{
    request_for(alloc, statement.name(), statement.params(), oid)
}

fn request_for(alloc: Global, name: &str, params: &[Type], oid: Oid) -> Result<Bytes, Error>
    ensures { Gives (spec.oid_request name.now params.now oid) result }
{
    let [ty] = params else {
        return Err(Error::Parameters(1, params.len()));
    };
    if !<u32 as FromSqlOwned>::accepts_owned(ty) {
        return Err(Error::ToSql(0, Cause::Value(wrong_type(ty, RustType::U32))));
    }
    request_of(alloc, name, oid)
}

/// Sends a request and reads its reply, or answers why it can't be sent. At Ok too the request is hung up where
/// `stops` is true.
pub fn ask<R: Reading>(
    reading: R,
    request: Result<Bytes, Error>,
    stops: bool,
) -> SingleRequest<R, R::Output>
    ensures dialogue { dialogue_of R.reading result ≡ asks_for request (reads stops (R.reading reading)) }
    ensures steps { steps_of result ≤ 2 }
{
    match request {
        Ok(request) => SingleRequest::new(reading, request, stops),
        Err(error) => SingleRequest::refused(reading, error),
    }
}
