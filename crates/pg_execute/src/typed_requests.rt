//! The request that executes a text with values of given types (PostgreSQL documentation, "Extended Query").

ghost use Rattle.std.specs.Prelude.{◌≡◌, ◌++◌, [], ℕ, List, Option, map, MatchResult, IfOk, Ok, Err};
ghost use Rattle.pg_types.specs.Texts.{sql_text};
ghost use Rattle.pg_wire.specs.Faults.{frame_fault};
ghost use Rattle.pg_wire.specs.Writes.{IsRefusal};
ghost use Rattle.pg_core.specs.Composing.{or_encode};
ghost use Rattle.pg_spec.specs.Frames.{parse_frame};
ghost use Rattle.pg_execute.specs.GivenValues.{IsGiven};
ghost use Rattle.pg_execute.specs.Parameters.{params};
ghost use Rattle.pg_execute.specs.Typed as spec;
ghost use Rattle.pg_execute.specs.Types.{types_in};

use crate::given_values::{BINARY, GivenValues, given_values};
use crate::types::{Types, built_in_types};
use bytes::{Bytes, BytesMut};
use pg_errors::{Cause, Error};
use pg_types::{Oid, Params, Sql, Type};
use pg_wire::{FrameFault, bind, describe, execute, parse, sync};
use std::alloc::{AllocError, Global};

/// The oids of types.
fn oids_of(alloc: Global, types: &[Type]) -> Result<Vec<Oid>, AllocError>
    ensures { IfOk result (λ oids. oids.items ≡ map (λ ty. ty.oid) types.now) }
{
    let mut oids = Vec::new(alloc);
    for ty in types {
        oids.push(ty.oid())?;
    }
    Ok(oids)
}

/// Parse without a name.
fn parse_bytes(alloc: Global, text: &str, oids: &[Oid]) -> Result<Bytes, FrameFault>
    ensures { MatchResult result
        (λ bytes. parse_frame [] text.now oids.now ≡ Ok bytes)
        (λ fault. IsRefusal (parse_frame [] text.now oids.now) (frame_fault fault)) }
{
    let mut out = BytesMut::new(alloc);
    parse("", text, oids, &mut out)?;
    match out.freeze() {
        Ok(bytes) => Ok(bytes),
        Err(_) => Err(FrameFault::OutOfMemory),
    }
}

/// The frames behind it: Bind with these values, Describe, Execute of all rows, Sync.
fn typed_frames(alloc: Global, given: &GivenValues) -> Result<Bytes, FrameFault>
    requires { (values : List (Option (List ℕ))) × IsGiven values given.now }
    ensures { (values : List (Option (List ℕ))) → IsGiven values given.now → MatchResult result
        (λ bytes. spec.typed_frames values ≡ Ok bytes)
        (λ fault. IsRefusal (spec.typed_frames values) (frame_fault fault)) }
{
    let mut out = BytesMut::new(alloc);
    let count = given.formats.len();
    bind(
        "",
        "",
        &given.formats,
        count,
        &given.bytes,
        BINARY,
        &mut out,
    )?;
    describe(b'S', "", &mut out)?;
    execute("", 0, &mut out)?;
    sync(&mut out)?;
    match out.freeze() {
        Ok(bytes) => Ok(bytes),
        Err(_) => Err(FrameFault::OutOfMemory),
    }
}

/// The text as a frame, or why it is refused.
fn parse_part(alloc: Global, text: &str, types: &[Type]) -> Result<Result<Bytes, Error>, AllocError>
    ensures { IfOk result (λ part. part ≡ spec.or_parse (parse_frame [] text.now (map (λ ty. ty.oid) types.now))) }
{
    let oids = oids_of(alloc, types)?;
    match parse_bytes(alloc, text, &oids) {
        Ok(part) => Ok(Ok(part)),
        Err(FrameFault::OutOfMemory) => Err(AllocError),
        Err(fault) => Ok(Err(Error::Parse(Cause::Frame(fault)))),
    }
}

/// The frames behind it, or why they are refused.
fn rest_part(alloc: Global, given: &GivenValues) -> Result<Result<Bytes, Error>, AllocError>
    requires { (values : List (Option (List ℕ))) × IsGiven values given.now }
    ensures { (values : List (Option (List ℕ))) → IsGiven values given.now → IfOk result (λ part. part ≡ or_encode (spec.typed_frames values)) }
{
    match typed_frames(alloc, given) {
        Ok(part) => Ok(Ok(part)),
        Err(FrameFault::OutOfMemory) => Err(AllocError),
        Err(fault) => Ok(Err(Error::Encode(Cause::Frame(fault)))),
    }
}

/// One part behind another.
fn joined(alloc: Global, first: &[u8], second: &[u8]) -> Result<Bytes, AllocError>
    ensures { IfOk result (λ part. part ≡ first.now ++ second.now) }
{
    let mut out = BytesMut::new(alloc);
    out.extend_from_slice(first)?;
    out.extend_from_slice(second)?;
    match out.freeze() {
        Ok(part) => Ok(part),
        Err(_) => Err(AllocError),
    }
}

/// The request that executes a text with these values of these types, or why it is refused: by the text, by the first
/// value that can't stand under its type, or by the other frames.
pub fn typed_request<P: Params>(
    alloc: Global,
    text: &str,
    types: &[Type],
    values: &P,
) -> Result<Result<Bytes, Error>, AllocError>
    ensures { IfOk result (λ request. request ≡ spec.typed_request text.now types.now (params (P.count values.now) (P.gives_at values.now))) }
{
    let front = match parse_part(alloc, text, types)? {
        Ok(front) => front,
        Err(error) => return Ok(Err(error)),
    };
    let given = match given_values(alloc, types, values)? {
        Ok(given) => given,
        Err(error) => return Ok(Err(error)),
    };
    match rest_part(alloc, &given)? {
        Ok(rest) => Ok(Ok(joined(alloc, &front, &rest)?)),
        Err(error) => Ok(Err(error)),
    }
}

/// The same, where the types may be told by their oids.
pub fn request_under<P: Params>(
    alloc: Global,
    text: &str,
    types: &Types,
    values: &P,
) -> Result<Result<Bytes, Error>, AllocError>
    ensures { IfOk result (λ request. request ≡ spec.typed_request text.now (types_in types.now) (params (P.count values.now) (P.gives_at values.now))) }
{
    match types {
        Types::Given(types) => typed_request(alloc, text, *types, values),
        Types::BuiltIn(oids) => {
            let types = built_in_types(alloc, *oids)?;
            typed_request(alloc, text, types.as_slice(), values)
        }
        Types::Owned(types) => typed_request(alloc, text, types.as_slice(), values),
    }
}

/// A request that isn't written yet: its text, the types of its values, and these.
#[derive(Drop)]
pub struct Unwritten<'a, P> {
    pub(crate) text: Sql<'a>,
    pub(crate) types: Types<'a>,
    pub(crate) values: P,
}

impl<'a, P: Params + Drop> Unwritten<'a, P> {
    /// Writes it, or tells why it is refused. Its error is want of memory.
    pub(crate) fn write(self, alloc: Global) -> Result<Result<Bytes, Error>, AllocError>
        ensures { IfOk result (λ request. request ≡ spec.typed_request (sql_text self.entry.text) (types_in self.entry.types) (params (P.count self.entry.values) (P.gives_at self.entry.values))) }
    {
        let Unwritten {
            text,
            types,
            values,
        } = self;
        let request = request_under(alloc, text.as_str(), &types, &values);
        drop(text);
        drop(types);
        drop(values);
        request
    }
}
