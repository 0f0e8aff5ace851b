//! A text that is sent, and what the server says of it (PostgreSQL documentation, "Extended Query").

ghost use Rattle.std.specs.Prelude.{◌≡◌, ◌≤◌, map, IfOk, MatchResult, Ok, true};
ghost use Rattle.pg_types.specs.Texts.{sql_text};
ghost use Rattle.pg_wire.specs.Faults.{frame_fault};
ghost use Rattle.pg_wire.specs.Writes.{IsRefusal};
ghost use Rattle.pg_query.specs.Reading.{reads};
ghost use Rattle.pg_query.specs.SingleRequests.{dialogue_of, steps_of};
ghost use Rattle.pg_core.specs.Composing.{asks_for, or_encode};
ghost use Rattle.pg_core.specs.Descriptions.{description};
ghost use Rattle.pg_core.specs.ParamTypes.{param_oids};
ghost use Rattle.pg_core.specs.Prepares as spec;
ghost use Rattle.pg_core.specs.Described.{reading_of};
ghost use Rattle.pg_core.specs.Parsing.{prepare_frames};

use crate::description::{Description, NewStatement};
use crate::description_reading::DescriptionReading;
use crate::making::statement_name;
use crate::param_types::{ParamTypes, oids_of};
use crate::ready::{Answered, Ready};
use crate::{Draws, Go, Maybe, OrAnswer, Then};
use bytes::{Bytes, BytesMut};
use pg_errors::{Cause, Error};
use pg_query::{Script, SingleRequest};
use pg_types::{Oid, Sql, Type};
use pg_wire::{FrameFault, describe, parse, sync};
use std::alloc::{AllocError, Global};

/// Parse, Describe and Sync, under this name.
fn frames(alloc: Global, name: &str, text: &str, oids: &[Oid]) -> Result<Bytes, FrameFault>
    ensures { MatchResult result
        (λ bytes. prepare_frames name.now text.now oids.now ≡ Ok bytes)
        (λ fault. IsRefusal (prepare_frames name.now text.now oids.now) (frame_fault fault)) }
{
    let mut out = BytesMut::new(alloc);
    parse(name, text, oids, &mut out)?;
    describe(b'S', name, &mut out)?;
    sync(&mut out)?;
    match out.freeze() {
        Ok(bytes) => Ok(bytes),
        Err(_) => Err(FrameFault::OutOfMemory),
    }
}

/// The same, with types in place of oids.
fn frames_of_types(
    alloc: Global,
    name: &str,
    text: &str,
    types: &[Type],
) -> Result<Bytes, FrameFault>
    ensures { MatchResult result
        (λ bytes. prepare_frames name.now text.now (map (λ ty. ty.oid) types.now) ≡ Ok bytes)
        (λ fault. IsRefusal (prepare_frames name.now text.now (map (λ ty. ty.oid) types.now)) (frame_fault fault)) }
{
    match oids_of(alloc, types) {
        Ok(oids) => frames(alloc, name, text, &oids),
        Err(_) => Err(FrameFault::OutOfMemory),
    }
}

/// The same, however the types are told.
fn frames_under(
    alloc: Global,
    name: &str,
    text: &str,
    types: &ParamTypes,
) -> Result<Bytes, FrameFault>
    ensures { MatchResult result
        (λ bytes. prepare_frames name.now text.now (param_oids types.now) ≡ Ok bytes)
        (λ fault. IsRefusal (prepare_frames name.now text.now (param_oids types.now)) (frame_fault fault)) }
{
    match types {
        ParamTypes::Oids(oids) => frames(alloc, name, text, *oids),
        ParamTypes::Types(types) => frames_of_types(alloc, name, text, *types),
        ParamTypes::Owned(types) => frames_of_types(alloc, name, text, types.as_slice()),
    }
}

/// The request that prepares a text, or the error of one that can't be sent.
fn prepare_request(
    alloc: Global,
    number: u32,
    text: &str,
    types: &ParamTypes,
) -> Result<Result<Bytes, Error>, AllocError>
    ensures { IfOk result (λ request. request ≡ or_encode (spec.prepare_request number text.now (param_oids types.now))) }
{
    let Ok(name) = statement_name(alloc, number) else {
        return Err(AllocError);
    };
    match frames_under(alloc, name.as_str(), text, types) {
        Ok(request) => Ok(Ok(request)),
        Err(FrameFault::OutOfMemory) => Err(AllocError),
        Err(fault) => Ok(Err(Error::Encode(Cause::Frame(fault)))),
    }
}

/// The request of a text, whose reply is read and then hung up.
fn ask(
    alloc: Global,
    number: u32,
    text: &str,
    types: &ParamTypes,
) -> Result<SingleRequest<DescriptionReading, Description>, AllocError>
    ensures asks { IfOk result (λ one. dialogue_of reading_of one ≡ asks_for (or_encode (spec.prepare_request number text.now (param_oids types.now))) (reads true description)) }
    ensures steps { IfOk result (λ one. steps_of one ≤ 2) }
{
    let reading = DescriptionReading::new();
    match prepare_request(alloc, number, text, types)? {
        Ok(request) => Ok(SingleRequest::new(reading, request, true)),
        Err(error) => Ok(SingleRequest::refused(reading, error)),
    }
}

/// Puts a statement's number to what the server says of it.
#[derive(Drop)]
pub struct Numbers {
    number: u32,
}

impl Go for Numbers {
    ghost use Rattle.std.specs.Prelude.{Ok};
    ghost use Rattle.pg_query.specs.Dialogue.{Answer};

    type Input = Description;

    type Next = Answered<NewStatement>;

    ghost to = { λ k described. Answer (Ok (record { number = k.number; described = described })) };

    ghost most = { λ _. 0 };

    fn go(
        self,
        alloc: Global,
        described: Description,
    ) -> Result<Answered<NewStatement>, AllocError> {
        Ok(Maybe::Goes(Ready::new(NewStatement {
            number: self.number,
            described,
        })))
    }
}

/// A text that was sent under its number.
pub type Parsing = Then<
    SingleRequest<DescriptionReading, Description>,
    OrAnswer<Numbers>,
    Maybe<NewStatement, Answered<NewStatement>>,
>;

/// Sends a text under the number that was drawn for it.
pub struct Parses<'a> {
    text: Sql<'a>,
    types: ParamTypes<'a>,
}

impl<'a> Drop for Parses<'a> {
    fn drop(self) {
        let Parses { text, types } = self;
        drop(text);
        drop(types);
    }
}

impl<'a> Go for Parses<'a> {
    ghost use Rattle.pg_types.specs.Texts.{sql_text};
    ghost use Rattle.pg_core.specs.ParamTypes.{param_oids};
    ghost use Rattle.pg_core.specs.Parsing.{parses};

    type Input = u32;

    type Next = Parsing;

    ghost to = { λ k number. parses (sql_text k.text) (param_oids k.types) number };

    ghost most = { λ _. 2 };

    fn go(self, alloc: Global, number: u32) -> Result<Parsing, AllocError> {
        let asked = ask(alloc, number, self.text.as_str(), &self.types);
        drop(self);
        let go = Numbers { number };
        Ok(Then::First(asked?, OrAnswer { go }))
    }
}

/// Draws a number, sends a text under the name that it gives, with the types of its first parameters, and answers
/// what the server says of it. The request is hung up then.
pub type Describes<'a> = Then<Draws, OrAnswer<Parses<'a>>, Maybe<NewStatement, Parsing>>;

/// Describes this text, with the types of its first parameters. It takes no memory.
pub fn describes_text<'a>(text: Sql<'a>, types: ParamTypes<'a>) -> Describes<'a>
    ensures dialogue { ⟦<Describes<'a> as Script>⟧.dialogue result ≡ spec.describes (sql_text text.entry) (param_oids types.entry) }
    ensures steps { ⟦<Describes<'a> as Script>⟧.steps result ≤ 3 }
{
    let go = Parses { text, types };
    Then::First(Draws::new(), OrAnswer { go })
}
