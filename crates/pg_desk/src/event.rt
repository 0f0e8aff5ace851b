//! One event of the core is one call of a desk or an engine, with its arguments and its answer.

use crate::{Lookup, Statement};
use bytes::Bytes;
use pg_spec::Stamp;
use pg_types::{Blob, List, Oid, Type};
use pg_wire::BackendMessages;

/// A request that was booked: its stamp, and the bytes that go out for it, part by part.
#[derive(Drop)]
pub struct Booking {
    pub stamp: Stamp,
    pub parts: List<Blob>,
}

/// Why a call of a desk or an engine is refused.
#[derive(Clone, Copy, Debug, PartialEq, Eq, Drop)]
pub enum DeskFault {
    /// The hub takes no requests any more.
    Closed,
    /// A counter is at its last value.
    Encode,
    OutOfMemory,
}

/// What a copy answers to a part of it. Every refusal hands the part back.
#[derive(Drop)]
pub enum Put {
    Took,
    /// Two parts wait.
    Full(Bytes),
    /// The request isn't booked, is no copy, is ended or hung up, or its hub has failed.
    Gone(Bytes),
    OutOfMemory(Bytes),
}

/// What the reader of a request is given.
#[derive(Drop)]
pub enum Take {
    Batch(BackendMessages),
    /// Nothing has come that wasn't taken.
    Empty,
    /// The reply has ended, and all of it was taken.
    Over,
    /// The request isn't booked, is hung up, or its hub has failed.
    Gone,
}

/// What goes out next.
#[derive(Drop)]
pub enum Out {
    Part(Bytes),
    /// The next request is a copy that isn't ended, and no part of it waits.
    CopyWaits,
    Nothing,
    /// All has gone out and was answered, and nothing more will be booked.
    NoMore,
}

/// What became of a batch that was delivered. Every refusal hands it back.
#[derive(Drop)]
pub enum Deliver {
    Taken,
    /// Two batches wait for the reader.
    Full(BackendMessages),
    /// No request is open.
    NoRequest(BackendMessages),
    OutOfMemory(BackendMessages),
}

/// The type that was found of an oid.
#[derive(Debug, Drop, PartialEq, Eq)]
pub struct FoundType {
    pub oid: Oid,
    pub type_: Type,
}

/// A call on what a desk keeps of the server's catalog, with its arguments and its answer.
#[derive(Drop)]
pub enum CatalogCall {
    /// The type that is kept of an oid.
    TypeOf(Oid, Result<Option<Type>, DeskFault>),
    /// This type is to be kept of an oid.
    SetType(Oid, Type, Result<(), DeskFault>),
    /// No type is to be kept any more.
    ClearTypes(Result<(), DeskFault>),
    /// The statement that is kept to look this up.
    LookupOf(Lookup, Result<Option<Statement>, DeskFault>),
    /// This statement is to be kept to look this up.
    SetLookup(Lookup, Statement, Result<(), DeskFault>),
}

/// A call with its arguments and its answer.
#[derive(Drop)]
pub enum Event {
    Book(Stamp, Bytes, bool, Result<u64, DeskFault>),
    Put(u64, Bytes, Put),
    EndCopy(u64, Bytes, Put),
    Take(u64, Result<Take, DeskFault>),
    HangUp(u64, Result<(), DeskFault>),
    NextStatement(Result<u32, DeskFault>),
    NextPortal(Result<u32, DeskFault>),
    Catalog(CatalogCall),
    NextOut(Result<Out, DeskFault>),
    Deliver(BackendMessages, bool, Deliver),
    CloseRequests(Result<(), DeskFault>),
    Fail(Result<(), DeskFault>),
}
