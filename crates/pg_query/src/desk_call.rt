//! What a command asks of its desk besides requests, what it is told, and what is left to do where it is
//! given up.

use bytes::Bytes;
use pg_desk::{Lookup, Statement};
use pg_types::{Oid, Type};

/// A call of the desk that asks it something.
#[derive(Drop)]
pub enum DeskCall {
    NextStatement,
    NextPortal,
    /// Which type is kept of an oid. `Type` is told.
    TypeOf(Oid),
    /// Keeps the type of an oid. It is handed back.
    SetType(Oid, Type),
    /// Drops all types that are kept.
    ClearTypes,
    /// Which statement is kept to look this up. `Statement` is told.
    LookupOf(Lookup),
    /// Keeps a statement to look this up. It is handed back.
    SetLookup(Lookup, Statement),
}

/// What the desk tells.
#[derive(Drop)]
pub enum Reply {
    Number(u32),
    /// The counter is at its last value.
    Spent,
    /// The type of an oid, where one is kept.
    Type(Option<Type>),
    /// The types were dropped.
    Cleared,
    /// The statement that looks something up, where one is kept.
    Statement(Option<Statement>),
}

/// What is left to do where a command is given up.
#[derive(Drop)]
pub enum Cleanup {
    /// The copy that is read is ended by this part, if it hasn't ended.
    Close(Bytes),
    /// The request that is read is hung up.
    Release,
    /// A request is booked and hung up.
    Post(Bytes),
}
