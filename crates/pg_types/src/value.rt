//! A value whose Rust type isn't known before.

use crate::{Blob, Text};

/// A value of any of the types that the other Rust types stand for.
#[derive(Debug, Drop, PartialEq, Eq)]
pub enum Value {
    Null,
    /// Of bool.
    Bool(bool),
    /// Of char, int2, int4, int8 or oid.
    Int(i64),
    /// Of text, varchar, bpchar, name or unknown.
    Text(Text),
    /// Of bytea.
    Bytes(Blob),
}
