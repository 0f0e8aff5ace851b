//! What waits for the types of others.

ghost use Rattle.std.specs.Prelude.{◌≡◌, IfOk};
ghost use Rattle.pg_core.specs.Lookups.{wraps};
ghost use Rattle.pg_core.specs.Searches.{oid_of};
ghost use Rattle.pg_search.specs.Frames.{frame_of};
ghost use Rattle.pg_search.specs.Sorts.{wrap_of};

use crate::rows::TypeRow;
use crate::size::is_small;
use crate::sort::Wrap;
use pg_desk::Statement;
use pg_query::Cells;
use pg_types::{Field, Kind, List, Oid, Text, Type};
use std::alloc::{AllocError, Global};
use std::collections::VecDeque;

/// A composite, whose fields are found one after another.
#[derive(Drop)]
pub(crate) struct OpenComposite {
    pub(crate) oid: Oid,
    pub(crate) row: TypeRow,
    /// By its columns the rows are read.
    pub(crate) statement: Statement,
    /// The rows that are left.
    pub(crate) left: VecDeque<Cells>,
    pub(crate) found: List<Field>,
    /// For how many types there was room before the first field was found.
    pub(crate) room: u32,
}

/// What waits for the type of another oid.
#[derive(Drop)]
pub(crate) enum Frame {
    /// A type that is made of it.
    Wrapped(Oid, TypeRow, Wrap),
    /// A composite, whose field of this name it is.
    Part(OpenComposite, Text),
}

impl Frame {
    /// The oid that is in progress there.
    pub(crate) fn oid(&self) -> Oid
        ensures { result ≡ oid_of (frame_of self.now) }
    {
        match self {
            Frame::Wrapped(oid, _, _) => *oid,
            Frame::Part(composite, _) => composite.oid,
        }
    }
}

/// The kind of a type that is made of another.
pub(crate) fn wrapped(wrap: Wrap, ty: Type) -> Kind
    ensures { result ≡ wraps (wrap_of wrap) ty }
{
    match wrap {
        Wrap::Over => Kind::Domain(ty),
        Wrap::ArrayOf => Kind::Array(ty),
        Wrap::RangeOf => Kind::Range(ty),
    }
}

/// The type of a row. Its error is want of memory, which is there too where the type would be larger than a
/// lookup builds.
pub(crate) fn typed(alloc: Global, oid: Oid, row: TypeRow, kind: Kind) -> Result<Type, AllocError>
    ensures { IfOk result (λ ty. ty ≡ record { name = row.name; oid = oid; kind = kind; schema = row.schema }) }
{
    let TypeRow {
        name,
        typtype: _,
        typelem: _,
        rngsubtype: _,
        typbasetype: _,
        schema,
        typrelid: _,
    } = row;
    match Type::new(alloc, name, oid, kind, schema) {
        Ok(ty) if is_small(&ty) => Ok(ty),
        _ => Err(AllocError),
    }
}
