//! What a type's row says of its kind.

ghost use Rattle.std.specs.Prelude.{◌≡◌};
ghost use Rattle.pg_core.specs.Lookups as spec;
ghost use Rattle.pg_search.specs.Sorts.{sort_said};

use crate::rows::TypeRow;
use pg_types::{Kind, Oid};

/// How a type is made of one other.
#[derive(Drop)]
pub(crate) enum Wrap {
    /// A domain over it.
    Over,
    ArrayOf,
    RangeOf,
}

/// What a row says of the kind.
#[derive(Drop)]
pub(crate) enum Sort {
    Is(Kind),
    /// Its labels are to be found.
    Labels,
    /// The type of another oid is to be found.
    Of(Wrap, Oid),
    /// The fields of this relation are to be found.
    Fields(Oid),
}

/// The typtype of an enumeration.
const ENUMERATION: i8 = 101;

/// The typtype of a type that no column has.
const PSEUDO: i8 = 112;

/// What a row says, by the first of its columns that says it.
pub(crate) fn sort_of(row: &TypeRow) -> Sort
    ensures { sort_said result ≡ spec.sort_of row.now }
{
    if row.typtype == ENUMERATION {
        Sort::Labels
    } else if row.typtype == PSEUDO {
        Sort::Is(Kind::Pseudo)
    } else if row.typbasetype != 0 {
        Sort::Of(Wrap::Over, row.typbasetype)
    } else if row.typelem != 0 {
        Sort::Of(Wrap::ArrayOf, row.typelem)
    } else if row.typrelid != 0 {
        Sort::Fields(row.typrelid)
    } else {
        or_range(row.rngsubtype)
    }
}

/// A range, or else a type of no other kind.
fn or_range(rngsubtype: Option<Oid>) -> Sort
    ensures { sort_said result ≡ spec.or_range rngsubtype }
{
    match rngsubtype {
        Some(sub) => Sort::Of(Wrap::RangeOf, sub),
        None => Sort::Is(Kind::Simple),
    }
}
