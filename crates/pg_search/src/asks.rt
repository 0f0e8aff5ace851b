//! The scripts that ask the catalog for a type's own row and for the labels of an enumeration.

ghost use Rattle.std.specs.Prelude.{◌≡◌, ◌≤◌, IfOk};
ghost use Rattle.pg_core.specs.Lookups as spec;
ghost use Rattle.pg_search.specs.Asking.{ask_steps};

use crate::looks_up::LooksUp;
use crate::{LabelsReading, RowReading, TypeRow, ask, oid_request, settled};
use pg_core::{Go, Maybe};
use pg_desk::{Lookup, Statement};
use pg_query::{Script, SingleRequest};
use pg_types::{List, Oid, Text};
use std::alloc::{AllocError, Global};

// ---- a type's own row

/// The request for a row, in the form in which a `Go` may name it as its `Next`: the toolchain doesn't admit it by itself
/// there.
pub type AskedRow = Maybe<TypeRow, SingleRequest<RowReading, TypeRow>>;

/// Asks a statement for the row of an oid.
#[derive(Drop)]
pub struct AsksRow {
    oid: Oid,
}

impl Go for AsksRow {
    ghost use Rattle.pg_search.specs.Asking.{row_by};

    type Input = Statement;

    type Next = AskedRow;

    ghost to = { λ k s. row_by k.oid s };

    ghost most = { λ _. 2 };

    fn go(self, alloc: Global, statement: Statement) -> Result<AskedRow, AllocError> {
        let request = settled(oid_request(alloc, &statement, self.oid))?;
        let one = ask(RowReading::new(statement), request, true);
        Ok(Maybe::Goes(one))
    }
}

/// Asks for a type's own row. The request is hung up behind it.
pub type RowOf = LooksUp<AsksRow, AskedRow, TypeRow>;

/// The row of this oid. Its error is want of memory.
pub fn row_of(alloc: Global, oid: Oid) -> Result<RowOf, AllocError>
    ensures dialogue { IfOk result (λ s. ⟦<RowOf as Script>⟧.dialogue s ≡ spec.row_of oid) }
    ensures steps { IfOk result (λ s. ⟦<RowOf as Script>⟧.steps s ≤ ask_steps) }
{
    LooksUp::new(alloc, Lookup::Info, AsksRow { oid })
}

// ---- labels

/// Asks a statement for the labels of an oid.
#[derive(Drop)]
pub struct AsksLabels {
    oid: Oid,
}

impl Go for AsksLabels {
    ghost use Rattle.pg_search.specs.Asking.{labels_by};

    type Input = Statement;

    type Next = SingleRequest<LabelsReading, List<Text>>;

    ghost to = { λ k s. labels_by k.oid s };

    ghost most = { λ _. 2 };

    fn go(
        self,
        alloc: Global,
        statement: Statement,
    ) -> Result<SingleRequest<LabelsReading, List<Text>>, AllocError> {
        let request = settled(oid_request(alloc, &statement, self.oid))?;
        let one = ask(LabelsReading::new(alloc, statement), request, false);
        Ok(one)
    }
}

/// Asks for the labels of an enumeration, in order.
pub type LabelsOf = LooksUp<AsksLabels, SingleRequest<LabelsReading, List<Text>>, List<Text>>;

/// The labels of this oid. Its error is want of memory.
pub fn labels_of(alloc: Global, oid: Oid) -> Result<LabelsOf, AllocError>
    ensures dialogue { IfOk result (λ s. ⟦<LabelsOf as Script>⟧.dialogue s ≡ spec.labels_of oid) }
    ensures steps { IfOk result (λ s. ⟦<LabelsOf as Script>⟧.steps s ≤ ask_steps) }
{
    LooksUp::new(alloc, Lookup::Enum, AsksLabels { oid })
}
