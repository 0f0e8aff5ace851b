//! The script that asks the catalog for the rows of a relation's columns.

ghost use Rattle.std.specs.Prelude.{◌≡◌, ◌≤◌, Ok, IfOk};
ghost use Rattle.pg_query.specs.Dialogue.{Answer};
ghost use Rattle.pg_core.specs.Lookups as spec;
ghost use Rattle.pg_search.specs.Asking.{ask_steps};
ghost use Rattle.pg_search.specs.Rows.{given_at};

use crate::looks_up::LooksUp;
use crate::{FieldRows, FieldsReading, ask, oid_request, settled};
use pg_core::{Go, Maybe, OrAnswer, Then};
use pg_desk::{Lookup, Statement};
use pg_errors::Error;
use pg_query::{Cells, Cleanup, Reply, Script, SingleRequest, Want};
use pg_types::{List, Oid};
use pg_wire::{Message, WireFault};
use std::alloc::{AllocError, Global};
use std::collections::VecDeque;

/// Rows that are answered at once.
#[derive(Drop)]
pub struct GivenRows {
    rows: Option<FieldRows>,
}

impl GivenRows {
    fn new(rows: FieldRows) -> GivenRows
        ensures { given_at result ≡ Answer (Ok rows) }
    {
        GivenRows { rows: Some(rows) }
    }
}

impl Script for GivenRows {
    ghost use Rattle.pg_query.specs.Scripts.{Nothing};
    ghost use Rattle.pg_search.specs.Rows.{given_at, given_refuses};

    type Output = FieldRows;

    ghost dialogue = { given_at };

    ghost refuses = { given_refuses };

    ghost waits = { λ s. Nothing };

    ghost steps = { λ _. 0 };

    fn next(&mut self, alloc: Global) -> Result<Want<FieldRows>, AllocError> {
        match self.rows.take() {
            Some(rows) => Ok(Want::Answer(Ok(rows))),
            None => Ok(Want::Answer(Err(Error::Closed))),
        }
    }

    fn message(
        &mut self,
        alloc: Global,
        message: &Result<Message, WireFault>,
    ) -> Result<Want<FieldRows>, AllocError> {
        // It reads nothing.
        Err(AllocError)
    }

    fn reply(&mut self, alloc: Global, reply: Reply) -> Result<Want<FieldRows>, AllocError> {
        // It asks nothing.
        Err(AllocError)
    }

    fn refused(&mut self, alloc: Global, error: Error) -> Result<Want<FieldRows>, AllocError> {
        Ok(Want::Answer(Err(error)))
    }

    fn cleanup(&self, alloc: Global) -> Result<VecDeque<Cleanup>, AllocError> {
        // It reads nothing.
        Err(AllocError)
    }
}

/// Puts the statement that gave rows to them.
#[derive(Drop)]
pub struct GivesRows {
    statement: Statement,
}

impl Go for GivesRows {
    ghost use Rattle.std.specs.Prelude.{Ok};
    ghost use Rattle.pg_query.specs.Dialogue.{Answer};

    type Input = List<Cells>;

    type Next = GivenRows;

    ghost to = { λ k rows. Answer (Ok (record { columns = k.statement.columns; rows = rows })) };

    ghost most = { λ _. 0 };

    fn go(self, alloc: Global, rows: List<Cells>) -> Result<GivenRows, AllocError> {
        let rows = VecDeque::from(rows.into_vec());
        Ok(GivenRows::new(FieldRows {
            statement: self.statement,
            rows,
        }))
    }
}

/// The rows that a statement was asked for.
pub type RowsThen = Then<
    SingleRequest<FieldsReading, List<Cells>>,
    OrAnswer<GivesRows>,
    Maybe<FieldRows, GivenRows>,
>;

/// Asks a statement for the rows of a relation's columns.
#[derive(Drop)]
pub struct AsksFields {
    relation: Oid,
}

impl Go for AsksFields {
    ghost use Rattle.pg_search.specs.Asking.{fields_by};

    type Input = Statement;

    type Next = RowsThen;

    ghost to = { λ k s. fields_by k.relation s };

    ghost most = { λ _. 2 };

    fn go(self, alloc: Global, statement: Statement) -> Result<RowsThen, AllocError> {
        let request = settled(oid_request(alloc, &statement, self.relation))?;
        let one = ask(FieldsReading::new(alloc, &statement), request, false);
        let go = GivesRows { statement };
        Ok(Then::First(one, OrAnswer { go }))
    }
}

/// Asks for the rows of a relation's columns; none of them is read yet.
pub type FieldsOf = LooksUp<AsksFields, RowsThen, FieldRows>;

/// The columns of this relation. Its error is want of memory.
pub fn fields_of(alloc: Global, relation: Oid) -> Result<FieldsOf, AllocError>
    ensures dialogue { IfOk result (λ s. ⟦<FieldsOf as Script>⟧.dialogue s ≡ spec.field_rows relation) }
    ensures steps { IfOk result (λ s. ⟦<FieldsOf as Script>⟧.steps s ≤ ask_steps) }
{
    LooksUp::new(alloc, Lookup::Composite, AsksFields { relation })
}
