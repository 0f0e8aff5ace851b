//! The reply that gives the rows of a relation's columns, read message by message.

ghost use Rattle.std.specs.Prelude.{◌≡◌, length, Result, IfOk, Ok};
ghost use Rattle.pg_types.specs.declared.faults.WireFault as fault;
ghost use Rattle.pg_wire.specs.declared.message.Message as wire;
ghost use Rattle.pg_query.specs.Reading.{TellsAtFault};
ghost use Rattle.pg_core.specs.QueryReplies.{all_rows, all_rows_by};
ghost use Rattle.pg_search.specs.CatalogReadings.{reading_of_fields, rows_so_far, whole_row};
ghost use Rattle.pg_search.specs.Saying.{said_view, Does, FailsAtFault};

use crate::said::{Said, said_by};
use pg_desk::Statement;
use pg_errors::Error;
use pg_query::{Cells, Reading};
use pg_types::List;
use pg_wire::{Message, WireFault};
use std::alloc::{AllocError, Global};
use std::mem;

/// All rows of a reply, none of them read yet.
#[derive(Drop)]
pub struct FieldsReading {
    /// How many columns there are.
    columns: usize,
    /// The portal was made.
    bound: bool,
    rows: List<Cells>,
}

impl FieldsReading {
    /// The rows that this statement gives; none has come. It takes no memory.
    pub fn new(alloc: Global, statement: &Statement) -> FieldsReading
        ensures { reading_of_fields result ≡ all_rows (λ cells. Ok cells) (length statement.now.columns) }
    {
        FieldsReading {
            columns: statement.columns().len(),
            bound: false,
            rows: List::empty(alloc),
        }
    }

    /// What is told by a message that says this.
    fn tell(
        &mut self,
        alloc: Global,
        said: Said,
    ) -> Result<Option<Result<List<Cells>, Error>>, AllocError>
        ensures columns { self.new.columns ≡ self.old.columns }
        ensures does { IfOk result (λ told. Does (all_rows_by whole_row (rows_so_far self.old) (said_view said)) told (rows_so_far self.new)) }
        ensures tells { (message : Result wire.Message fault.WireFault) → FailsAtFault message said → IfOk result (λ told. TellsAtFault message told) }
    {
        match said {
            Said::Bound => {
                self.bound = true;
                Ok(None)
            }
            Said::Row(cells) => match self.rows.push(cells) {
                Ok(()) => Ok(None),
                Err(_) => Err(AllocError),
            },
            Said::Complete(_) | Said::Empty | Said::Suspended => Ok(None),
            Said::Ready => {
                let rows = mem::replace(&mut self.rows, List::empty(alloc));
                Ok(Some(Ok(rows)))
            }
            Said::Fails(error) => Ok(Some(Err(error))),
        }
    }
}

impl Reading for FieldsReading {
    ghost use Rattle.pg_search.specs.CatalogReadings.{reading_of_fields};

    type Output = List<Cells>;

    ghost reading = { reading_of_fields };

    fn message(
        &mut self,
        alloc: Global,
        message: &Result<Message, WireFault>,
    ) -> Result<Option<Result<List<Cells>, Error>>, AllocError> {
        let said = said_by(alloc, self.bound, self.columns, message)?;
        self.tell(alloc, said)
    }
}
