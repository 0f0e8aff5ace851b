//! The reply that gives a type's own row, read message by message.

ghost use Rattle.std.specs.Prelude.{◌≡◌, length, false, Result, IfOk};
ghost use Rattle.pg_types.specs.declared.faults.WireFault as fault;
ghost use Rattle.pg_wire.specs.declared.message.Message as wire;
ghost use Rattle.pg_query.specs.Reading.{TellsAtFault};
ghost use Rattle.pg_core.specs.Lookups.{type_row};
ghost use Rattle.pg_core.specs.QueryReplies.{first_row, first_row_by};
ghost use Rattle.pg_search.specs.CatalogReadings.{reading_of_row};
ghost use Rattle.pg_search.specs.Saying.{said_view, Does, FailsAtFault};

use crate::TypeRow;
use crate::catalog_rows::type_row;
use crate::said::{Said, said_by, settled};
use pg_desk::Statement;
use pg_errors::Error;
use pg_query::Reading;
use pg_wire::{Message, WireFault};
use std::alloc::{AllocError, Global};

/// The first row of a reply, read as a type's own. An end without one is UnexpectedMessage.
#[derive(Drop)]
pub struct RowReading {
    statement: Statement,
    /// The portal was made.
    bound: bool,
}

impl RowReading {
    /// The rows that this statement gives; none was read. It takes no memory.
    pub fn new(statement: Statement) -> RowReading
        ensures { reading_of_row result ≡ first_row (type_row statement.columns) (length statement.columns) }
    {
        RowReading {
            statement,
            bound: false,
        }
    }

    fn width(&self) -> usize
        ensures { result ≡ length self.now.statement.columns }
    {
        self.statement.columns().len()
    }

    /// What is told by a message that says this.
    fn tell(
        &mut self,
        alloc: Global,
        said: Said,
    ) -> Result<Option<Result<TypeRow, Error>>, AllocError>
        ensures statement { self.new.statement ≡ self.old.statement }
        ensures does { IfOk result (λ told. Does (first_row_by (type_row self.old.statement.columns) self.old.bound (said_view said)) told self.new.bound) }
        ensures tells { (message : Result wire.Message fault.WireFault) → FailsAtFault message said → IfOk result (λ told. TellsAtFault message told) }
    {
        match said {
            Said::Bound => {
                self.bound = true;
                Ok(None)
            }
            Said::Row(cells) => {
                let row = type_row(alloc, self.statement.columns(), cells.as_slice());
                let row = settled(row)?;
                Ok(Some(row))
            }
            Said::Complete(_) | Said::Empty | Said::Suspended => Ok(None),
            Said::Ready => Ok(Some(Err(Error::UnexpectedMessage))),
            Said::Fails(error) => Ok(Some(Err(error))),
        }
    }
}

impl Reading for RowReading {
    ghost use Rattle.pg_search.specs.CatalogReadings.{reading_of_row};

    type Output = TypeRow;

    ghost reading = { reading_of_row };

    fn message(
        &mut self,
        alloc: Global,
        message: &Result<Message, WireFault>,
    ) -> Result<Option<Result<TypeRow, Error>>, AllocError> {
        let said = said_by(alloc, self.bound, self.width(), message)?;
        self.tell(alloc, said)
    }
}
