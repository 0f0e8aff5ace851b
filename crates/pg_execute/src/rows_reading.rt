//! The reply to a query, read message by message.

ghost use Rattle.std.specs.Prelude.{◌≡◌, ◌++◌, ◌∷◌, [], length, Result, IfOk};
ghost use Rattle.pg_types.specs.declared.faults.WireFault as fault;
ghost use Rattle.pg_wire.specs.declared.message.Message as wire;
ghost use Rattle.pg_query.specs.Reading.{TellsAtFault};
ghost use Rattle.pg_core.specs.Described.{Does};
ghost use Rattle.pg_execute.specs.Rows.{at_end, behind_row, nothing_got, rows_by, rows_read};
ghost use Rattle.pg_execute.specs.RowsReadings.{reading_of_rows};
ghost use Rattle.pg_execute.specs.Saying.{said_view, FailsAtFault};
ghost use Rattle.pg_execute.specs.Typed.{columns_came};

use crate::got::Got;
use crate::how_many::HowMany;
use crate::make::Make;
use crate::said::{Said, said_by};
use pg_desk::Statement;
use pg_errors::Error;
use pg_query::Reading;
use pg_rows::RowCells;
use pg_wire::{Message, WireFault};
use std::alloc::{AllocError, Global};
use std::mem;

/// The rows of a reply, of which something is made at its end.
#[derive(Drop)]
pub struct RowsReading<M> {
    pub(crate) statement: Statement,
    pub(crate) how_many: HowMany,
    pub(crate) make: M,
    pub(crate) got: Got,
}

impl<M: Make> RowsReading<M> {
    /// The rows of this statement, of which there may be so many; nothing was read. It takes no memory.
    pub(crate) fn new(
        alloc: Global,
        statement: Statement,
        how_many: HowMany,
        make: M,
    ) -> RowsReading<M>
        ensures { reading_of_rows M.makes result ≡ rows_read how_many (length statement.columns) (M.makes make statement) nothing_got }
    {
        RowsReading {
            statement,
            how_many,
            make,
            got: Got::nothing(alloc),
        }
    }

    /// The same where BindComplete and the columns came before. It takes no memory.
    pub fn behind_columns(
        alloc: Global,
        statement: Statement,
        how_many: HowMany,
        make: M,
    ) -> RowsReading<M>
        ensures { reading_of_rows M.makes result ≡ rows_read how_many (length statement.columns) (M.makes make statement) columns_came }
    {
        RowsReading {
            statement,
            how_many,
            make,
            got: Got::columns_came(alloc),
        }
    }

    /// How many columns there are.
    pub(crate) fn width(&self) -> usize
        ensures { result ≡ length self.now.statement.columns }
    {
        self.statement.columns().len()
    }

    /// A row more. One too many is refused.
    fn row(&mut self, cells: RowCells) -> Result<Option<Result<M::Output, Error>>, AllocError>
        ensures same { self.new ≡ record self.old { got = self.new.got } }
        ensures does { IfOk result (λ told. Does (behind_row self.old.how_many (record self.old.got { rows = self.old.got.rows ++ cells ∷ [] })) told self.new.got) }
    {
        match self.got.rows.push(cells) {
            Ok(()) => {}
            Err(_) => return Err(AllocError),
        }
        if !self.how_many.may_have(self.got.rows.as_slice().len()) {
            return Ok(Some(Err(Error::RowCount)));
        }
        Ok(None)
    }

    /// What the end of the reply tells.
    pub(crate) fn end(&mut self, alloc: Global) -> Result<Result<M::Output, Error>, AllocError>
        ensures same { self.new ≡ record self.old { got = self.new.got } }
        ensures ends { IfOk result (λ told. told ≡ at_end self.old.how_many (M.makes self.old.make self.old.statement) self.old.got) }
    {
        if !self.how_many.is_enough(self.got.rows.as_slice().len()) {
            return Ok(Err(Error::RowCount));
        }
        let got = mem::replace(&mut self.got, Got::nothing(alloc));
        self.make.make(alloc, &self.statement, got)
    }

    /// What is told by a message that says this.
    pub(crate) fn tell(
        &mut self,
        alloc: Global,
        said: Said,
    ) -> Result<Option<Result<M::Output, Error>>, AllocError>
        ensures same { self.new ≡ record self.old { got = self.new.got } }
        ensures does { IfOk result (λ told. Does (rows_by self.old.how_many (M.makes self.old.make self.old.statement) self.old.got (said_view said)) told self.new.got) }
        ensures tells { (message : Result wire.Message fault.WireFault) → FailsAtFault message said → IfOk result (λ told. TellsAtFault message told) }
    {
        match said {
            Said::Bound => {
                self.got.bound = true;
                Ok(None)
            }
            Said::Row(cells) => self.row(cells),
            Said::Complete(affected) => {
                self.got.affected = Some(affected);
                Ok(None)
            }
            Said::Empty | Said::Suspended => Ok(None),
            Said::Ready => {
                let made = self.end(alloc)?;
                Ok(Some(made))
            }
            Said::Fails(error) => Ok(Some(Err(error))),
        }
    }
}

impl<M: Make> Reading for RowsReading<M> {
    ghost use Rattle.pg_execute.specs.RowsReadings.{reading_of_rows};

    type Output = M::Output;

    ghost reading = { reading_of_rows M.makes };

    fn message(
        &mut self,
        alloc: Global,
        message: &Result<Message, WireFault>,
    ) -> Result<Option<Result<M::Output, Error>>, AllocError> {
        let said = said_by(alloc, self.got.bound, self.width(), message)?;
        self.tell(alloc, said)
    }
}
