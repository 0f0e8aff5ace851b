//! The reply to a query of which the first rows are read, message by message.
//! It stops behind the last row that was asked for, whether the command goes on or not, as a stream does that is
//! given up; so a count stands only if the command ended before.

ghost use Rattle.std.specs.Prelude.{◌≡◌, length, Result, IfOk};
ghost use Rattle.pg_types.specs.declared.faults.WireFault as fault;
ghost use Rattle.pg_spec.specs.Readings.{GoesOn};
ghost use Rattle.pg_wire.specs.declared.message.Message as wire;
ghost use Rattle.pg_query.specs.Reading.{TellsAtFault};
ghost use Rattle.pg_core.specs.Described.{Does};
ghost use Rattle.pg_execute.specs.Rows.{at_end, first_rows_by, first_rows_read, has_so_many, nothing_got, up_to};
ghost use Rattle.pg_execute.specs.RowsReadings.{reading_of_first};
ghost use Rattle.pg_execute.specs.Saying.{said_view, FailsAtFault};
ghost use Rattle.pg_execute.specs.declared.how_many.HowMany.TheVariants.{Any};

use crate::got::Got;
use crate::how_many::HowMany;
use crate::make::Make;
use crate::rows_reading::RowsReading;
use crate::said::{Said, said_by};
use pg_desk::Statement;
use pg_errors::Error;
use pg_query::Reading;
use pg_wire::{Message, WireFault};
use std::alloc::{AllocError, Global};

/// The first rows of a reply, of which something is made once so many came, or at its end.
#[derive(Drop)]
pub struct FirstRows<M> {
    pub(crate) rows: RowsReading<M>,
    pub(crate) take: u64,
}

impl<M: Make> FirstRows<M> {
    /// The first rows of this statement, so many at most; nothing was read. It takes no memory.
    pub(crate) fn new(alloc: Global, statement: Statement, take: u64, make: M) -> FirstRows<M>
        ensures { reading_of_first M.makes result ≡ first_rows_read take Any (length statement.columns) (M.makes make statement) nothing_got }
    {
        FirstRows {
            rows: RowsReading {
                statement,
                how_many: HowMany::Any,
                make,
                got: Got::nothing(alloc),
            },
            take,
        }
    }

    /// So many rows came.
    fn has_so_many(&self) -> bool
        ensures { result ≡ has_so_many self.now.take self.now.rows.got }
    {
        self.rows.got.bound && self.take <= self.rows.got.rows.as_slice().len() as u64
    }

    /// What is told behind a message that tells nothing itself.
    fn pause(&mut self, alloc: Global) -> Result<Option<Result<M::Output, Error>>, AllocError>
        ensures same { self.new ≡ record self.old { rows = record self.old.rows { got = self.new.rows.got } } }
        ensures does { IfOk result (λ told. Does (up_to self.old.take (at_end self.old.rows.how_many (M.makes self.old.rows.make self.old.rows.statement)) (GoesOn self.old.rows.got)) told self.new.rows.got) }
    {
        if !self.has_so_many() {
            return Ok(None);
        }
        let made = self.rows.end(alloc)?;
        Ok(Some(made))
    }

    /// What is told by a message that says this.
    fn tell(
        &mut self,
        alloc: Global,
        said: Said,
    ) -> Result<Option<Result<M::Output, Error>>, AllocError>
        ensures same { self.new ≡ record self.old { rows = record self.old.rows { got = self.new.rows.got } } }
        ensures does { IfOk result (λ told. Does (first_rows_by self.old.take self.old.rows.how_many (M.makes self.old.rows.make self.old.rows.statement) self.old.rows.got (said_view said)) told self.new.rows.got) }
        ensures tells { (message : Result wire.Message fault.WireFault) → FailsAtFault message said → IfOk result (λ told. TellsAtFault message told) }
    {
        match self.rows.tell(alloc, said)? {
            Some(told) => Ok(Some(told)),
            None => self.pause(alloc),
        }
    }
}

impl<M: Make> Reading for FirstRows<M> {
    ghost use Rattle.pg_execute.specs.RowsReadings.{reading_of_first};

    type Output = M::Output;

    ghost reading = { reading_of_first M.makes };

    fn message(
        &mut self,
        alloc: Global,
        message: &Result<Message, WireFault>,
    ) -> Result<Option<Result<M::Output, Error>>, AllocError> {
        let said = said_by(alloc, self.rows.got.bound, self.rows.width(), message)?;
        self.tell(alloc, said)
    }
}
