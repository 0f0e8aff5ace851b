//! The rest of a reply, which is taken before the types of its columns are looked up.

ghost use Rattle.std.specs.Prelude.{◌≡◌, ◌++◌, ◌∷◌, [], Ok, IfOk, IsErr, true};
ghost use Rattle.pg_spec.specs.RawMessages.{RawMessage};
ghost use Rattle.pg_query.specs.Messages.{Means};
ghost use Rattle.pg_core.specs.Described.{Does};
ghost use Rattle.pg_execute.specs.Rows.{at_end, behind_row, rows_by};
ghost use Rattle.pg_execute.specs.Saying.{said_view};
ghost use Rattle.pg_execute.specs.Typed.{columns_came, is_end};
ghost use Rattle.pg_execute.specs.Rests.{Takes, rest_at, takes_rest_of};

use crate::reads_on::only_release;
use crate::{Got, HowMany, Said, said_by};
use pg_errors::Error;
use pg_query::{Action, Cleanup, Reply, Script, Want};
use pg_rows::RowCells;
use pg_wire::{Message, WireFault};
use std::alloc::{AllocError, Global};
use std::collections::VecDeque;
use std::mem;

/// Takes what comes up to ReadyForQuery, an error of the server or what is malformed, and hangs the request up. So the
/// reply is read to its end before anything else is asked: a reader that left its mailbox full would stop the connection.
/// Of what came it keeps what it tells of the rows, up to the first message that tells the answer.
#[derive(Drop)]
pub struct TakesRest {
    pub(crate) columns: usize,
    pub(crate) how_many: HowMany,
    pub(crate) got: Got,
    /// What the rows tell, once they tell it.
    pub(crate) told: Option<Result<Got, Error>>,
    /// The request is hung up.
    pub(crate) ended: bool,
}

/// It ends the reply.
fn ends(message: &Result<Message, WireFault>) -> bool
    ensures says { (raw : RawMessage) → Means raw message.now → result ≡ is_end raw }
    ensures malformed { IsErr message.now → result ≡ true }
{
    match message {
        Ok(Message::ErrorResponse(_)) | Ok(Message::ReadyForQuery(_)) => true,
        Ok(_) => false,
        Err(_) => true,
    }
}

impl TakesRest {
    /// The rest behind this many columns, of whose rows there may be so many. It takes no memory.
    pub fn new(alloc: Global, columns: usize, how_many: HowMany) -> TakesRest
        ensures { rest_at result ≡ takes_rest_of how_many columns }
    {
        TakesRest {
            columns,
            how_many,
            got: Got::columns_came(alloc),
            told: None,
            ended: false,
        }
    }

    /// A row more. One too many is refused.
    fn row(&mut self, cells: RowCells) -> Result<Option<Result<Got, Error>>, AllocError>
        ensures same { self.new ≡ record self.old { got = self.new.got } }
        ensures does { IfOk result (λ told. Does (behind_row self.old.how_many (record self.old.got { rows = self.old.got.rows ++ cells ∷ [] })) told self.new.got) }
    {
        match self.got.rows.push(cells) {
            Ok(()) => {}
            Err(_) => return Err(AllocError),
        }
        if !self.how_many.may_have(self.got.rows.as_slice().len()) {
            return Ok(Some(Err(Error::RowCount)));
        }
        Ok(None)
    }

    /// What the end of the reply tells.
    fn end(&mut self, alloc: Global) -> Result<Got, Error>
        ensures same { self.new ≡ record self.old { got = self.new.got } }
        ensures ends { result ≡ at_end self.old.how_many (λ g. Ok g) self.old.got }
    {
        if !self.how_many.is_enough(self.got.rows.as_slice().len()) {
            return Err(Error::RowCount);
        }
        Ok(mem::replace(&mut self.got, Got::columns_came(alloc)))
    }

    /// What is told by a message that says this.
    fn tell(&mut self, alloc: Global, said: Said) -> Result<Option<Result<Got, Error>>, AllocError>
        ensures same { self.new ≡ record self.old { got = self.new.got } }
        ensures does { IfOk result (λ told. Does (rows_by self.old.how_many (λ g. Ok g) self.old.got (said_view said)) told self.new.got) }
    {
        match said {
            Said::Bound => {
                self.got.bound = true;
                Ok(None)
            }
            Said::Row(cells) => self.row(cells),
            Said::Complete(affected) => {
                self.got.affected = Some(affected);
                Ok(None)
            }
            Said::Empty | Said::Suspended => Ok(None),
            Said::Ready => Ok(Some(self.end(alloc))),
            Said::Fails(error) => Ok(Some(Err(error))),
        }
    }

    /// Keeps what a message tells, unless something was told before.
    fn take(
        &mut self,
        alloc: Global,
        message: &Result<Message, WireFault>,
    ) -> Result<(), AllocError>
        ensures same { self.new.ended ≡ self.old.ended }
        ensures takes { (raw : RawMessage) → Means raw message.now → IfOk result (λ _. Takes self.old raw self.new) }
    {
        if self.told.is_some() {
            return Ok(());
        }
        let said = said_by(alloc, self.got.bound, self.columns, message)?;
        self.told = self.tell(alloc, said)?;
        Ok(())
    }
}

impl Script for TakesRest {
    ghost use Rattle.pg_query.specs.Scripts.{waiting_at};
    ghost use Rattle.pg_execute.specs.Rests.{rest_at, rest_refuses};

    type Output = Result<Got, Error>;

    ghost dialogue = { rest_at };

    ghost refuses = { rest_refuses };

    ghost waits = { λ s. waiting_at (rest_at s) };

    ghost steps = { λ _. 0 };

    fn next(&mut self, alloc: Global) -> Result<Want<Result<Got, Error>>, AllocError> {
        if !self.ended {
            return Ok(Want::Read);
        }
        match self.told.take() {
            Some(told) => Ok(Want::Answer(Ok(told))),
            // Nothing was told up to the end of the reply.
            None => Ok(Want::Answer(Ok(Err(Error::UnexpectedMessage)))),
        }
    }

    fn message(
        &mut self,
        alloc: Global,
        message: &Result<Message, WireFault>,
    ) -> Result<Want<Result<Got, Error>>, AllocError> {
        self.take(alloc, message)?;
        if !ends(message) {
            return Ok(Want::Read);
        }
        self.ended = true;
        Ok(Want::Act(Action::HangUp))
    }

    fn reply(
        &mut self,
        alloc: Global,
        reply: Reply,
    ) -> Result<Want<Result<Got, Error>>, AllocError> {
        // It asks nothing.
        Err(AllocError)
    }

    fn refused(
        &mut self,
        alloc: Global,
        error: Error,
    ) -> Result<Want<Result<Got, Error>>, AllocError> {
        Ok(Want::Answer(Err(error)))
    }

    fn cleanup(&self, alloc: Global) -> Result<VecDeque<Cleanup>, AllocError> {
        only_release(alloc)
    }
}
