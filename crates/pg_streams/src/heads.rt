//! The request of a typed query, up to its columns.

ghost use Rattle.std.specs.Prelude.{◌≡◌, Ok, IfOk};
ghost use Rattle.pg_spec.specs.Messages.{message_of};
ghost use Rattle.pg_spec.specs.RawMessages.{RawMessage};
ghost use Rattle.pg_wire.specs.Messages.{message_view};
ghost use Rattle.pg_query.specs.Meaning.{MatchPoll};
ghost use Rattle.pg_streams.specs.Heads.{HeadComes, HeadReads, HeadTells, HeadWaits, IsRefusal};

use crate::taking::{Came, fail, take_batch};
use futures::task::Poll;
use pg_core::NewColumn;
use pg_desk::{Desk, Stamp};
use pg_errors::Error;
use pg_execute::HeadReading;
use pg_query::{Reading, malformed};
use pg_types::List;
use pg_wire::{BackendMessages, Message, WireFault};
use std::alloc::{AllocError, Global};

/// A request whose columns haven't come.
#[derive(Drop)]
pub(crate) struct Heads {
    pub(crate) id: u64,
    /// The messages that came and aren't read yet.
    pub(crate) batch: BackendMessages,
}

/// The error of a message that is refused by this fault; want of memory is told apart.
fn refused(fault: WireFault) -> Result<Error, Error>
    ensures { IsRefusal fault result }
{
    match malformed(fault) {
        Some(error) => Ok(error),
        None => Err(Error::OutOfMemory),
    }
}

/// What a message tells of the columns.
fn told_of(
    alloc: Global,
    message: Message,
) -> Result<Option<Result<List<NewColumn>, Error>>, AllocError>
    ensures { (raw : RawMessage) → message_of raw ≡ Ok (message_view message) → IfOk result (λ told. HeadTells raw told) }
{
    let mut reading = HeadReading {};
    let message = Ok(message);
    reading.message(alloc, &message)
}

impl Heads {
    /// Reads the messages that came, up to the columns or an error.
    fn read(&mut self, alloc: Global) -> Result<Option<Result<List<NewColumn>, Error>>, Error>
        ensures reads { HeadReads self.old self.new result }
        ensures id { self.new.id ≡ self.old.id }
    {
        loop {
            match self.batch.next() {
                Ok(None) => return Ok(None),
                Ok(Some(message)) => {
                    if let Some(told) = told_of(alloc, message)? {
                        return Ok(Some(told));
                    }
                }
                Err(fault) => return Ok(Some(Err(refused(fault)?))),
            }
        }
    }

    /// These messages are read next.
    fn refill(&mut self, batch: BackendMessages)
        ensures { self.new ≡ record self.old { batch = batch } }
    {
        self.batch = batch;
    }

    /// Reads on to the columns. Behind an error that a message tells the request was hung up.
    pub(crate) fn go_on<D: Desk>(
        &mut self,
        alloc: Global,
        desk: &mut D,
        stamp: Stamp,
    ) -> Poll<Result<List<NewColumn>, Error>>
        ensures comes { MatchPoll result
            (λ r. HeadComes D.becomes stamp desk.old self.old desk.new self.new r)
            (HeadWaits D.becomes stamp desk.old self.old desk.new self.new) }
        ensures id { self.new.id ≡ self.old.id }
    {
        loop {
            match self.read(alloc) {
                Ok(None) => {}
                Ok(Some(Ok(columns))) => return Poll::Ready(Ok(columns)),
                Ok(Some(Err(error))) => return Poll::Ready(Err(fail(desk, self.id, error))),
                Err(error) => return Poll::Ready(Err(error)),
            }
            match take_batch(desk, self.id) {
                Came::Batch(batch) => self.refill(batch),
                Came::Nothing => return Poll::Pending,
                Came::Fails(error) => return Poll::Ready(Err(error)),
            }
        }
    }
}
