//! Replies that are read for their end alone (PostgreSQL documentation, "Simple Query", "Extended Query").

ghost use Rattle.std.specs.Prelude.{◌≡◌, ◌&&◌, IfOk, true, false};
ghost use Rattle.pg_wire.specs.Messages.{message_view};
ghost use Rattle.pg_client.specs.Done as spec;
ghost use Rattle.pg_client.specs.Done.{reading_of};

use pg_errors::Error;
use pg_query::{Reading, malformed, server_error};
use pg_wire::{Message, WireFault};
use std::alloc::{AllocError, Global};

/// A reply of which nothing is kept.
#[derive(Drop)]
pub struct DoneReading {
    /// What statements give is passed over unread. Otherwise it has no place in the reply.
    pub(crate) results: bool,
}

impl DoneReading {
    /// The reply to a batch of statements.
    pub fn of_batch() -> DoneReading
        ensures { result.results ≡ true }
    {
        DoneReading { results: true }
    }

    /// The reply to a Sync alone.
    pub(crate) fn of_sync() -> DoneReading
        ensures { result.results ≡ false }
    {
        DoneReading { results: false }
    }

    /// The message is passed over.
    fn passes(&self, message: &Message) -> bool
        ensures { result ≡ (self.now.results && spec.is_of_result (message_view message.now)) }
    {
        self.results && is_of_result(message)
    }
}

/// Whether it is a message of what a statement gives.
fn is_of_result(message: &Message) -> bool
    ensures { result ≡ spec.is_of_result (message_view message.now) }
{
    match message {
        Message::CommandComplete(_) => true,
        Message::DataRow(_) => true,
        Message::EmptyQueryResponse => true,
        Message::RowDescription(_) => true,
        _ => false,
    }
}

/// What any other message tells.
fn told_by(alloc: Global, message: &Message) -> Result<Result<(), Error>, AllocError>
    ensures { IfOk result (λ told. told ≡ spec.told_by (message_view message.now)) }
{
    match message {
        Message::ReadyForQuery(_) => Ok(Ok(())),
        Message::ErrorResponse(body) => {
            let error = server_error(alloc, body)?;
            Ok(Err(error))
        }
        _ => Ok(Err(Error::UnexpectedMessage)),
    }
}

impl Reading for DoneReading {
    type Output = ();

    ghost reading = { reading_of };

    fn message(
        &mut self,
        alloc: Global,
        message: &Result<Message, WireFault>,
    ) -> Result<Option<Result<(), Error>>, AllocError> {
        let message = match message {
            Ok(message) => message,
            Err(fault) => {
                return match malformed(*fault) {
                    Some(error) => Ok(Some(Err(error))),
                    None => Err(AllocError),
                };
            }
        };
        if self.passes(message) {
            return Ok(None);
        }
        let told = told_by(alloc, message)?;
        Ok(Some(told))
    }
}
