//! The reply to a text that was executed in one request, of which the count alone is told.

ghost use Rattle.std.specs.Prelude.{◌≡◌, IfOk};
ghost use Rattle.pg_wire.specs.Messages.{message_view};
ghost use Rattle.pg_spec.specs.Messages as message;
ghost use Rattle.pg_core.specs.Described.{Does};
ghost use Rattle.pg_core.specs.QueryReplies.{told_by};
ghost use Rattle.pg_execute.specs.Typed.{typed_count_message, typed_count_next};
ghost use Rattle.pg_execute.specs.TypedCounts.{reading_of_count};

use pg_errors::Error;
use pg_query::{Reading, extract_row_affected, malformed, server_error};
use pg_wire::{CommandCompleteBody, Message, WireFault};
use std::alloc::{AllocError, Global};

/// How many rows the last command affected, 0 where it was empty, where NoData stands behind it, or where none ended.
/// Columns and rows aren't read.
#[derive(Drop)]
pub struct TypedCountReading {
    count: u64,
}

impl TypedCountReading {
    /// Nothing was read.
    pub fn new() -> TypedCountReading
        ensures { reading_of_count result ≡ told_by typed_count_next 0 }
    {
        TypedCountReading { count: 0 }
    }

    /// A command ended.
    fn ends(&mut self, body: &CommandCompleteBody) -> Option<Result<u64, Error>>
        ensures { Does (typed_count_message self.old.count (message.CommandComplete body.now.tag)) result self.new.count }
    {
        match extract_row_affected(body) {
            Ok(affected) => {
                self.count = affected;
                None
            }
            Err(error) => Some(Err(error)),
        }
    }

    /// There is nothing to count.
    fn empty(&mut self) -> Option<Result<u64, Error>>
        ensures { Does (typed_count_message self.old.count message.EmptyQueryResponse) result self.new.count }
    {
        self.count = 0;
        None
    }

    /// What a message does.
    fn see(
        &mut self,
        alloc: Global,
        message: &Message,
    ) -> Result<Option<Result<u64, Error>>, AllocError>
        ensures { IfOk result (λ told. Does (typed_count_message self.old.count (message_view message.now)) told self.new.count) }
    {
        match message {
            Message::ParseComplete
            | Message::BindComplete
            | Message::ParameterDescription(_)
            | Message::RowDescription(_)
            | Message::DataRow(_) => Ok(None),
            Message::NoData | Message::EmptyQueryResponse => Ok(self.empty()),
            Message::CommandComplete(body) => Ok(self.ends(body)),
            Message::ReadyForQuery(_) => Ok(Some(Ok(self.count))),
            Message::ErrorResponse(body) => Ok(Some(Err(server_error(alloc, body)?))),
            _ => Ok(Some(Err(Error::UnexpectedMessage))),
        }
    }
}

impl Reading for TypedCountReading {
    ghost use Rattle.pg_execute.specs.TypedCounts.{reading_of_count};

    type Output = u64;

    ghost reading = { reading_of_count };

    fn message(
        &mut self,
        alloc: Global,
        message: &Result<Message, WireFault>,
    ) -> Result<Option<Result<u64, Error>>, AllocError> {
        match message {
            Ok(message) => self.see(alloc, message),
            Err(fault) => match malformed(*fault) {
                Some(error) => Ok(Some(Err(error))),
                None => Err(AllocError),
            },
        }
    }
}
