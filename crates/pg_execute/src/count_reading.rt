//! The reply to an execute of which the count alone is told, read message by message.

ghost use Rattle.std.specs.Prelude.{◌≡◌, false, true, IfOk};
ghost use Rattle.pg_spec.specs.Messages as message;
ghost use Rattle.pg_wire.specs.Messages.{message_view};
ghost use Rattle.pg_core.specs.Described.{Does};
ghost use Rattle.pg_execute.specs.Counts.{count_by, count_read, nothing_counted};
ghost use Rattle.pg_execute.specs.CountReadings.{counted_of, reading_of_count};

use pg_errors::Error;
use pg_query::{Reading, extract_row_affected, malformed, server_error};
use pg_wire::{CommandCompleteBody, Message, WireFault};
use std::alloc::{AllocError, Global};

/// How many rows a command affected. Rows aren't read.
#[derive(Drop)]
pub struct CountReading {
    /// BindComplete came.
    bound: bool,
    /// How many rows the last command affected, 0 where it was empty or none ended.
    count: u64,
}

impl CountReading {
    /// Nothing was read.
    pub(crate) fn new() -> CountReading
        ensures { reading_of_count result ≡ count_read nothing_counted }
    {
        CountReading {
            bound: false,
            count: 0,
        }
    }

    /// The portal was made.
    fn begins(&mut self) -> Option<Result<u64, Error>>
        ensures { Does (count_by false self.old.count message.BindComplete) result (counted_of self.new) }
    {
        self.bound = true;
        None
    }

    /// A command ended.
    fn ends(&mut self, body: &CommandCompleteBody) -> Option<Result<u64, Error>>
        ensures { self.old.bound ≡ true → Does (count_by true self.old.count (message.CommandComplete body.now.tag)) result (counted_of self.new) }
    {
        match extract_row_affected(body) {
            Ok(affected) => {
                self.count = affected;
                None
            }
            Err(error) => Some(Err(error)),
        }
    }

    /// What a message does before BindComplete.
    fn before(
        &mut self,
        alloc: Global,
        message: &Message,
    ) -> Result<Option<Result<u64, Error>>, AllocError>
        ensures { IfOk result (λ told. Does (count_by false self.old.count (message_view message.now)) told (counted_of self.new)) }
    {
        match message {
            Message::BindComplete => Ok(self.begins()),
            Message::ErrorResponse(body) => Ok(Some(Err(server_error(alloc, body)?))),
            _ => Ok(Some(Err(Error::UnexpectedMessage))),
        }
    }

    /// What a message does behind BindComplete.
    fn behind(
        &mut self,
        alloc: Global,
        message: &Message,
    ) -> Result<Option<Result<u64, Error>>, AllocError>
        ensures { self.old.bound ≡ true → IfOk result (λ told. Does (count_by true self.old.count (message_view message.now)) told (counted_of self.new)) }
    {
        match message {
            Message::DataRow(_) => Ok(None),
            Message::CommandComplete(body) => Ok(self.ends(body)),
            Message::EmptyQueryResponse => {
                self.count = 0;
                Ok(None)
            }
            Message::ReadyForQuery(_) => Ok(Some(Ok(self.count))),
            Message::ErrorResponse(body) => Ok(Some(Err(server_error(alloc, body)?))),
            _ => Ok(Some(Err(Error::UnexpectedMessage))),
        }
    }

    /// What a message does.
    fn see(
        &mut self,
        alloc: Global,
        message: &Message,
    ) -> Result<Option<Result<u64, Error>>, AllocError>
        ensures { IfOk result (λ told. Does (count_by self.old.bound self.old.count (message_view message.now)) told (counted_of self.new)) }
    {
        if self.bound {
            self.behind(alloc, message)
        } else {
            self.before(alloc, message)
        }
    }
}

impl Reading for CountReading {
    ghost use Rattle.pg_execute.specs.CountReadings.{reading_of_count};

    type Output = u64;

    ghost reading = { reading_of_count };

    fn message(
        &mut self,
        alloc: Global,
        message: &Result<Message, WireFault>,
    ) -> Result<Option<Result<u64, Error>>, AllocError> {
        match message {
            Ok(message) => self.see(alloc, message),
            Err(fault) => match malformed(*fault) {
                Some(error) => Ok(Some(Err(error))),
                None => Err(AllocError),
            },
        }
    }
}
