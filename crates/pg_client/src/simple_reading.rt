//! The reply to a simple query, read message by message (PostgreSQL documentation, "Simple Query").

ghost use Rattle.std.specs.Prelude.{◌≡◌, ◌++◌, ◌∷◌, [], None, is_some, IfOk, OnOk};
ghost use Rattle.pg_spec.specs.SimpleQuery as spec;
ghost use Rattle.pg_wire.specs.Messages.{message_view};
ghost use Rattle.pg_spec.specs.Bodies.{fields_of};
ghost use Rattle.pg_spec.specs.RawMessages.{RawMessage};
ghost use Rattle.pg_query.specs.Messages.{Means};
ghost use Rattle.pg_query.specs.Reading.{ReadsOn, TellsAtFault};
ghost use Rattle.pg_client.specs.Simple.{reading_of, state_of, item_of, IsSeen, next_of_complete, next_of_row};

use pg_errors::{Cause, Error};
use pg_query::{
    Reading, SimpleMessage, column_names, extract_row_affected, malformed, row_cells, server_error,
    unreadable,
};
use pg_types::List;
use pg_wire::{CommandCompleteBody, DataRowBody, Message, RowDescriptionBody, WireFault};
use std::alloc::{AllocError, Global};
use std::mem;

/// What was read of the reply so far.
#[derive(Drop)]
pub struct SimpleReading {
    pub(crate) columns: Option<usize>,
    pub(crate) items: List<SimpleMessage>,
    /// How many parts of the answer are wanted, all where it is None.
    pub(crate) take: Option<u64>,
}

/// What a message does to the reading.
#[derive(Drop)]
pub(crate) enum Seen {
    More,
    /// The reply ends.
    Ends,
    Fails(Error),
}

impl SimpleReading {
    /// Nothing was read. It takes no memory.
    pub(crate) fn new(alloc: Global, take: Option<u64>) -> SimpleReading
        ensures take { result.take ≡ take }
        ensures state { state_of result ≡ record { columns = None; items = [] } }
    {
        SimpleReading {
            columns: None,
            items: List::empty(alloc),
            take,
        }
    }

    /// As many parts as are wanted are there.
    pub(crate) fn has_enough(&self) -> bool
        ensures { result ≡ is_some (spec.has_enough self.now.take (state_of self.now)) }
    {
        match self.take {
            Some(wanted) => self.items.as_slice().len() as u64 >= wanted,
            None => false,
        }
    }

    fn give(&mut self, alloc: Global) -> List<SimpleMessage>
        ensures { result ≡ self.old.items }
    {
        mem::replace(&mut self.items, List::empty(alloc))
    }

    fn add(&mut self, item: SimpleMessage) -> Result<(), AllocError>
        ensures take { self.new.take ≡ self.old.take }
        ensures columns { self.new.columns ≡ self.old.columns }
        ensures items { OnOk result ((state_of self.new).items ≡ (state_of self.old).items ++ item_of item ∷ []) }
    {
        match self.items.push(item) {
            Ok(()) => Ok(()),
            Err(_) => Err(AllocError),
        }
    }

    fn complete(&mut self, body: &CommandCompleteBody) -> Result<Seen, AllocError>
        ensures take { self.new.take ≡ self.old.take }
        ensures seen { IfOk result (λ seen. IsSeen (next_of_complete (state_of self.old) body.now.tag) seen (state_of self.new)) }
    {
        match extract_row_affected(body) {
            Ok(affected) => {
                self.add(SimpleMessage::Complete(affected))?;
                Ok(Seen::More)
            }
            Err(error) => Ok(Seen::Fails(error)),
        }
    }

    fn describe(&mut self, alloc: Global, body: &RowDescriptionBody) -> Result<Seen, AllocError>
        ensures take { self.new.take ≡ self.old.take }
        ensures seen { IfOk result (λ seen. IsSeen (spec.reads_columns (state_of self.old) (fields_of body.now.count body.now.fields)) seen (state_of self.new)) }
    {
        match column_names(alloc, body) {
            Ok(names) => {
                self.columns = Some(names.as_slice().len());
                self.add(SimpleMessage::Columns(names))?;
                Ok(Seen::More)
            }
            Err(fault) => match unreadable(fault) {
                Some(error) => Ok(Seen::Fails(error)),
                None => Err(AllocError),
            },
        }
    }

    fn row(&mut self, alloc: Global, body: &DataRowBody) -> Result<Seen, AllocError>
        ensures take { self.new.take ≡ self.old.take }
        ensures seen { IfOk result (λ seen. IsSeen (next_of_row (state_of self.old) body.now.count body.now.cells) seen (state_of self.new)) }
    {
        let Some(columns) = self.columns else {
            return Ok(Seen::Fails(Error::UnexpectedMessage));
        };
        match row_cells(alloc, body) {
            Ok(cells) => {
                if cells.as_slice().len() != columns {
                    return Ok(Seen::Fails(Error::Parse(Cause::FieldCount)));
                }
                self.add(SimpleMessage::Row(cells))?;
                Ok(Seen::More)
            }
            Err(fault) => match unreadable(fault) {
                Some(error) => Ok(Seen::Fails(error)),
                None => Err(AllocError),
            },
        }
    }

    /// What a message does.
    fn see(&mut self, alloc: Global, message: &Message) -> Result<Seen, AllocError>
        ensures take { self.new.take ≡ self.old.take }
        ensures seen { IfOk result (λ seen. IsSeen (spec.simple_message (state_of self.old) (message_view message.now)) seen (state_of self.new)) }
    {
        match message {
            Message::CommandComplete(body) => self.complete(body),
            Message::EmptyQueryResponse => {
                self.add(SimpleMessage::Complete(0))?;
                Ok(Seen::More)
            }
            Message::RowDescription(body) => self.describe(alloc, body),
            Message::DataRow(body) => self.row(alloc, body),
            Message::ReadyForQuery(_) => Ok(Seen::Ends),
            Message::ErrorResponse(body) => Ok(Seen::Fails(server_error(alloc, body)?)),
            _ => Ok(Seen::Fails(Error::UnexpectedMessage)),
        }
    }

    /// The answer, once the message tells it.
    fn tell(
        &mut self,
        alloc: Global,
        message: &Result<Message, WireFault>,
    ) -> Result<Option<Result<List<SimpleMessage>, Error>>, AllocError>
        ensures reads { (raw : RawMessage) → Means raw message.now → IfOk result (λ told. ReadsOn reading_of self.old raw told self.new) }
        ensures tells { IfOk result (λ told. TellsAtFault message.now told) }
    {
        if self.has_enough() {
            return Ok(Some(Ok(self.give(alloc))));
        }
        let message = match message {
            Ok(message) => message,
            Err(fault) => {
                return match malformed(*fault) {
                    Some(error) => Ok(Some(Err(error))),
                    None => Err(AllocError),
                };
            }
        };
        match self.see(alloc, message) {
            Ok(Seen::Fails(error)) => Ok(Some(Err(error))),
            Ok(Seen::Ends) => Ok(Some(Ok(self.give(alloc)))),
            Ok(Seen::More) => {
                if self.has_enough() {
                    return Ok(Some(Ok(self.give(alloc))));
                }
                Ok(None)
            }
            Err(_) => Err(AllocError),
        }
    }
}

impl Reading for SimpleReading {
    type Output = List<SimpleMessage>;

    ghost reading = { reading_of };

    fn message(
        &mut self,
        alloc: Global,
        message: &Result<Message, WireFault>,
    ) -> Result<Option<Result<List<SimpleMessage>, Error>>, AllocError> {
        self.tell(alloc, message)
    }
}
