//! What comes before the rows of a text that was executed in one request: its columns (PostgreSQL documentation,
//! "Extended Query").

ghost use Rattle.std.specs.Prelude.{◌≡◌, IfOk};
ghost use Rattle.pg_wire.specs.Messages.{message_view};
ghost use Rattle.pg_spec.specs.Messages as message;
ghost use Rattle.pg_core.specs.Described.{Does};
ghost use Rattle.pg_execute.specs.Typed as spec;

use pg_core::{NewColumn, new_columns};
use pg_errors::Error;
use pg_query::{Reading, malformed, server_error, unreadable};
use pg_types::List;
use pg_wire::{Message, RowDescriptionBody, WireFault};
use std::alloc::{AllocError, Global};

/// The columns of the rows, which end this part of the reply. Nothing of what comes before them is kept.
#[derive(Drop)]
pub struct HeadReading {}

impl HeadReading {
    fn columns(
        alloc: Global,
        body: &RowDescriptionBody,
    ) -> Result<Option<Result<List<NewColumn>, Error>>, AllocError>
        ensures { IfOk result (λ told. Does (spec.head_message (message.RowDescription body.now.count body.now.fields)) told tt) }
    {
        match new_columns(alloc, body) {
            Ok(columns) => Ok(Some(Ok(columns))),
            Err(fault) => match unreadable(fault) {
                Some(error) => Ok(Some(Err(error))),
                None => Err(AllocError),
            },
        }
    }

    /// What a message does.
    fn see(
        alloc: Global,
        message: &Message,
    ) -> Result<Option<Result<List<NewColumn>, Error>>, AllocError>
        ensures { IfOk result (λ told. Does (spec.head_message (message_view message.now)) told tt) }
    {
        match message {
            Message::ParseComplete | Message::BindComplete | Message::ParameterDescription(_) => {
                Ok(None)
            }
            Message::RowDescription(body) => HeadReading::columns(alloc, body),
            Message::NoData => Ok(Some(Ok(List::empty(alloc)))),
            Message::ErrorResponse(body) => Ok(Some(Err(server_error(alloc, body)?))),
            _ => Ok(Some(Err(Error::UnexpectedMessage))),
        }
    }
}

impl Reading for HeadReading {
    ghost use Rattle.pg_execute.specs.Typed.{head};

    type Output = List<NewColumn>;

    ghost reading = { λ _. head };

    fn message(
        &mut self,
        alloc: Global,
        message: &Result<Message, WireFault>,
    ) -> Result<Option<Result<List<NewColumn>, Error>>, AllocError> {
        match message {
            Ok(message) => HeadReading::see(alloc, message),
            Err(fault) => match malformed(*fault) {
                Some(error) => Ok(Some(Err(error))),
                None => Err(AllocError),
            },
        }
    }
}
