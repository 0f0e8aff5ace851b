//! The reply to a simple query, part by part (PostgreSQL documentation, "Simple Query").

ghost use Rattle.std.specs.Prelude.{◌≡◌, ◌++◌, ◌∷◌, [], Some, IfOk, OnOk};
ghost use Rattle.pg_spec.specs.Bodies.{cells_of, fields_of};
ghost use Rattle.pg_spec.specs.Messages as message;
ghost use Rattle.pg_wire.specs.Messages.{message_view};
ghost use Rattle.pg_streams.specs.PartTelling.{ColumnsRead, ReadsColumns, Shows};
ghost use Rattle.pg_streams.specs.SimpleStreams.{columns_said, simple_said};

use crate::giving::{Giving, Told};
use crate::simple_query_message::SimpleQueryMessage;
use pg_errors::Error;
use pg_query::{extract_row_affected, server_error, unreadable};
use pg_rows::{SimpleColumn, SimpleColumns, SimpleQueryRow};
use pg_types::{List, OutOfMemory, Text};
use pg_wire::{CommandCompleteBody, DataRowBody, Message, RowDescriptionBody, WireFault};
use std::alloc::{AllocError, Global};

/// Adds a column of this name.
fn push_column(
    alloc: Global,
    columns: &mut List<SimpleColumn>,
    name: &str,
) -> Result<(), OutOfMemory>
    ensures { OnOk result (columns.new ≡ columns.old ++ record { name = name.now } ∷ []) }
{
    let text = Text::from_str(alloc, name)?;
    columns.push(SimpleColumn::new(text))?;
    Ok(())
}

/// The columns of a RowDescription.
fn simple_columns(alloc: Global, body: &RowDescriptionBody) -> Result<List<SimpleColumn>, WireFault>
    ensures { ReadsColumns body.now.count body.now.fields result }
{
    let mut fields = body.fields();
    let mut columns = List::empty(alloc);
    loop {
        let name = match fields.next() {
            Ok(Some(field)) => field.name(),
            Ok(None) => return Ok(columns),
            Err(fault) => return Err(fault),
        };
        let Ok(()) = push_column(alloc, &mut columns, name) else {
            return Err(WireFault::OutOfMemory);
        };
    }
}

/// The same, to be shared by rows, or why they can't be read.
fn columns_of(
    alloc: Global,
    body: &RowDescriptionBody,
) -> Result<Result<SimpleColumns, Error>, AllocError>
    ensures { IfOk result (λ read. ColumnsRead (fields_of body.now.count body.now.fields) read) }
{
    match simple_columns(alloc, body) {
        Ok(columns) => match SimpleColumns::new(alloc, columns) {
            Ok(columns) => Ok(Ok(columns)),
            Err(_) => Err(AllocError),
        },
        Err(fault) => match unreadable(fault) {
            Some(error) => Ok(Err(error)),
            None => Err(AllocError),
        },
    }
}

/// The reply from here on.
#[derive(Drop)]
pub(crate) struct SimpleGiving {
    /// The columns of rows, where they were described.
    pub(crate) columns: Option<SimpleColumns>,
}

impl SimpleGiving {
    /// Columns are described.
    fn describe(
        &mut self,
        alloc: Global,
        body: &RowDescriptionBody,
    ) -> Result<Told<SimpleQueryMessage>, AllocError>
        ensures { IfOk result (λ told. Shows (columns_said (fields_of body.now.count body.now.fields)) self.old (Some told) self.new) }
    {
        match columns_of(alloc, body)? {
            Ok(columns) => {
                let Ok(shared) = columns.copy() else {
                    return Err(AllocError);
                };
                self.columns = Some(columns);
                Ok(Told::Item(SimpleQueryMessage::RowDescription(shared)))
            }
            Err(error) => Ok(Told::Fails(error)),
        }
    }

    /// A row.
    fn row(&self, body: DataRowBody) -> Result<Told<SimpleQueryMessage>, AllocError>
        ensures { IfOk result (λ told. Shows (simple_said self.now.columns (message.DataRow body.count body.cells)) self.now (Some told) self.now) }
    {
        let Some(columns) = &self.columns else {
            return Ok(Told::Fails(Error::UnexpectedMessage));
        };
        let Ok(columns) = columns.copy() else {
            return Err(AllocError);
        };
        match SimpleQueryRow::new(columns, body) {
            Ok(row) => Ok(Told::Item(SimpleQueryMessage::Row(row))),
            Err(error) => Ok(Told::Fails(error)),
        }
    }

    /// A command ended.
    fn complete(&self, body: &CommandCompleteBody) -> Told<SimpleQueryMessage>
        ensures { Shows (simple_said self.now.columns (message.CommandComplete body.now.tag)) self.now (Some result) self.now }
    {
        match extract_row_affected(body) {
            Ok(affected) => Told::Item(SimpleQueryMessage::CommandComplete(affected)),
            Err(error) => Told::Fails(error),
        }
    }

    /// What a message shows. A row shares the bytes of the message.
    pub(crate) fn see_lent(
        &mut self,
        alloc: Global,
        message: &Message,
    ) -> Result<Told<SimpleQueryMessage>, AllocError>
        ensures { IfOk result (λ told. Shows (simple_said self.old.columns (message_view message.now)) self.old (Some told) self.new) }
    {
        match message {
            Message::CommandComplete(body) => Ok(self.complete(body)),
            Message::EmptyQueryResponse => {
                Ok(Told::Item(SimpleQueryMessage::CommandComplete(0)))
            }
            Message::RowDescription(body) => self.describe(alloc, body),
            Message::DataRow(body) => match body.share() {
                Ok(body) => self.row(body),
                Err(_) => Err(AllocError),
            },
            Message::ReadyForQuery(_) => Ok(Told::Ends),
            Message::ErrorResponse(body) => Ok(Told::Fails(server_error(alloc, body)?)),
            _ => Ok(Told::Fails(Error::UnexpectedMessage)),
        }
    }

    /// The same of a message that is handed over, whose row takes its bytes.
    fn see(
        &mut self,
        alloc: Global,
        message: Message,
    ) -> Result<Told<SimpleQueryMessage>, AllocError>
        ensures { IfOk result (λ told. Shows (simple_said self.old.columns (message_view message)) self.old (Some told) self.new) }
    {
        match &message {
            Message::DataRow(_) => match message.row_body() {
                Some(body) => self.row(body),
                None => unreachable!(),
            },
            other => self.see_lent(alloc, other),
        }
    }
}

impl Giving for SimpleGiving {
    ghost use Rattle.std.specs.Prelude as prelude;
    ghost use Rattle.std.specs.Prelude.{[], ◌∷◌};
    ghost use Rattle.pg_streams.specs.declared.simple_query_message.SimpleQueryMessage as part;
    ghost use Rattle.pg_streams.specs.SimpleStreams.{parts_from};
    ghost use Rattle.pg_streams.specs.PartTelling.{parts_heard};
    ghost use Rattle.pg_streams.specs.PartLaws.{parts_malformed, parts_refused};

    type Item = SimpleQueryMessage;

    ghost Whole = { prelude.List part.SimpleQueryMessage };

    ghost with_item = { λ part parts. part ∷ parts };

    ghost at_end = { λ _. [] };

    ghost tells = { λ g. parts_from g.columns };

    ghost hears = { parts_heard };

    ghost Known = { Unit {0} };

    ghost known = { λ _. tt };

    fn message(
        &mut self,
        alloc: Global,
        message: Message,
    ) -> Result<Option<Told<SimpleQueryMessage>>, AllocError> {
        Ok(Some(self.see(alloc, message)?))
    }

    ghost malformed = { λ g raw fault is. parts_malformed g.columns raw fault is };

    ghost refuses = { parts_refused };
}
