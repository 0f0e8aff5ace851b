//! The reply to a statement that is executed, row by row (PostgreSQL documentation, "Extended Query").

ghost use Rattle.std.specs.Prelude.{◌≡◌, length, Some, false, true, IfOk};
ghost use Rattle.pg_spec.specs.Bodies.{cells_of};
ghost use Rattle.pg_spec.specs.Messages as message;
ghost use Rattle.pg_wire.specs.Messages.{message_view};
ghost use Rattle.pg_core.specs.QueryReplies.{query_said};
ghost use Rattle.pg_rows.specs.Rows.{row_of};
ghost use Rattle.pg_streams.specs.RowTelling.{Shows, ShowsOpening, told_of};

use crate::giving::{Giving, Told};
use pg_desk::Statement;
use pg_errors::Error;
use pg_query::{extract_row_affected, server_error};
use pg_rows::Row;
use pg_wire::{CommandCompleteBody, DataRowBody, Message};
use std::alloc::{AllocError, Global};

/// The reply up to BindComplete, which is the one item.
#[derive(Drop)]
pub(crate) struct RowOpening {
    pub(crate) statement: Statement,
    /// BindComplete came.
    pub(crate) bound: bool,
}

impl RowOpening {
    /// What a message shows.
    fn see(&mut self, alloc: Global, message: Message) -> Result<Told<()>, AllocError>
        ensures shows { IfOk result (λ told. ShowsOpening (query_said false (length self.old.statement.columns) (message_view message)) self.old (Some told) self.new) }
        ensures same { self.new.statement ≡ self.old.statement }
    {
        match &message {
            Message::BindComplete => {
                self.bound = true;
                Ok(Told::Item(()))
            }
            Message::ErrorResponse(body) => Ok(Told::Fails(server_error(alloc, body)?)),
            _ => Ok(Told::Fails(Error::UnexpectedMessage)),
        }
    }
}

impl Giving for RowOpening {
    ghost use Rattle.std.specs.Prelude.{[], None};
    ghost use Rattle.pg_desk.specs.declared.statement.Described as described;
    ghost use Rattle.pg_streams.specs.RowStreams as streams;
    ghost use Rattle.pg_streams.specs.RowStreams.{rows_from};
    ghost use Rattle.pg_streams.specs.RowTelling.{opening_heard};
    ghost use Rattle.pg_streams.specs.RowLaws.{opening_refused, rows_malformed};

    type Item = ();

    ghost Whole = { streams.RowsGiven };

    ghost with_item = { λ _ whole. whole };

    ghost at_end = { λ _. record { rows = []; affected = None } };

    ghost tells = { λ o. rows_from o.statement o.bound None };

    ghost hears = { opening_heard };

    ghost Known = { described.Described };

    ghost known = { λ o. o.statement };

    fn message(&mut self, alloc: Global, message: Message) -> Result<Option<Told<()>>, AllocError> {
        // It is opened once.
        if self.bound {
            return Err(AllocError);
        }
        Ok(Some(self.see(alloc, message)?))
    }

    ghost malformed = { λ o raw fault is. rows_malformed o.statement o.bound None raw fault is };

    ghost refuses = { opening_refused };
}

/// The reply behind BindComplete.
#[derive(Drop)]
pub(crate) struct RowGiving {
    pub(crate) statement: Statement,
    /// How many rows the last command affected, where one ended.
    pub(crate) affected: Option<u64>,
}

impl RowGiving {
    /// A row.
    fn row(&self, body: DataRowBody) -> Result<Told<Row>, AllocError>
        ensures { IfOk result (λ told. told ≡ told_of (row_of self.now.statement.columns (cells_of body.count body.cells))) }
    {
        let Ok(statement) = self.statement.copy() else {
            return Err(AllocError);
        };
        match Row::new(statement, body) {
            Ok(row) => Ok(Told::Item(row)),
            Err(error) => Ok(Told::Fails(error)),
        }
    }

    /// A command ended.
    fn complete(&mut self, body: &CommandCompleteBody) -> Option<Told<Row>>
        ensures shows { Shows (query_said true (length self.old.statement.columns) (message.CommandComplete body.now.tag)) self.old result self.new }
        ensures same { self.new.statement ≡ self.old.statement }
    {
        match extract_row_affected(body) {
            Ok(affected) => {
                self.affected = Some(affected);
                None
            }
            Err(error) => Some(Told::Fails(error)),
        }
    }

    /// What a message shows.
    fn see(&mut self, alloc: Global, message: Message) -> Result<Option<Told<Row>>, AllocError>
        ensures shows { IfOk result (λ told. Shows (query_said true (length self.old.statement.columns) (message_view message)) self.old told self.new) }
        ensures same { self.new.statement ≡ self.old.statement }
    {
        match &message {
            Message::DataRow(_) => match message.row_body() {
                Some(body) => Ok(Some(self.row(body)?)),
                None => unreachable!(),
            },
            Message::CommandComplete(body) => Ok(self.complete(body)),
            Message::EmptyQueryResponse | Message::PortalSuspended => Ok(None),
            Message::ReadyForQuery(_) => Ok(Some(Told::Ends)),
            Message::ErrorResponse(body) => Ok(Some(Told::Fails(server_error(alloc, body)?))),
            _ => Ok(Some(Told::Fails(Error::UnexpectedMessage))),
        }
    }
}

impl Giving for RowGiving {
    ghost use Rattle.std.specs.Prelude.{[], true};
    ghost use Rattle.pg_desk.specs.declared.statement.Described as described;
    ghost use Rattle.pg_streams.specs.RowStreams as streams;
    ghost use Rattle.pg_streams.specs.RowStreams.{rows_from, with_row};
    ghost use Rattle.pg_streams.specs.RowTelling.{rows_heard};
    ghost use Rattle.pg_streams.specs.RowLaws.{rows_malformed, rows_refused};

    type Item = Row;

    ghost Whole = { streams.RowsGiven };

    ghost with_item = { with_row };

    ghost at_end = { λ g. record { rows = []; affected = g.affected } };

    ghost tells = { λ g. rows_from g.statement true g.affected };

    ghost hears = { rows_heard };

    ghost Known = { described.Described };

    ghost known = { λ g. g.statement };

    fn message(
        &mut self,
        alloc: Global,
        message: Message,
    ) -> Result<Option<Told<Row>>, AllocError> {
        self.see(alloc, message)
    }

    ghost malformed = { λ g raw fault is. rows_malformed g.statement true g.affected raw fault is };

    ghost refuses = { rows_refused };
}
