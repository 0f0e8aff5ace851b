//! The reply to `SHOW transaction_read_only`, read message by message up to its first row (PostgreSQL documentation,
//! "Simple Query", "SHOW").

ghost use Rattle.std.specs.Prelude.{◌≡◌, IfOk, Some};
ghost use Rattle.pg_spec.specs.Bodies.{cells_of, fields_of};
ghost use Rattle.pg_spec.specs.Messages.{CommandComplete, DataRow};
ghost use Rattle.pg_spec.specs.SimpleQuery.{reads_columns, simple_message};
ghost use Rattle.pg_wire.specs.Messages.{message_view};
ghost use Rattle.pg_client.specs.Showing as spec;
ghost use Rattle.pg_client.specs.Showing.{IsShown, described, reading_of, show_message, shown_by};

use pg_config::TargetSessionAttrs;
use pg_errors::{Cause, Error};
use pg_query::{
    Cells, Reading, column_names, extract_row_affected, malformed, row_cells, server_error,
    unreadable,
};
use pg_types::{Blob, Text, ValueFault};
use pg_wire::{CommandCompleteBody, DataRowBody, Message, RowDescriptionBody, WireFault};
use std::alloc::{AllocError, Global};

/// What was read of the reply so far.
#[derive(Drop)]
pub struct ShowReading {
    /// What the session is to be.
    pub(crate) attrs: TargetSessionAttrs,
    /// How many columns its rows have, once they were described.
    pub(crate) columns: Option<usize>,
}

/// What the value of the setting tells.
fn told_by_value(
    alloc: Global,
    attrs: TargetSessionAttrs,
    value: &str,
) -> Result<Result<(), Error>, AllocError>
    ensures { IfOk result (λ told. told ≡ spec.told_by_value attrs value.now) }
{
    let Ok(text) = Text::from_str(alloc, value) else {
        return Err(AllocError);
    };
    match attrs {
        TargetSessionAttrs::ReadWrite if value == "on" => {
            Ok(Err(Error::Connect(Cause::ReadOnly(text))))
        }
        TargetSessionAttrs::ReadOnly if value == "off" => {
            Ok(Err(Error::Connect(Cause::NotReadOnly(text))))
        }
        _ => Ok(Ok(())),
    }
}

/// What the bytes of the first cell tell.
fn told_by_text(
    alloc: Global,
    attrs: TargetSessionAttrs,
    bytes: &[u8],
) -> Result<Result<(), Error>, AllocError>
    ensures { IfOk result (λ told. told ≡ spec.told_by_cell attrs (Some bytes.now)) }
{
    match str::from_utf8(bytes) {
        Ok(value) => told_by_value(alloc, attrs, value),
        Err(_) => Ok(Err(Error::FromSql(0, Cause::Value(ValueFault::BadValue)))),
    }
}

/// What the first cell tells.
fn told_by_cell(
    alloc: Global,
    attrs: TargetSessionAttrs,
    cell: &Option<Blob>,
) -> Result<Result<(), Error>, AllocError>
    ensures { IfOk result (λ told. told ≡ spec.told_by_cell attrs cell.now) }
{
    match cell {
        Some(bytes) => told_by_text(alloc, attrs, bytes.as_slice()),
        None => Ok(Ok(())),
    }
}

/// What a row tells.
fn told_by_row(
    alloc: Global,
    attrs: TargetSessionAttrs,
    cells: &Cells,
) -> Result<Result<(), Error>, AllocError>
    ensures { IfOk result (λ told. told ≡ spec.told_by_row attrs cells.now) }
{
    match cells.as_slice().first() {
        Some(cell) => told_by_cell(alloc, attrs, cell),
        None => match Text::from_str(alloc, "0") {
            Ok(place) => Ok(Err(Error::Column(place))),
            Err(_) => Err(AllocError),
        },
    }
}

impl ShowReading {
    /// Nothing was read. It takes no memory.
    pub(crate) fn new(attrs: TargetSessionAttrs) -> ShowReading
        ensures { result ≡ record { attrs = attrs; columns = None } }
    {
        ShowReading {
            attrs,
            columns: None,
        }
    }

    fn complete(&self, body: &CommandCompleteBody) -> Option<Result<(), Error>>
        ensures { IsShown (show_message self.now.attrs self.now.columns (CommandComplete body.now.tag)) result self.now.columns }
    {
        match extract_row_affected(body) {
            Ok(_) => None,
            Err(error) => Some(Err(error)),
        }
    }

    fn describe(
        &mut self,
        alloc: Global,
        body: &RowDescriptionBody,
    ) -> Result<Option<Result<(), Error>>, AllocError>
        ensures attrs { self.new.attrs ≡ self.old.attrs }
        ensures shown { IfOk result (λ told. IsShown (shown_by self.old.attrs (reads_columns (described self.old.columns) (fields_of body.now.count body.now.fields))) told self.new.columns) }
    {
        match column_names(alloc, body) {
            Ok(names) => {
                self.columns = Some(names.as_slice().len());
                Ok(None)
            }
            Err(fault) => match unreadable(fault) {
                Some(error) => Ok(Some(Err(error))),
                None => Err(AllocError),
            },
        }
    }

    fn row(
        &self,
        alloc: Global,
        body: &DataRowBody,
    ) -> Result<Option<Result<(), Error>>, AllocError>
        ensures { IfOk result (λ told. IsShown (show_message self.now.attrs self.now.columns (DataRow body.now.count body.now.cells)) told self.now.columns) }
    {
        let Some(columns) = self.columns else {
            return Ok(Some(Err(Error::UnexpectedMessage)));
        };
        match row_cells(alloc, body) {
            Ok(cells) => {
                if cells.as_slice().len() != columns {
                    return Ok(Some(Err(Error::Parse(Cause::FieldCount))));
                }
                let told = told_by_row(alloc, self.attrs, &cells)?;
                Ok(Some(told))
            }
            Err(fault) => match unreadable(fault) {
                Some(error) => Ok(Some(Err(error))),
                None => Err(AllocError),
            },
        }
    }

    /// What a message tells.
    fn see(
        &mut self,
        alloc: Global,
        message: &Message,
    ) -> Result<Option<Result<(), Error>>, AllocError>
        ensures attrs { self.new.attrs ≡ self.old.attrs }
        ensures shown { IfOk result (λ told. IsShown (show_message self.old.attrs self.old.columns (message_view message.now)) told self.new.columns) }
    {
        match message {
            Message::CommandComplete(body) => Ok(self.complete(body)),
            Message::EmptyQueryResponse => Ok(None),
            Message::RowDescription(body) => self.describe(alloc, body),
            Message::DataRow(body) => self.row(alloc, body),
            Message::ErrorResponse(body) => Ok(Some(Err(server_error(alloc, body)?))),
            // No row came, or it has no place in the reply.
            _ => Ok(Some(Err(Error::UnexpectedMessage))),
        }
    }
}

impl Reading for ShowReading {
    type Output = ();

    ghost reading = { reading_of };

    fn message(
        &mut self,
        alloc: Global,
        message: &Result<Message, WireFault>,
    ) -> Result<Option<Result<(), Error>>, AllocError> {
        match message {
            Ok(message) => self.see(alloc, message),
            Err(fault) => match malformed(*fault) {
                Some(error) => Ok(Some(Err(error))),
                None => Err(AllocError),
            },
        }
    }
}
