//! What the server says of a statement that it prepared, read message by message (PostgreSQL documentation,
//! "Extended Query").

ghost use Rattle.std.specs.Prelude.{◌≡◌, ◌++◌, ◌∷◌, [], IfOk, OnOk};
ghost use Rattle.pg_spec.specs.Bodies as bodies;
ghost use Rattle.pg_spec.specs.Messages as message;
ghost use Rattle.pg_wire.specs.Messages.{message_view};
ghost use Rattle.pg_core.specs.Descriptions as spec;
ghost use Rattle.pg_core.specs.Described.{Does, ReadsAll, reading_of, seen_of};

use crate::description::{Description, NewColumn};
use pg_errors::Error;
use pg_query::{Reading, malformed, server_error, unreadable};
use pg_types::{List, Oid, OutOfMemory, Text};
use pg_wire::{Field, Message, ParameterDescriptionBody, RowDescriptionBody, WireFault};
use std::alloc::{AllocError, Global};
use std::mem;

/// What was read of a description.
#[derive(Drop)]
pub enum DescriptionReading {
    Nothing,
    /// The text was parsed.
    Parsed,
    /// The types of the parameters were read.
    Params(List<Oid>),
}

/// The oids of a ParameterDescription.
fn param_oids(alloc: Global, body: &ParameterDescriptionBody) -> Result<List<Oid>, WireFault>
    ensures { ReadsAll (bodies.oids_of body.now.count body.now.oids) result }
{
    let mut params = body.parameters();
    let mut oids = List::empty(alloc);
    loop {
        let oid = match params.next() {
            Ok(Some(oid)) => oid,
            Ok(None) => return Ok(oids),
            Err(fault) => return Err(fault),
        };
        let Ok(()) = oids.push(oid) else {
            return Err(WireFault::OutOfMemory);
        };
    }
}

/// The columns of a RowDescription.
pub fn new_columns(alloc: Global, body: &RowDescriptionBody) -> Result<List<NewColumn>, WireFault>
    ensures { ReadsAll (bodies.fields_of body.now.count body.now.fields) result }
{
    let mut fields = body.fields();
    let mut columns = List::empty(alloc);
    loop {
        let field = match fields.next() {
            Ok(Some(field)) => field,
            Ok(None) => return Ok(columns),
            Err(fault) => return Err(fault),
        };
        let Ok(()) = push_column(alloc, &mut columns, &field) else {
            return Err(WireFault::OutOfMemory);
        };
    }
}

fn push_column(
    alloc: Global,
    columns: &mut List<NewColumn>,
    field: &Field,
) -> Result<(), OutOfMemory>
    ensures { OnOk result (columns.new ≡ columns.old ++ field.now ∷ []) }
{
    let column = NewColumn {
        name: Text::from_str(alloc, field.name())?,
        table_oid: field.table_oid(),
        column_id: field.column_id(),
        type_oid: field.type_oid(),
        type_size: field.type_size(),
        type_modifier: field.type_modifier(),
        format: field.format(),
    };
    columns.push(column)?;
    Ok(())
}

impl DescriptionReading {
    /// Nothing was read. It takes no memory.
    pub fn new() -> DescriptionReading
        ensures { reading_of result ≡ spec.description }
    {
        DescriptionReading::Nothing
    }

    fn parsed(&mut self) -> Option<Result<Description, Error>>
        ensures { Does (spec.description_message (seen_of self.old) message.ParseComplete) result (seen_of self.new) }
    {
        match self {
            DescriptionReading::Nothing => {
                *self = DescriptionReading::Parsed;
                None
            }
            DescriptionReading::Parsed | DescriptionReading::Params(_) => {
                Some(Err(Error::UnexpectedMessage))
            }
        }
    }

    fn params(
        &mut self,
        alloc: Global,
        body: &ParameterDescriptionBody,
    ) -> Result<Option<Result<Description, Error>>, AllocError>
        ensures { IfOk result (λ told. Does (spec.description_message (seen_of self.old) (message.ParameterDescription body.now.count body.now.oids)) told (seen_of self.new)) }
    {
        match self {
            DescriptionReading::Parsed => match param_oids(alloc, body) {
                Ok(oids) => {
                    *self = DescriptionReading::Params(oids);
                    Ok(None)
                }
                Err(fault) => match unreadable(fault) {
                    Some(error) => Ok(Some(Err(error))),
                    None => Err(AllocError),
                },
            },
            DescriptionReading::Nothing | DescriptionReading::Params(_) => {
                Ok(Some(Err(Error::UnexpectedMessage)))
            }
        }
    }

    fn columns(
        &mut self,
        alloc: Global,
        body: &RowDescriptionBody,
    ) -> Result<Option<Result<Description, Error>>, AllocError>
        ensures { IfOk result (λ told. Does (spec.description_message (seen_of self.old) (message.RowDescription body.now.count body.now.fields)) told (seen_of self.new)) }
    {
        match mem::replace(self, DescriptionReading::Nothing) {
            DescriptionReading::Params(params) => match new_columns(alloc, body) {
                Ok(columns) => Ok(Some(Ok(Description { params, columns }))),
                Err(fault) => match unreadable(fault) {
                    Some(error) => Ok(Some(Err(error))),
                    None => Err(AllocError),
                },
            },
            DescriptionReading::Nothing | DescriptionReading::Parsed => {
                Ok(Some(Err(Error::UnexpectedMessage)))
            }
        }
    }

    fn no_columns(&mut self, alloc: Global) -> Option<Result<Description, Error>>
        ensures { Does (spec.description_message (seen_of self.old) message.NoData) result (seen_of self.new) }
    {
        match mem::replace(self, DescriptionReading::Nothing) {
            DescriptionReading::Params(params) => {
                let columns = List::empty(alloc);
                Some(Ok(Description { params, columns }))
            }
            DescriptionReading::Nothing | DescriptionReading::Parsed => {
                Some(Err(Error::UnexpectedMessage))
            }
        }
    }

    /// What a message does.
    fn see(
        &mut self,
        alloc: Global,
        message: &Message,
    ) -> Result<Option<Result<Description, Error>>, AllocError>
        ensures { IfOk result (λ told. Does (spec.description_message (seen_of self.old) (message_view message.now)) told (seen_of self.new)) }
    {
        match message {
            Message::ErrorResponse(body) => Ok(Some(Err(server_error(alloc, body)?))),
            Message::ParseComplete => Ok(self.parsed()),
            Message::ParameterDescription(body) => self.params(alloc, body),
            Message::RowDescription(body) => self.columns(alloc, body),
            Message::NoData => Ok(self.no_columns(alloc)),
            _ => Ok(Some(Err(Error::UnexpectedMessage))),
        }
    }
}

impl Reading for DescriptionReading {
    type Output = Description;

    ghost reading = { reading_of };

    fn message(
        &mut self,
        alloc: Global,
        message: &Result<Message, WireFault>,
    ) -> Result<Option<Result<Description, Error>>, AllocError> {
        match message {
            Ok(message) => self.see(alloc, message),
            Err(fault) => match malformed(*fault) {
                Some(error) => Ok(Some(Err(error))),
                None => Err(AllocError),
            },
        }
    }
}
