//! What a message says of the reply to a query whose columns are known (PostgreSQL documentation, "Extended
//! Query").

ghost use Rattle.std.specs.Prelude.{◌≡◌, ℕ, true, false, Result, IfOk};
ghost use Rattle.pg_spec.specs.Bodies.{cells_of};
ghost use Rattle.pg_spec.specs.Messages as message;
ghost use Rattle.pg_spec.specs.RawMessages.{RawMessage};
ghost use Rattle.pg_wire.specs.Messages.{message_view};
ghost use Rattle.pg_query.specs.Messages.{Means};
ghost use Rattle.pg_core.specs.QueryReplies as spec;
ghost use Rattle.pg_execute.specs.Saying.{said_view, FailsAtFault};

use pg_errors::{Cause, Error};
use pg_query::{extract_row_affected, malformed, server_error};
use pg_rows::RowCells;
use pg_wire::{CommandCompleteBody, DataRowBody, Message, WireFault};
use std::alloc::{AllocError, Global};

/// What a message says.
#[derive(Drop)]
pub enum Said {
    /// The portal was made.
    Bound,
    Row(RowCells),
    /// A command ended, and affected so many rows.
    Complete(u64),
    /// The command is empty.
    Empty,
    /// The portal has rows left.
    Suspended,
    /// The reply ends.
    Ready,
    /// The first thing that isn't right.
    Fails(Error),
}

/// What a row says: it has as many cells as there are columns. It shares the bytes that were received.
fn row_said(columns: usize, body: &DataRowBody) -> Result<Said, AllocError>
    ensures { IfOk result (λ said. said_view said ≡ spec.row_said columns (cells_of body.now.count body.now.cells)) }
{
    let Ok(shared) = body.share() else {
        return Err(AllocError);
    };
    match RowCells::new(shared) {
        Ok(cells) => {
            if cells.len() != columns {
                return Ok(Said::Fails(Error::Parse(Cause::FieldCount)));
            }
            Ok(Said::Row(cells))
        }
        Err(error) => Ok(Said::Fails(error)),
    }
}

/// What the end of a command says.
fn end_said(body: &CommandCompleteBody) -> Said
    ensures { (columns : ℕ) → said_view result ≡ spec.query_said true columns (message.CommandComplete body.now.tag) }
{
    match extract_row_affected(body) {
        Ok(affected) => Said::Complete(affected),
        Err(error) => Said::Fails(error),
    }
}

/// What a message says before BindComplete.
fn said_before(alloc: Global, message: &Message) -> Result<Said, AllocError>
    ensures { (columns : ℕ) → IfOk result (λ said. said_view said ≡ spec.query_said false columns (message_view message.now)) }
{
    match message {
        Message::BindComplete => Ok(Said::Bound),
        Message::ErrorResponse(body) => Ok(Said::Fails(server_error(alloc, body)?)),
        _ => Ok(Said::Fails(Error::UnexpectedMessage)),
    }
}

/// What a message says behind BindComplete.
fn said_behind(alloc: Global, columns: usize, message: &Message) -> Result<Said, AllocError>
    ensures { IfOk result (λ said. said_view said ≡ spec.query_said true columns (message_view message.now)) }
{
    match message {
        Message::DataRow(body) => row_said(columns, body),
        Message::CommandComplete(body) => Ok(end_said(body)),
        Message::EmptyQueryResponse => Ok(Said::Empty),
        Message::PortalSuspended => Ok(Said::Suspended),
        Message::ReadyForQuery(_) => Ok(Said::Ready),
        Message::ErrorResponse(body) => Ok(Said::Fails(server_error(alloc, body)?)),
        _ => Ok(Said::Fails(Error::UnexpectedMessage)),
    }
}

/// What a message says, which may be malformed.
pub fn said_by(
    alloc: Global,
    bound: bool,
    columns: usize,
    message: &Result<Message, WireFault>,
) -> Result<Said, AllocError>
    ensures says { (raw : RawMessage) → Means raw message.now → IfOk result (λ said. said_view said ≡ spec.said_by bound columns raw) }
    ensures fails { IfOk result (λ said. FailsAtFault message.now said) }
{
    match message {
        Ok(message) => {
            if bound {
                said_behind(alloc, columns, message)
            } else {
                said_before(alloc, message)
            }
        }
        Err(fault) => match malformed(*fault) {
            Some(error) => Ok(Said::Fails(error)),
            None => Err(AllocError),
        },
    }
}
