//! Executions of a statement over the hub's core, one behind another.

use bytes::BytesMut;
use futures::task::Poll;
use pg_desk::{Deliver, Out};
use pg_hub::Pipeline;
use pg_wire::{BackendMessage, PostgresCodec};
use std::alloc::{AllocError, Global};
use tokio_postgres::types::{List, Text, Value};
use tokio_postgres::{Client, Engine, Error, Polled, Stamp, Statement, Target};

const STAMP: Stamp = Stamp {
    owner: 0,
    command: 0,
    turn: 0,
};

/// A statement without parameters and columns.
fn statement_of(alloc: Global) -> Result<Statement, AllocError> {
    let Ok(name) = Text::from_str(alloc, "s0") else {
        return Err(AllocError);
    };
    match Statement::new(alloc, name, List::empty(alloc), List::empty(alloc)) {
        Ok(statement) => Ok(statement),
        Err(_) => Err(AllocError),
    }
}

/// Delivers the batch in front. Whether it was taken.
fn deliver(pipeline: &mut Pipeline, reply: &mut BytesMut) -> bool {
    match PostgresCodec::decode(reply) {
        Ok(
            Some(
                BackendMessage::Normal {
                    messages,
                    request_complete,
                },
            ),
        ) => matches!(
            &pipeline.deliver(messages, request_complete),
            Deliver::Taken
        ),
        _ => false,
    }
}

/// The next part goes out, and the reply comes. Whether both did.
fn answers(alloc: Global, pipeline: &mut Pipeline, reply: &[u8]) -> Result<bool, AllocError> {
    match pipeline.next_out() {
        Ok(Out::Part(_part)) => {
            let mut bytes = BytesMut::new(alloc);
            bytes.extend_from_slice(reply)?;
            Ok(deliver(pipeline, &mut bytes))
        }
        _ => Ok(false),
    }
}

/// How many rows were affected.
fn rows_of(answer: Poll<Result<u64, Error>>) -> u64 {
    match answer {
        Poll::Ready(Ok(rows)) => rows,
        _ => 0,
    }
}

/// One execution, and how many rows it affected.
fn execute(
    alloc: Global,
    client: &Client,
    statement: &Statement,
    pipeline: &mut Pipeline,
    reply: &[u8],
) -> Result<u64, AllocError> {
    let none: &[Value] = &[];
    let mut state = client.execute_raw(Target::Statement(statement), none);
    match state.poll(alloc, pipeline, STAMP) {
        Poll::Ready(_answer) => Ok(0),
        Poll::Pending => {
            if !answers(alloc, pipeline, reply)? {
                return Ok(0);
            }
            Ok(rows_of(state.poll(alloc, pipeline, STAMP)))
        }
    }
}

/// So many executions, each with this reply: how many rows they affected, and how many mailboxes and requests the core holds
/// then.
pub(crate) fn tell(
    alloc: Global,
    client: &Client,
    count: u64,
    reply: &[u8],
    out: &mut String,
) -> Result<(), AllocError> {
    let statement = statement_of(alloc)?;
    let mut pipeline = Pipeline::new(alloc, 0, 0);
    let mut rows = 0u64;
    for _ in 0..count {
        let more = execute(alloc, client, &statement, &mut pipeline, reply)?;
        rows = rows.saturating_add(more);
    }
    let (mailboxes, requests) = (pipeline.held_mailboxes(), pipeline.held_requests());
    write!(out, " affected {rows} holds {mailboxes} and {requests}")
}
