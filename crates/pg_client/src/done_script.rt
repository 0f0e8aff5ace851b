//! A command whose reply is read for its end alone, step by step.

ghost use Rattle.std.specs.Prelude.{◌≡◌, IfOk};
ghost use Rattle.pg_query.specs.Scripts.{Falls, GoesOn};
ghost use Rattle.pg_query.specs.SingleRequests as one_request;
ghost use Rattle.pg_spec.specs.Frames as frames;
ghost use Rattle.pg_client.specs.Asking.{dialogue_of_done, refuses_of, steps_of_done, waits_of_done};
ghost use Rattle.pg_client.specs.Done.{batch_execute, check_connection, reading_of};

use crate::done_reading::DoneReading;
use crate::simple_script::query_frame;
use bytes::{Bytes, BytesMut};
use pg_errors::Error;
use pg_query::{Cleanup, Reply, Script, SingleRequest, Want};
use pg_types::Sql;
use pg_wire::{Message, WireFault, sync};
use std::alloc::{AllocError, Global};
use std::collections::VecDeque;

/// The request of a batch of statements.
fn ask_batch(alloc: Global, text: &str) -> Result<SingleRequest<DoneReading, ()>, AllocError>
    ensures { IfOk result (λ one. one_request.dialogue_of reading_of one ≡ batch_execute text.now) }
{
    let reading = DoneReading::of_batch();
    match query_frame(alloc, text) {
        Ok(frame) => Ok(SingleRequest::new(reading, frame, false)),
        Err(error) => match &error {
            Error::OutOfMemory => Err(AllocError),
            _ => Ok(SingleRequest::refused(reading, error)),
        },
    }
}

/// A Sync.
fn sync_frame(alloc: Global) -> Result<Bytes, AllocError>
    ensures { IfOk result (λ frame. frame ≡ frames.sync_frame) }
{
    let mut out = BytesMut::new(alloc);
    match sync(&mut out) {
        Ok(()) => match out.freeze() {
            Ok(frame) => Ok(frame),
            Err(_) => Err(AllocError),
        },
        Err(_) => Err(AllocError),
    }
}

/// The request of a check of the connection.
fn ask_check(alloc: Global) -> Result<SingleRequest<DoneReading, ()>, AllocError>
    ensures { IfOk result (λ one. one_request.dialogue_of reading_of one ≡ check_connection) }
{
    let reading = DoneReading::of_sync();
    let frame = sync_frame(alloc)?;
    Ok(SingleRequest::new(reading, frame, false))
}

/// A batch, or a check.
#[derive(Drop)]
pub enum DoneScript<'a> {
    /// A batch for which nothing was done yet.
    Batch(Sql<'a>),
    /// A check for which nothing was done yet.
    Check,
    Asked(SingleRequest<DoneReading, ()>),
}

impl<'a> DoneScript<'a> {
    /// Asks, and gives what it wants.
    fn begin(
        &mut self,
        alloc: Global,
        mut one: SingleRequest<DoneReading, ()>,
    ) -> Result<Want<()>, AllocError>
        ensures goes_on { IfOk result (λ want. GoesOn dialogue_of_done refuses_of waits_of_done (one_request.dialogue_of reading_of one) want self.new) }
        ensures falls { IfOk result (λ want. Falls want 3 (steps_of_done self.new)) }
    {
        let want = one.next(alloc)?;
        *self = DoneScript::Asked(one);
        Ok(want)
    }
}

impl<'a> Script for DoneScript<'a> {
    ghost use Rattle.pg_client.specs.Asking.{dialogue_of_done, refuses_of, steps_of_done, waits_of_done};

    type Output = ();

    ghost dialogue = { dialogue_of_done };

    ghost refuses = { refuses_of };

    ghost waits = { waits_of_done };

    ghost steps = { steps_of_done };

    fn next(&mut self, alloc: Global) -> Result<Want<()>, AllocError> {
        match self {
            DoneScript::Batch(text) => {
                let one = ask_batch(alloc, text.as_str())?;
                self.begin(alloc, one)
            }
            DoneScript::Check => {
                let one = ask_check(alloc)?;
                self.begin(alloc, one)
            }
            DoneScript::Asked(one) => one.next(alloc),
        }
    }

    fn message(
        &mut self,
        alloc: Global,
        message: &Result<Message, WireFault>,
    ) -> Result<Want<()>, AllocError> {
        match self {
            DoneScript::Asked(one) => one.message(alloc, message),
            // It waits for none yet.
            _ => Err(AllocError),
        }
    }

    fn reply(&mut self, alloc: Global, reply: Reply) -> Result<Want<()>, AllocError> {
        // It asks nothing.
        Err(AllocError)
    }

    fn refused(&mut self, alloc: Global, error: Error) -> Result<Want<()>, AllocError> {
        Ok(Want::Answer(Err(error)))
    }

    fn cleanup(&self, alloc: Global) -> Result<VecDeque<Cleanup>, AllocError> {
        match self {
            DoneScript::Asked(one) => one.cleanup(alloc),
            _ => Err(AllocError),
        }
    }
}
