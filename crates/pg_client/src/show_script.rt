//! A check of a session, step by step.

ghost use Rattle.std.specs.Prelude.{◌≡◌, IfOk};
ghost use Rattle.pg_query.specs.SingleRequests as one_request;
ghost use Rattle.pg_client.specs.Showing.{asks_setting, reading_of, show_frame};

use crate::show_reading::ShowReading;
use bytes::{Bytes, BytesMut};
use pg_config::TargetSessionAttrs;
use pg_errors::Error;
use pg_query::{Cleanup, Reply, Script, SingleRequest, Want};
use pg_wire::{Message, WireFault, query};
use std::alloc::{AllocError, Global};
use std::collections::VecDeque;

/// Asks whether the session can't write.
const SHOW: &str = "SHOW transaction_read_only";

/// Its frame.
fn frame(alloc: Global) -> Result<Bytes, AllocError>
    ensures { IfOk result (λ frame. frame ≡ show_frame) }
{
    let mut out = BytesMut::new(alloc);
    match query(SHOW, &mut out) {
        Ok(()) => match out.freeze() {
            Ok(frame) => Ok(frame),
            Err(_) => Err(AllocError),
        },
        Err(_) => Err(AllocError),
    }
}

/// The request for the setting. It is hung up behind the first row.
fn ask(
    alloc: Global,
    attrs: TargetSessionAttrs,
) -> Result<SingleRequest<ShowReading, ()>, AllocError>
    ensures { IfOk result (λ one. one_request.dialogue_of reading_of one ≡ asks_setting attrs) }
{
    let frame = frame(alloc)?;
    Ok(SingleRequest::new(ShowReading::new(attrs), frame, true))
}

/// A check of a session.
#[derive(Drop)]
pub enum ShowScript {
    /// Nothing was done for it yet.
    New(TargetSessionAttrs),
    Asked(SingleRequest<ShowReading, ()>),
}

impl Script for ShowScript {
    ghost use Rattle.pg_client.specs.ChecksAsking.{dialogue_of_check, refuses_of, steps_of_check, waits_of_check};

    type Output = ();

    ghost dialogue = { dialogue_of_check };

    ghost refuses = { refuses_of };

    ghost waits = { waits_of_check };

    ghost steps = { steps_of_check };

    fn next(&mut self, alloc: Global) -> Result<Want<()>, AllocError> {
        match self {
            ShowScript::New(TargetSessionAttrs::Any) => Ok(Want::Answer(Ok(()))),
            ShowScript::New(attrs) => {
                let mut one = ask(alloc, *attrs)?;
                let want = one.next(alloc)?;
                *self = ShowScript::Asked(one);
                Ok(want)
            }
            ShowScript::Asked(one) => one.next(alloc),
        }
    }

    fn message(
        &mut self,
        alloc: Global,
        message: &Result<Message, WireFault>,
    ) -> Result<Want<()>, AllocError> {
        match self {
            // It waits for none yet.
            ShowScript::New(_) => Err(AllocError),
            ShowScript::Asked(one) => one.message(alloc, message),
        }
    }

    fn reply(&mut self, alloc: Global, reply: Reply) -> Result<Want<()>, AllocError> {
        // It asks nothing.
        Err(AllocError)
    }

    fn refused(&mut self, alloc: Global, error: Error) -> Result<Want<()>, AllocError> {
        Ok(Want::Answer(Err(error)))
    }

    fn cleanup(&self, alloc: Global) -> Result<VecDeque<Cleanup>, AllocError> {
        match self {
            ShowScript::New(_) => Err(AllocError),
            ShowScript::Asked(one) => one.cleanup(alloc),
        }
    }
}
