//! A simple query, step by step.

ghost use Rattle.std.specs.Prelude.{◌≡◌, IfOk};
ghost use Rattle.pg_query.specs.SingleRequests as one_request;
ghost use Rattle.pg_client.specs.Asking.{dialogue_of_simple};
ghost use Rattle.pg_client.specs.Simple.{FramesQuery, reading_of, simple_query};

use crate::simple_reading::SimpleReading;
use bytes::{Bytes, BytesMut};
use pg_errors::{Cause, Error};
use pg_query::{Cleanup, Reply, Script, SimpleMessage, SingleRequest, Want};
use pg_types::{List, Sql};
use pg_wire::{FrameFault, Message, WireFault, query};
use std::alloc::{AllocError, Global};
use std::collections::VecDeque;

/// The frame of a text, or the error of one that can't be sent. OutOfMemory comes where there is no room for it,
/// and Encode only where the text holds a zero byte or is too long for its frame.
pub fn query_frame(alloc: Global, text: &str) -> Result<Bytes, Error>
    ensures { FramesQuery text.now result }
{
    // Its tag, its length and the zero byte behind its text.
    let Ok(mut out) = BytesMut::with_capacity(alloc, text.len() + 6) else {
        return Err(Error::OutOfMemory);
    };
    match query(text, &mut out) {
        Ok(()) => match out.freeze() {
            Ok(frame) => Ok(frame),
            Err(_) => Err(Error::OutOfMemory),
        },
        Err(FrameFault::OutOfMemory) => Err(Error::OutOfMemory),
        Err(fault) => Err(Error::Encode(Cause::Frame(fault))),
    }
}

/// The request of a text.
fn ask(
    alloc: Global,
    text: &str,
    take: Option<u64>,
) -> Result<SingleRequest<SimpleReading, List<SimpleMessage>>, AllocError>
    ensures { IfOk result (λ one. one_request.dialogue_of reading_of one ≡ simple_query text.now take) }
{
    let stops = take.is_some();
    let reading = SimpleReading::new(alloc, take);
    let frame = match query_frame(alloc, text) {
        Ok(frame) => frame,
        Err(error) => match &error {
            Error::OutOfMemory => return Err(AllocError),
            _ => return Ok(SingleRequest::refused(reading, error)),
        },
    };
    if reading.has_enough() {
        let nothing = Ok(List::empty(alloc));
        return Ok(SingleRequest::skipping(reading, frame, nothing));
    }
    Ok(SingleRequest::new(reading, frame, stops))
}

/// A simple query.
#[derive(Drop)]
pub enum SimpleScript<'a> {
    /// Nothing was done for it yet.
    New(Sql<'a>, Option<u64>),
    Asked(SingleRequest<SimpleReading, List<SimpleMessage>>),
}

impl<'a> SimpleScript<'a> {
    /// Its request.
    fn asks(
        &self,
        alloc: Global,
    ) -> Result<SingleRequest<SimpleReading, List<SimpleMessage>>, AllocError>
        ensures { IfOk result (λ one. one_request.dialogue_of reading_of one ≡ dialogue_of_simple self.now) }
    {
        match self {
            SimpleScript::New(text, take) => ask(alloc, text.as_str(), *take),
            // It has asked.
            SimpleScript::Asked(_) => Err(AllocError),
        }
    }
}

impl<'a> Script for SimpleScript<'a> {
    ghost use Rattle.pg_client.specs.Asking.{dialogue_of_simple, refuses_of, steps_of_simple, waits_of_simple};

    type Output = List<SimpleMessage>;

    ghost dialogue = { dialogue_of_simple };

    ghost refuses = { refuses_of };

    ghost waits = { waits_of_simple };

    ghost steps = { steps_of_simple };

    fn next(&mut self, alloc: Global) -> Result<Want<List<SimpleMessage>>, AllocError> {
        match self {
            SimpleScript::New(_, _) => {
                let mut one = self.asks(alloc)?;
                let want = one.next(alloc)?;
                *self = SimpleScript::Asked(one);
                Ok(want)
            }
            SimpleScript::Asked(one) => one.next(alloc),
        }
    }

    fn message(
        &mut self,
        alloc: Global,
        message: &Result<Message, WireFault>,
    ) -> Result<Want<List<SimpleMessage>>, AllocError> {
        match self {
            // It waits for none yet.
            SimpleScript::New(_, _) => Err(AllocError),
            SimpleScript::Asked(one) => one.message(alloc, message),
        }
    }

    fn reply(
        &mut self,
        alloc: Global,
        reply: Reply,
    ) -> Result<Want<List<SimpleMessage>>, AllocError> {
        // It asks nothing.
        Err(AllocError)
    }

    fn refused(
        &mut self,
        alloc: Global,
        error: Error,
    ) -> Result<Want<List<SimpleMessage>>, AllocError> {
        Ok(Want::Answer(Err(error)))
    }

    fn cleanup(&self, alloc: Global) -> Result<VecDeque<Cleanup>, AllocError> {
        match self {
            SimpleScript::New(_, _) => Err(AllocError),
            SimpleScript::Asked(one) => one.cleanup(alloc),
        }
    }
}
