//! A statement is closed, step by step.

use pg_desk::Statement;
use pg_errors::Error;
use pg_execute::close_request;
use pg_query::{Action, Cleanup, Reply, Script, Want};
use pg_wire::{Message, WireFault};
use std::alloc::{AllocError, Global};
use std::collections::VecDeque;
use std::mem;

/// A statement that is closed.
#[derive(Drop)]
pub enum Closing<'a> {
    /// Nothing was done yet.
    Borrowed(&'a Statement),
    Owned(Statement),
    /// The request was sent, or can't be written.
    Done,
}

impl<'a> Script for Closing<'a> {
    ghost use Rattle.pg_query.specs.Scripts.{Nothing};
    ghost use Rattle.pg_states.specs.Closing.{dialogue_of_closing, refuses_of_closing, steps_of_closing};

    type Output = ();

    ghost dialogue = { dialogue_of_closing };

    ghost refuses = { refuses_of_closing };

    ghost waits = { λ _. Nothing };

    ghost steps = { steps_of_closing };

    fn next(&mut self, alloc: Global) -> Result<Want<()>, AllocError> {
        let request = match mem::replace(self, Closing::Done) {
            Closing::Borrowed(statement) => close_request(alloc, statement.name())?,
            Closing::Owned(statement) => close_request(alloc, statement.name())?,
            Closing::Done => return Ok(Want::Answer(Ok(()))),
        };
        match request {
            Ok(request) => Ok(Want::Act(Action::Send(request))),
            Err(error) => Ok(Want::Answer(Err(error))),
        }
    }

    fn message(
        &mut self,
        alloc: Global,
        message: &Result<Message, WireFault>,
    ) -> Result<Want<()>, AllocError> {
        // It reads nothing.
        Err(AllocError)
    }

    fn reply(&mut self, alloc: Global, reply: Reply) -> Result<Want<()>, AllocError> {
        // It asks nothing.
        Err(AllocError)
    }

    fn refused(&mut self, alloc: Global, error: Error) -> Result<Want<()>, AllocError> {
        Ok(Want::Answer(Err(error)))
    }

    fn cleanup(&self, alloc: Global) -> Result<VecDeque<Cleanup>, AllocError> {
        // It reads nothing.
        Err(AllocError)
    }
}
