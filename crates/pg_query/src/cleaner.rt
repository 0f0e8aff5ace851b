//! What is left to do where a command is given up, as a script of its own.

use crate::desk_call::{Cleanup, Reply};
use crate::script::{Action, Script, Want};
use pg_errors::Error;
use pg_wire::{Message, WireFault};
use std::alloc::{AllocError, Global};
use std::collections::VecDeque;

#[derive(Drop)]
pub(crate) struct Cleaner {
    pub(crate) left: VecDeque<Cleanup>,
}

impl Script for Cleaner {
    ghost use Rattle.pg_query.specs.Cleaners.{cleaner_dialogue, cleaner_refuses, cleaner_waits, cleaner_steps};

    type Output = ();

    ghost dialogue = { cleaner_dialogue };

    ghost refuses = { cleaner_refuses };

    ghost waits = { cleaner_waits };

    ghost steps = { cleaner_steps };

    fn next(&mut self, alloc: Global) -> Result<Want<()>, AllocError> {
        match self.left.pop_front() {
            None => Ok(Want::Answer(Ok(()))),
            Some(Cleanup::Close(part)) => Ok(Want::Act(Action::Close(part))),
            Some(Cleanup::Release) => Ok(Want::Act(Action::HangUp)),
            Some(Cleanup::Post(part)) => Ok(Want::Act(Action::Send(part))),
        }
    }

    fn message(
        &mut self,
        alloc: Global,
        message: &Result<Message, WireFault>,
    ) -> Result<Want<()>, AllocError> {
        // It reads nothing.
        Err(AllocError)
    }

    fn reply(&mut self, alloc: Global, reply: Reply) -> Result<Want<()>, AllocError> {
        // It asks nothing.
        Err(AllocError)
    }

    fn refused(&mut self, alloc: Global, error: Error) -> Result<Want<()>, AllocError> {
        Ok(Want::Answer(Err(error)))
    }

    fn cleanup(&self, alloc: Global) -> Result<VecDeque<Cleanup>, AllocError> {
        Err(AllocError)
    }
}
