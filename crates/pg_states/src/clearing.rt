//! The types that are cached are dropped, step by step.

ghost use Rattle.std.specs.Prelude.{◌≡◌, IfOk};

use pg_errors::Error;
use pg_query::{Action, Cleanup, DeskCall, Reply, Script, Want};
use pg_wire::{Message, WireFault};
use std::alloc::{AllocError, Global};
use std::collections::VecDeque;

/// The desk is asked to drop the types that it keeps.
#[derive(Drop)]
pub(crate) enum Clearing {
    /// Nothing was done yet.
    New,
    /// The desk was asked.
    Asked,
}

impl Script for Clearing {
    ghost use Rattle.pg_states.specs.Clearing.{dialogue_of_clearing, refuses_of_clearing, steps_of_clearing, waits_of_clearing};

    type Output = ();

    ghost dialogue = { dialogue_of_clearing };

    ghost refuses = { refuses_of_clearing };

    ghost waits = { waits_of_clearing };

    ghost steps = { steps_of_clearing };

    fn next(&mut self, alloc: Global) -> Result<Want<()>, AllocError> {
        match self {
            Clearing::New => {
                *self = Clearing::Asked;
                Ok(Want::Act(Action::Call(DeskCall::ClearTypes)))
            }
            // It waits for the reply.
            Clearing::Asked => Err(AllocError),
        }
    }

    fn message(
        &mut self,
        alloc: Global,
        message: &Result<Message, WireFault>,
    ) -> Result<Want<()>, AllocError> {
        // It waits for none.
        Err(AllocError)
    }

    fn reply(&mut self, alloc: Global, reply: Reply) -> Result<Want<()>, AllocError> {
        match reply {
            Reply::Cleared => Ok(Want::Answer(Ok(()))),
            _ => Ok(Want::Answer(Err(Error::Closed))),
        }
    }

    fn refused(&mut self, alloc: Global, error: Error) -> Result<Want<()>, AllocError> {
        Ok(Want::Answer(Err(error)))
    }

    fn cleanup(&self, alloc: Global) -> Result<VecDeque<Cleanup>, AllocError> {
        // It reads nothing.
        Err(AllocError)
    }
}
