//! The next number of a portal.

ghost use Rattle.std.specs.Prelude.{◌≡◌};
ghost use Rattle.pg_portals.specs.Drawing.{draws_at};
ghost use Rattle.pg_portals.specs.Portals.{draws_portal};

use pg_errors::{Cause, Error};
use pg_query::{Action, Cleanup, DeskCall, Reply, Script, Want};
use pg_wire::{Message, WireFault};
use std::alloc::{AllocError, Global};
use std::collections::VecDeque;

/// Draws the next number of a portal. Where the counter is spent the answer is `Encode(Counter)`; where the desk refuses the question,
/// its error.
#[derive(Drop)]
pub struct DrawsPortal {
    /// It has asked.
    hears: bool,
}

impl DrawsPortal {
    pub fn new() -> DrawsPortal
        ensures { draws_at result ≡ draws_portal }
    {
        DrawsPortal { hears: false }
    }
}

impl Script for DrawsPortal {
    ghost use Rattle.pg_query.specs.Scripts.{waiting_at};
    ghost use Rattle.pg_portals.specs.Drawing.{draws_at, draws_refuses, draws_steps};

    type Output = u32;

    ghost dialogue = { draws_at };

    ghost refuses = { draws_refuses };

    ghost waits = { λ s. waiting_at (draws_at s) };

    ghost steps = { draws_steps };

    fn next(&mut self, alloc: Global) -> Result<Want<u32>, AllocError> {
        if self.hears {
            // It waits for its reply, and isn't asked again.
            return Err(AllocError);
        }
        self.hears = true;
        Ok(Want::Act(Action::Call(DeskCall::NextPortal)))
    }

    fn message(
        &mut self,
        alloc: Global,
        message: &Result<Message, WireFault>,
    ) -> Result<Want<u32>, AllocError> {
        // It reads nothing.
        Err(AllocError)
    }

    fn reply(&mut self, alloc: Global, reply: Reply) -> Result<Want<u32>, AllocError> {
        if !self.hears {
            return Err(AllocError);
        }
        match reply {
            Reply::Number(number) => Ok(Want::Answer(Ok(number))),
            Reply::Spent => Ok(Want::Answer(Err(Error::Encode(Cause::Counter)))),
            // A desk that is asked for a number tells nothing else.
            _ => Ok(Want::Answer(Err(Error::Closed))),
        }
    }

    fn refused(&mut self, alloc: Global, error: Error) -> Result<Want<u32>, AllocError> {
        Ok(Want::Answer(Err(error)))
    }

    fn cleanup(&self, alloc: Global) -> Result<VecDeque<Cleanup>, AllocError> {
        // It reads nothing.
        Err(AllocError)
    }
}
