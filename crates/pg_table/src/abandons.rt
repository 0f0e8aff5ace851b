//! A level of a transaction is given up, step by step.

ghost use Rattle.std.specs.Prelude.{◌≡◌};
ghost use Rattle.pg_table.specs.Abandons.{abandons_by};

use pg_errors::Error;
use pg_query::{Action, Cleanup, Command, Polled, Reply, Script, Want};
use pg_steps::query_request;
use pg_types::Text;
use pg_wire::{Message, WireFault};
use std::alloc::{AllocError, Global};
use std::collections::VecDeque;
use std::mem;

/// A level that is given up.
#[derive(Drop)]
pub enum Abandons {
    /// Nothing was done yet: the text that undoes what was done in the level.
    Begins(Text),
    /// The request was sent, or can't be written.
    Done,
}

impl Script for Abandons {
    ghost use Rattle.pg_query.specs.Scripts.{Nothing};
    ghost use Rattle.pg_table.specs.Abandons.{dialogue_of, refuses_of, steps_of};

    type Output = ();

    ghost dialogue = { dialogue_of };

    ghost refuses = { refuses_of };

    ghost waits = { λ _. Nothing };

    ghost steps = { steps_of };

    fn next(&mut self, alloc: Global) -> Result<Want<()>, AllocError> {
        let request = match mem::replace(self, Abandons::Done) {
            Abandons::Begins(text) => query_request(alloc, text.as_str())?,
            Abandons::Done => return Ok(Want::Answer(Ok(()))),
        };
        match request {
            Ok(request) => Ok(Want::Act(Action::Send(request))),
            Err(error) => Ok(Want::Answer(Err(error))),
        }
    }

    fn message(
        &mut self,
        alloc: Global,
        message: &Result<Message, WireFault>,
    ) -> Result<Want<()>, AllocError> {
        // It reads nothing.
        Err(AllocError)
    }

    fn reply(&mut self, alloc: Global, reply: Reply) -> Result<Want<()>, AllocError> {
        // It asks nothing.
        Err(AllocError)
    }

    fn refused(&mut self, alloc: Global, error: Error) -> Result<Want<()>, AllocError> {
        Ok(Want::Answer(Err(error)))
    }

    fn cleanup(&self, alloc: Global) -> Result<VecDeque<Cleanup>, AllocError> {
        // It reads nothing.
        Err(AllocError)
    }
}

/// The state that gives up a level. Nobody reads the server's reply.
pub type AbandonState = Command<Abandons>;

/// Makes the state that undoes what was done in a level by this text. It takes no memory, and books nothing before its first poll.
pub(crate) fn abandon_state(text: Text) -> AbandonState
    ensures live { ⟦<AbandonState as Polled>⟧.is_live result }
    ensures asks { (⟦<AbandonState as Polled>⟧.place result).dialogue ≡ abandons_by text }
{
    Command::new(Abandons::Begins(text))
}
