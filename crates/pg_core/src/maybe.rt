//! An answer at once, or a script.

use pg_errors::Error;
use pg_query::{Cleanup, Reply, Script, Want};
use pg_wire::{Message, WireFault};
use std::alloc::{AllocError, Global};
use std::collections::VecDeque;
use std::mem;

/// An answer at once, or a script.
#[derive(Drop)]
pub enum Maybe<T, B> {
    Answers(Result<T, Error>),
    Goes(B),
}

impl<B: Script> Script for Maybe<B::Output, B> {
    ghost use Rattle.pg_core.specs.Maybes.{maybe_dialogue, maybe_refuses, maybe_waits, maybe_steps};

    type Output = B::Output;

    ghost dialogue = { maybe_dialogue B.dialogue };

    ghost refuses = { maybe_refuses B.refuses };

    ghost waits = { maybe_waits B.dialogue B.waits };

    ghost steps = { maybe_steps B.steps };

    fn next(&mut self, alloc: Global) -> Result<Want<B::Output>, AllocError> {
        match mem::replace(self, Maybe::Answers(Err(Error::Closed))) {
            Maybe::Answers(answer) => Ok(Want::Answer(answer)),
            Maybe::Goes(mut script) => {
                let want = script.next(alloc)?;
                *self = Maybe::Goes(script);
                Ok(want)
            }
        }
    }

    fn message(
        &mut self,
        alloc: Global,
        message: &Result<Message, WireFault>,
    ) -> Result<Want<B::Output>, AllocError> {
        match self {
            // It reads nothing.
            Maybe::Answers(_) => Err(AllocError),
            Maybe::Goes(script) => script.message(alloc, message),
        }
    }

    fn reply(&mut self, alloc: Global, reply: Reply) -> Result<Want<B::Output>, AllocError> {
        match self {
            // It asks nothing.
            Maybe::Answers(_) => Err(AllocError),
            Maybe::Goes(script) => script.reply(alloc, reply),
        }
    }

    fn refused(&mut self, alloc: Global, error: Error) -> Result<Want<B::Output>, AllocError> {
        match self {
            // It asks nothing.
            Maybe::Answers(_) => Err(AllocError),
            Maybe::Goes(script) => script.refused(alloc, error),
        }
    }

    fn cleanup(&self, alloc: Global) -> Result<VecDeque<Cleanup>, AllocError> {
        match self {
            Maybe::Answers(_) => Ok(VecDeque::new(alloc)),
            Maybe::Goes(script) => script.cleanup(alloc),
        }
    }
}
