//! A value that is answered at once.

ghost use Rattle.std.specs.Prelude.{◌≡◌, Ok};
ghost use Rattle.pg_query.specs.Dialogue.{Answer};
ghost use Rattle.pg_core.specs.Readies.{ready_at};

use crate::Maybe;
use pg_errors::Error;
use pg_query::{Cleanup, Reply, Script, Want};
use pg_wire::{Message, WireFault};
use std::alloc::{AllocError, Global};
use std::collections::VecDeque;

/// A value that is answered at once.
#[derive(Drop)]
pub struct Ready<T> {
    value: Option<T>,
}

/// The same in the form in which a `Go` may name it as its `Next`: the toolchain admits no `Ready` by itself there.
pub type Answered<T> = Maybe<T, Ready<T>>;

impl<T> Ready<T> {
    /// This value. It takes no memory.
    pub fn new(value: T) -> Ready<T>
        ensures { ready_at result ≡ Answer (Ok value) }
    {
        Ready { value: Some(value) }
    }
}

impl<T: Drop> Script for Ready<T> {
    ghost use Rattle.pg_query.specs.Scripts.{Nothing};
    ghost use Rattle.pg_core.specs.Readies.{ready_at, ready_refuses};

    type Output = T;

    ghost dialogue = { ready_at };

    ghost refuses = { ready_refuses };

    ghost waits = { λ s. Nothing };

    ghost steps = { λ _. 0 };

    fn next(&mut self, alloc: Global) -> Result<Want<T>, AllocError> {
        match self.value.take() {
            Some(value) => Ok(Want::Answer(Ok(value))),
            None => Ok(Want::Answer(Err(Error::Closed))),
        }
    }

    fn message(
        &mut self,
        alloc: Global,
        message: &Result<Message, WireFault>,
    ) -> Result<Want<T>, AllocError> {
        // It reads nothing.
        Err(AllocError)
    }

    fn reply(&mut self, alloc: Global, reply: Reply) -> Result<Want<T>, AllocError> {
        // It asks nothing.
        Err(AllocError)
    }

    fn refused(&mut self, alloc: Global, error: Error) -> Result<Want<T>, AllocError> {
        Ok(Want::Answer(Err(error)))
    }

    fn cleanup(&self, alloc: Global) -> Result<VecDeque<Cleanup>, AllocError> {
        // It reads nothing.
        Err(AllocError)
    }
}
