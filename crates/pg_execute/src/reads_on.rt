//! A reply that is read on, whose request was booked before.

ghost use Rattle.std.specs.Prelude.{◌≡◌, ◌∷◌, [], false, Some, IfOk};
ghost use Rattle.pg_query.specs.Reading.{ends, reads};
ghost use Rattle.pg_query.specs.Scripts.{GoesOn, IsLast, waiting_at};
ghost use Rattle.pg_execute.specs.Reads.{reads_at, reads_refuses};

use pg_errors::Error;
use pg_query::{Action, Cleanup, Reading, Reply, Script, Want};
use pg_wire::{Message, WireFault};
use std::alloc::{AllocError, Global};
use std::collections::VecDeque;

/// Reads a reply on to its answer. At an error the request is hung up.
#[derive(Drop)]
pub struct ReadsOn<R> {
    pub(crate) reading: R,
    /// The error behind which the request is hung up.
    pub(crate) failed: Option<Error>,
}

impl<R: Reading> ReadsOn<R> {
    /// By this reading. It takes no memory.
    pub fn new(reading: R) -> ReadsOn<R>
        ensures { reads_at R.reading result ≡ reads false (R.reading reading) }
    {
        ReadsOn {
            reading,
            failed: None,
        }
    }

    /// What the answer that a message told makes it want.
    fn told(&mut self, answer: Result<R::Output, Error>) -> Want<R::Output>
        ensures goes_on { GoesOn (reads_at R.reading) reads_refuses (λ s. waiting_at (reads_at R.reading s)) (ends false (Some answer)) result self.new }
        ensures last { IsLast result (reads_at R.reading self.new) }
    {
        match answer {
            Ok(answer) => Want::Answer(Ok(answer)),
            Err(error) => {
                self.failed = Some(error);
                Want::Act(Action::HangUp)
            }
        }
    }
}

impl<R: Reading> Script for ReadsOn<R> {
    ghost use Rattle.pg_query.specs.Scripts.{waiting_at};
    ghost use Rattle.pg_execute.specs.Reads.{reads_at, reads_refuses};

    type Output = R::Output;

    ghost dialogue = { reads_at R.reading };

    ghost refuses = { reads_refuses };

    ghost waits = { λ s. waiting_at (reads_at R.reading s) };

    ghost steps = { λ _. 0 };

    fn next(&mut self, alloc: Global) -> Result<Want<R::Output>, AllocError> {
        match self.failed.take() {
            Some(error) => Ok(Want::Answer(Err(error))),
            None => Ok(Want::Read),
        }
    }

    fn message(
        &mut self,
        alloc: Global,
        message: &Result<Message, WireFault>,
    ) -> Result<Want<R::Output>, AllocError> {
        match self.reading.message(alloc, message) {
            // It waited for a message, so it reads, and goes on with that.
            Ok(None) => Ok(Want::Read),
            Ok(Some(answer)) => Ok(self.told(answer)),
            Err(_) => Err(AllocError),
        }
    }

    fn reply(&mut self, alloc: Global, reply: Reply) -> Result<Want<R::Output>, AllocError> {
        // It asks nothing.
        Err(AllocError)
    }

    fn refused(&mut self, alloc: Global, error: Error) -> Result<Want<R::Output>, AllocError> {
        Ok(Want::Answer(Err(error)))
    }

    fn cleanup(&self, alloc: Global) -> Result<VecDeque<Cleanup>, AllocError> {
        only_release(alloc)
    }
}

/// What is left to do where one request is read: it is hung up.
pub(crate) fn only_release(alloc: Global) -> Result<VecDeque<Cleanup>, AllocError>
    ensures { IfOk result (λ left. left.items ≡ Cleanup.Release ∷ []) }
{
    let mut left = VecDeque::new(alloc);
    left.push_back(Cleanup::Release)?;
    Ok(left)
}
