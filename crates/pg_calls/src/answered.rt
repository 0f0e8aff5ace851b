//! A state whose answer is made of that of another.

ghost use Rattle.std.specs.Prelude.{◌≡◌, Result};
ghost use Rattle.pg_types.specs.declared.error.Error.{Error};
ghost use Rattle.pg_query.specs.Made.{TellsOrLacks, made_place};

use futures::task::Poll;
use pg_desk::{Desk, Stamp};
use pg_errors::Error;
use pg_query::Polled;
use std::alloc::Global;

/// Makes an answer of another.
pub trait Make: Drop {
    type Input;

    type Output;

    ghost makes: { Self → Self.Input → Result Self.Output Error };

    /// What is made of it.
    fn make(&self, alloc: Global, value: Self::Input) -> Result<Self::Output, Error>
        ensures { TellsOrLacks (makes self.now value) result };
}

/// The state of a call whose answer is made of the value of another.
pub struct Answered<S, M> {
    state: S,
    make: M,
}

impl<S: Drop, M: Drop> Drop for Answered<S, M> {
    fn drop(self) {
        let Answered { state, make } = self;
        drop(state);
        drop(make);
    }
}

impl<S: Polled, M: Make<Input = S::Output>> Answered<S, M> {
    /// The state that asks what this one asks, and answers what is made of its value. It takes no memory.
    pub fn new(state: S, make: M) -> Answered<S, M>
        ensures live { S.is_live state → ⟦<Answered<S, M> as Polled>⟧.is_live result }
        ensures place { ⟦<Answered<S, M> as Polled>⟧.place result ≡ made_place (M.makes make) (S.place state) }
    {
        Answered { state, make }
    }
}

impl<S: Polled, M: Make<Input = S::Output>> Polled for Answered<S, M> {
    ghost use Rattle.pg_query.specs.Made.{made_place};

    type Output = M::Output;

    ghost place = { λ s. made_place (M.makes s.make) (S.place s.state) };

    ghost is_live = { λ s. S.is_live s.state };

    fn poll<D: Desk>(
        &mut self,
        alloc: Global,
        desk: &mut D,
        stamp: Stamp,
    ) -> Poll<Result<M::Output, Error>> {
        match self.state.poll(alloc, desk, stamp) {
            Poll::Ready(Ok(value)) => Poll::Ready(self.make.make(alloc, value)),
            Poll::Ready(Err(error)) => Poll::Ready(Err(error)),
            Poll::Pending => Poll::Pending,
        }
    }

    fn hang_up<D: Desk>(self, alloc: Global, desk: &mut D, stamp: Stamp) -> Result<(), Error> {
        let Answered { state, make: _ } = self;
        state.hang_up(alloc, desk, stamp)
    }
}
