//! A command whose answer has a type of its own.

ghost use Rattle.std.specs.Prelude.{◌≡◌};
ghost use Rattle.pg_steps.specs.Dialogues.{says};
ghost use Rattle.pg_steps.specs.Mapped.{giving};

use crate::call::{Call, command};
use crate::steps::Steps;
use futures::task::Poll;
use pg_desk::{Desk, Stamp};
use pg_errors::Error;
use pg_query::{Command, Polled};
use std::alloc::Global;

/// What a command gives where all went well.
pub trait Gives: Drop {
    type Given;

    ghost gives: { Self → Self.Given };

    /// It takes no memory.
    fn give(&self) -> Self::Given
        ensures { result ≡ gives self.now };
}

/// The state of a call that gives this where all went well.
pub struct One<'a, G> {
    command: Command<Steps<'a>>,
    gives: G,
}

impl<'a, G: Drop> Drop for One<'a, G> {
    fn drop(self) {
        let One { command, gives } = self;
        drop(gives);
        drop(command);
    }
}

impl<'a, G: Gives> One<'a, G> {
    /// The state of this call. It takes no memory, and books nothing before its first poll.
    pub fn new(call: Call<'a>, gives: G) -> One<'a, G>
        ensures live { ⟦<One<'a, G> as Polled>⟧.is_live result }
        ensures asks { (⟦<One<'a, G> as Polled>⟧.place result).dialogue ≡ giving (G.gives gives) (says call.entry) }
    {
        One {
            command: command(call),
            gives,
        }
    }
}

impl<'a, G: Gives> Polled for One<'a, G> {
    ghost use Rattle.std.specs.Prelude.{Ok};
    ghost use Rattle.pg_query.specs.Made.{made_place};

    type Output = G::Given;

    ghost place = { λ one. made_place (λ _. Ok (G.gives one.gives)) (⟦<Command<Steps<'a>> as Polled>⟧.place one.command) };

    ghost is_live = { λ one. ⟦<Command<Steps<'a>> as Polled>⟧.is_live one.command };

    fn poll<D: Desk>(
        &mut self,
        alloc: Global,
        desk: &mut D,
        stamp: Stamp,
    ) -> Poll<Result<G::Given, Error>> {
        match self.command.poll(alloc, desk, stamp) {
            Poll::Ready(Ok(())) => Poll::Ready(Ok(self.gives.give())),
            Poll::Ready(Err(error)) => Poll::Ready(Err(error)),
            Poll::Pending => Poll::Pending,
        }
    }

    fn hang_up<D: Desk>(self, alloc: Global, desk: &mut D, stamp: Stamp) -> Result<(), Error> {
        let One { command, gives } = self;
        drop(gives);
        command.hang_up(alloc, desk, stamp)
    }
}
