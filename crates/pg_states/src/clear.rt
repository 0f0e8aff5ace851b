//! The types that are cached are dropped.

ghost use Rattle.std.specs.Prelude.{◌≡◌};
ghost use Rattle.pg_core.specs.Lookups.{clear};

use crate::clearing::Clearing;
use futures::task::Poll;
use pg_desk::{Desk, Stamp};
use pg_errors::Error;
use pg_query::{Command, Polled};
use std::alloc::Global;

/// The state that drops the types that are cached.
pub struct ClearState {
    command: Command<Clearing>,
}

impl Drop for ClearState {
    fn drop(self) {
        let ClearState { command } = self;
        drop(command);
    }
}

impl ClearState {
    ghost use Rattle.pg_states.specs.States.{place_of_clear, IsLiveClear};

    /// Makes the state, which asks the desk in its first poll, and books nothing. It takes no memory.
    pub fn new() -> ClearState
        ensures live { IsLiveClear result }
        ensures asks { (place_of_clear result).dialogue ≡ clear }
    {
        ClearState {
            command: Command::new(Clearing::New),
        }
    }
}

impl Polled for ClearState {
    ghost use Rattle.pg_states.specs.States.{place_of_clear, IsLiveClear};

    type Output = ();

    ghost place = { place_of_clear };

    ghost is_live = { IsLiveClear };

    fn poll<D: Desk>(
        &mut self,
        alloc: Global,
        desk: &mut D,
        stamp: Stamp,
    ) -> Poll<Result<(), Error>> {
        self.command.poll(alloc, desk, stamp)
    }

    fn hang_up<D: Desk>(self, alloc: Global, desk: &mut D, stamp: Stamp) -> Result<(), Error> {
        let ClearState { command } = self;
        command.hang_up(alloc, desk, stamp)
    }
}
