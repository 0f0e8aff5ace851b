//! Types that are found in the server's catalog, as a state that is polled.

ghost use Rattle.std.specs.Prelude.{◌≡◌, IfOk};
ghost use Rattle.pg_core.specs.Lookups.{find_all};

use futures::task::Poll;
use pg_core::Finder;
use pg_desk::{Desk, Stamp};
use pg_errors::Error;
use pg_query::{Command, Polled, Script};
use pg_states::Finds;
use pg_types::{List, Oid, Type};
use std::alloc::{AllocError, Global};
use std::collections::VecDeque;

type Searched = <Finds as Finder>::Search;

/// The state that finds the types of oids.
#[derive(Drop)]
pub(crate) struct FindState {
    command: Command<Searched>,
}

/// The search for the types of these oids.
fn search_for(alloc: Global, oids: VecDeque<Oid>) -> Result<Searched, AllocError>
    ensures { IfOk result (λ search. ⟦<Searched as Script>⟧.dialogue search ≡ find_all oids.items) }
{
    let finds = Finds {};
    finds.find(alloc, oids)
}

impl FindState {
    /// Makes the state that finds the types of these oids. It books nothing before its first poll.
    pub(crate) fn new(alloc: Global, oids: VecDeque<Oid>) -> Result<FindState, AllocError>
        ensures live { IfOk result (λ state. ⟦<FindState as Polled>⟧.is_live state) }
        ensures asks { IfOk result (λ state. (⟦<FindState as Polled>⟧.place state).dialogue ≡ find_all oids.items) }
    {
        let search = search_for(alloc, oids)?;
        Ok(FindState {
            command: Command::new(search),
        })
    }
}

impl Polled for FindState {
    ghost use Rattle.pg_query.specs.Commands.{place_of, IsLive};

    type Output = List<Type>;

    ghost place = { λ s. place_of ⟦<Searched as Script>⟧.dialogue s.command };

    ghost is_live = { λ s. IsLive ⟦<Searched as Script>⟧.dialogue ⟦<Searched as Script>⟧.waits s.command };

    fn poll<D: Desk>(
        &mut self,
        alloc: Global,
        desk: &mut D,
        stamp: Stamp,
    ) -> Poll<Result<List<Type>, Error>> {
        self.command.poll(alloc, desk, stamp)
    }

    fn hang_up<D: Desk>(self, alloc: Global, desk: &mut D, stamp: Stamp) -> Result<(), Error> {
        let FindState { command } = self;
        command.hang_up(alloc, desk, stamp)
    }
}
