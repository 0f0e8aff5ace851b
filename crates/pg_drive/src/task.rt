//! What takes turns over one hub with others.

ghost use Rattle.std.specs.Prelude.{◌≡◌, Bool, List, false};
ghost use Rattle.pg_desk.specs.declared.event.Event.{Event};
ghost use Rattle.pg_drive.specs.Tasks.{TakesTurn};
ghost use Rattle.pg_drive.specs.Runnings.{IsLiveRunning, IsGivenUp, RunningTurns, has_answered};

use futures::task::Poll;
use pg_desk::{Desk, Stamp};
use pg_errors::Error;
use pg_query::Polled;
use std::alloc::Global;

/// What takes turns over one hub with others, until it is done: a command's state, a stream that is read, a copy, a request that is
/// hung up, or one after another of these.
pub trait Task {
    /// It may have a turn, unless it is done.
    ghost is_live: { Self → Type 0 };

    /// It has ended, and has no turn any more.
    ghost done: { Self → Bool };

    /// By these calls of a desk, in order, one that stood so stands so behind a turn, which moved something or not.
    ghost turns: { Self → List Event → Bool → Self → Type 0 };

    /// Whether it has ended.
    fn is_done(&self) -> bool
        ensures { result ≡ done self.now };

    /// Goes on, and says whether that moved anything. One that answers false waits for the server: nobody needs its next turn before
    /// the connection moved something.
    fn turn<D: Desk>(&mut self, alloc: Global, desk: &mut D) -> bool
        requires live { is_live self.old }
        requires on { done self.old ≡ false }
        ensures turn { TakesTurn D.becomes turns desk.old self.old result desk.new self.new }
        ensures live { is_live self.new };
}

/// A command's state that is polled once a turn under one stamp, and then its answer.
#[derive(Drop)]
pub enum Running<S, T> {
    /// It hasn't answered.
    Polled(S, Stamp),
    Answered(Result<T, Error>),
}

impl<T: Drop, S: Polled<Output = T> + Drop> Running<S, T> {
    /// Gives it up, and does what its state has left to do. Behind its answer that is nothing.
    pub fn hang_up<D: Desk>(self, alloc: Global, desk: &mut D) -> Result<(), Error>
        requires { IsLiveRunning S.is_live self }
        ensures { IsGivenUp D.becomes S.place desk.old self desk.new result }
    {
        match self {
            Running::Polled(state, stamp) => state.hang_up(alloc, desk, stamp),
            Running::Answered(answer) => {
                drop(answer);
                Ok(())
            }
        }
    }
}

impl<T: Drop, S: Polled<Output = T> + Drop> Task for Running<S, T> {
    ghost is_live = { IsLiveRunning S.is_live };

    ghost done = { has_answered };

    ghost turns = { RunningTurns S.place };

    fn is_done(&self) -> bool {
        match self {
            Running::Polled(_, _) => false,
            Running::Answered(_) => true,
        }
    }

    fn turn<D: Desk>(&mut self, alloc: Global, desk: &mut D) -> bool {
        let Running::Polled(state, stamp) = self else {
            unreachable!()
        };
        match state.poll(alloc, desk, *stamp) {
            Poll::Pending => false,
            Poll::Ready(answer) => {
                *self = Running::Answered(answer);
                true
            }
        }
    }
}
