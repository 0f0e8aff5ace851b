//! One command over a line, driven to its answer.

ghost use Rattle.std.specs.Prelude.{◌≡◌};
ghost use Rattle.pg_drive.specs.Drives.{Asked};
ghost use Rattle.pg_drive.specs.Lines.{anew, seen};

use crate::line::{Line, Lull};
use futures::task::Poll;
use pg_desk::{Desk, Engine, Stamp};
use pg_errors::Error;
use pg_query::Polled;
use pg_wire::Link;
use std::alloc::Global;
use std::sync::Wait;

impl<L: Link, E: Engine> Line<L, E> {
    /// Polls a command's state and the connection in turn until the state answers: what a program does that asks one thing after
    /// another. It ends with the state's answer; or, behind a hanging up of the state, with an error of `step`. The polls in which
    /// nothing moves are counted anew. It goes on as long as the server does: no clause says that it returns.
    pub fn ask<S: Polled + Drop, R: Wait>(
        &mut self,
        rt: &R,
        alloc: Global,
        state: S,
        stamp: Stamp,
    ) -> Result<S::Output, Error>
        requires { S.is_live state }
        ensures { Asked E.becomes stamp (record { place = S.place state; line = anew (seen L.view self.old) }) (seen L.view self.new) result }
    {
        let mut state = state;
        self.lull = Lull::Moved;
        'polls: for _ in rt.forever() {
            match state.poll(alloc, &mut self.hub, stamp) {
                Poll::Ready(answer) => return answer,
                Poll::Pending => {}
            }
            match self.step(alloc) {
                Ok(()) => {}
                Err(error) => {
                    let _ = state.hang_up(alloc, &mut self.hub, stamp);
                    return Err(error);
                }
            }
        }
        unreachable!()
    }
}
