//! A level of a transaction that is given up at once.

ghost use Rattle.pg_steps.specs.Dialogues as spec;
ghost use Rattle.pg_steps.specs.Doing.{Does};

use crate::call::{Call, command};
use crate::savepoint::Savepoint;
use futures::task::Poll;
use pg_desk::{Desk, Stamp};
use pg_errors::Error;
use pg_query::Polled;
use std::alloc::Global;

/// Undoes what was done in this level, the transaction itself where it is None; nobody reads the server's reply. Encode comes where
/// the name can't be written; Closed where the desk takes no requests any more.
pub fn abandon<'a, D: Desk>(
    alloc: Global,
    level: Option<Savepoint<'a>>,
    desk: &mut D,
    stamp: Stamp,
) -> Result<(), Error>
    ensures { Does D.becomes stamp desk.old (spec.abandon level.entry) desk.new result }
{
    let mut state = command(Call::Abandon(level));
    let polled = state.poll(alloc, desk, stamp);
    drop(state);
    match polled {
        Poll::Ready(answer) => answer,
        // It reads nothing, so it never waits.
        Poll::Pending => Err(Error::OutOfMemory),
    }
}
