//! A take from the request that is read, and what ends it.

ghost use Rattle.std.specs.Prelude.{◌≡◌, ◌≤◌, ◌<◌, Bool, Ok, Err};
ghost use Rattle.pg_spec.specs.declared.stamps.Stamp.{Stamp};
ghost use Rattle.pg_query.specs.Dialogue.{Answer, HangUp};
ghost use Rattle.pg_query.specs.Meaning.{GoesToAnswer, Leaves};
ghost use Rattle.pg_streams.specs.Taking.{Comes, IsBatch};
ghost use Rattle.pg_streams.specs.TypedRaw.{Asked};

use pg_desk::{Desk, Take};
use pg_errors::Error;
use pg_query::error_of;
use pg_wire::BackendMessages;

/// What a take gives.
#[derive(Drop)]
pub(crate) enum Came {
    Batch(BackendMessages),
    /// None is there yet.
    Nothing,
    /// No more comes, and this is the answer.
    Fails(Error),
}

/// Hangs up a request of which nothing comes any more, and gives the error that is answered then.
fn leave<D: Desk>(desk: &mut D, id: u64) -> Error
    ensures leaves { Leaves D.becomes desk.old id desk.new result }
    ensures count { D.undelivered desk.new ≤ D.undelivered desk.old }
{
    if let Err(fault) = desk.hang_up(id) {
        return error_of(fault);
    }
    Error::Closed
}

/// Takes a batch of the request of this number. Closed comes where the desk gives no more of its reply.
pub(crate) fn take_batch<D: Desk>(desk: &mut D, id: u64) -> Came
    ensures comes { Comes D.becomes desk.old id desk.new result }
    ensures falls { IsBatch result → D.undelivered desk.new < D.undelivered desk.old }
{
    match desk.take(id) {
        Ok(Take::Batch(batch)) => Came::Batch(batch),
        Ok(Take::Empty) => Came::Nothing,
        Ok(Take::Over) => Came::Fails(Error::Closed),
        Ok(Take::Gone) => Came::Fails(leave(desk, id)),
        Err(fault) => Came::Fails(error_of(fault)),
    }
}

/// Hangs up the request of this number behind an error, and gives that, or why the desk refused.
pub(crate) fn fail<D: Desk>(desk: &mut D, id: u64, error: Error) -> Error
    ensures { (rows : Bool) (stamp : Stamp) → GoesToAnswer {T = Asked rows} D.becomes stamp desk.old (record { dialogue = HangUp (Answer (Err error)); reads = id }) desk.new (Err result) }
{
    match desk.hang_up(id) {
        Ok(()) => error,
        Err(fault) => error_of(fault),
    }
}

/// Hangs up the request of this number.
pub(crate) fn give_up<D: Desk>(desk: &mut D, id: u64) -> Result<(), Error>
    ensures { (stamp : Stamp) → GoesToAnswer D.becomes stamp desk.old (record { dialogue = HangUp (Answer (Ok tt)); reads = id }) desk.new result }
{
    match desk.hang_up(id) {
        Ok(()) => Ok(()),
        Err(fault) => Err(error_of(fault)),
    }
}
