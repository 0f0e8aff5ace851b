//! A connection is opened, and its link is waited for by the rule of a line.

ghost use Rattle.std.specs.Prelude.{◌≡◌};
ghost use Rattle.futures.specs.Poll.{OnPending};
ghost use Rattle.pg_open.specs.Opening.{IsOpening, OpenStands, OpenStays, outside};
ghost use Rattle.pg_drive.specs.Openings.{OpenPauses, OpenRuns, OpenSteps};

use crate::line::Lull;
use futures::task::Poll;
use pg_errors::{Cause, Error};
use pg_open::tls::TlsConnect;
use pg_open::{ConnectRaw, Opened};
use pg_wire::{Link, LinkWait};
use std::alloc::Global;
use std::sync::Wait;

/// Behind a poll that goes on, in which the count of calls that weren't ready went from `before` to `after`.
fn pause<'a, L: Link + Drop, T: TlsConnect<L> + Drop>(
    raw: &mut ConnectRaw<'a, L, T>,
    lull: Lull,
    before: u64,
    after: u64,
) -> Result<Lull, Error>
    requires { IsOpening (outside L.view T.connects T.begins T.Future.polled T.Future.Stream.view T.Future.Stream.binding) raw.old.settings raw.old.stage }
    ensures end { OpenPauses (outside L.view T.connects T.begins T.Future.polled T.Future.Stream.view T.Future.Stream.binding) lull raw.old.moved before after raw.old.stage raw.new.stage result }
    ensures opening { IsOpening (outside L.view T.connects T.begins T.Future.polled T.Future.Stream.view T.Future.Stream.binding) raw.new.settings raw.new.stage }
    ensures stays { OpenStays (outside L.view T.connects T.begins T.Future.polled T.Future.Stream.view T.Future.Stream.binding) raw.old.settings raw.old.stage raw.new.stage }
    ensures same { raw.new.settings ≡ raw.old.settings }
{
    if raw.moved() {
        return Ok(Lull::Moved);
    }
    match lull {
        Lull::Moved => Ok(Lull::Still),
        Lull::Waited => Err(Error::Stalled { before, after }),
        Lull::Still => match raw.wait() {
            LinkWait::Ready => Ok(Lull::Waited),
            LinkWait::Idle => Err(Error::Stalled { before, after }),
            LinkWait::Failed => Err(Error::Io(Cause::Link)),
        },
    }
}

/// A poll, and what comes behind it.
fn step<'a, L: Link + Drop, T: TlsConnect<L> + Drop>(
    alloc: Global,
    raw: &mut ConnectRaw<'a, L, T>,
    lull: &mut Lull,
) -> Poll<Result<Opened<L, T>, Error>>
    requires opening { IsOpening (outside L.view T.connects T.begins T.Future.polled T.Future.Stream.view T.Future.Stream.binding) raw.old.settings raw.old.stage }
    ensures step { (link : L) (tls : T) → OpenStands (outside L.view T.connects T.begins T.Future.polled T.Future.Stream.view T.Future.Stream.binding) raw.old.settings link tls raw.old.stage →
        OpenSteps (outside L.view T.connects T.begins T.Future.polled T.Future.Stream.view T.Future.Stream.binding) raw.old.settings link tls lull.old raw.old.stage lull.new raw.new.stage result }
    ensures stands { (link : L) (tls : T) → OpenStands (outside L.view T.connects T.begins T.Future.polled T.Future.Stream.view T.Future.Stream.binding) raw.old.settings link tls raw.old.stage → OnPending result (OpenStands (outside L.view T.connects T.begins T.Future.polled T.Future.Stream.view T.Future.Stream.binding) raw.new.settings link tls raw.new.stage) }
    ensures opening { OnPending result (IsOpening (outside L.view T.connects T.begins T.Future.polled T.Future.Stream.view T.Future.Stream.binding) raw.new.settings raw.new.stage) }
    ensures same { raw.new.settings ≡ raw.old.settings }
{
    let before = raw.quiet();
    match raw.poll(alloc) {
        Poll::Ready(answer) => return Poll::Ready(answer),
        Poll::Pending => {}
    }
    let after = raw.quiet();
    match pause(raw, *lull, before, after) {
        Ok(next) => {
            *lull = next;
            Poll::Pending
        }
        Err(error) => Poll::Ready(Err(error)),
    }
}

/// Polls until there is an answer, and waits for the link or stream by the rule of a `Line`: Io comes where a wait failed, and Stalled
/// where two polls in a row moved nothing, and the link was waited for in vain or a third moved nothing either. The other errors are
/// those of `ConnectRaw::poll`.
pub fn open<'a, R: Wait, L: Link + Drop, T: TlsConnect<L> + Drop>(
    rt: &R,
    alloc: Global,
    raw: &mut ConnectRaw<'a, L, T>,
) -> Result<Opened<L, T>, Error>
    requires opening { IsOpening (outside L.view T.connects T.begins T.Future.polled T.Future.Stream.view T.Future.Stream.binding) raw.old.settings raw.old.stage }
    ensures opens { (link : L) (tls : T) → OpenStands (outside L.view T.connects T.begins T.Future.polled T.Future.Stream.view T.Future.Stream.binding) raw.old.settings link tls raw.old.stage →
        OpenRuns (outside L.view T.connects T.begins T.Future.polled T.Future.Stream.view T.Future.Stream.binding) raw.old.settings link tls raw.old.stage raw.new.stage result }
    ensures same { raw.new.settings ≡ raw.old.settings }
{
    let mut lull = Lull::Moved;
    'polls: for _ in rt.forever() {
        match step(alloc, raw, &mut lull) {
            Poll::Ready(answer) => return answer,
            Poll::Pending => {}
        }
    }
    unreachable!()
}
