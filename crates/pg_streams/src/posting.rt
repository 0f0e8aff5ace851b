//! A request whose reply nobody reads.

ghost use Rattle.std.specs.Prelude.{◌≡◌};
ghost use Rattle.pg_streams.specs.Collecting.{Drops, FailsBehind, Posts};

use bytes::Bytes;
use pg_desk::{Desk, Stamp};
use pg_errors::Error;
use pg_query::error_of;
use std::alloc::Global;

/// Sends a request, if there is one, and hangs it up.
pub(crate) fn post<D: Desk>(
    alloc: Global,
    desk: &mut D,
    stamp: Stamp,
    part: Option<Bytes>,
) -> Result<(), Error>
    ensures { Posts D.becomes stamp desk.old part desk.new result }
{
    let Some(part) = part else {
        return Ok(());
    };
    match desk.book(alloc, stamp, part, false) {
        Ok(sent) => match desk.hang_up(sent) {
            Ok(()) => Ok(()),
            Err(fault) => Err(error_of(fault)),
        },
        Err(fault) => Err(error_of(fault)),
    }
}

/// Hangs up the request of this number, and sends one behind it, if there is one.
pub(crate) fn hang_up<D: Desk>(
    alloc: Global,
    desk: &mut D,
    stamp: Stamp,
    id: u64,
    part: Option<Bytes>,
) -> Result<(), Error>
    ensures { Drops D.becomes stamp desk.old id part desk.new result }
{
    match desk.hang_up(id) {
        Ok(()) => post(alloc, desk, stamp, part),
        Err(fault) => Err(error_of(fault)),
    }
}

/// Sends a request, if there is one, hangs it up, and gives this error behind it, or why the desk refused that.
pub(crate) fn fail_behind<D: Desk>(
    alloc: Global,
    desk: &mut D,
    stamp: Stamp,
    part: Option<Bytes>,
    error: Error,
) -> Error
    ensures { FailsBehind D.becomes stamp desk.old part error desk.new result }
{
    match post(alloc, desk, stamp, part) {
        Ok(()) => error,
        Err(refused) => refused,
    }
}
