//! A connection over its hub, and how a state is driven over both.

use crate::case::Setting;
use futures::executor::block_on;
use pg_asking::{Told, tell_answer, tell_asides};
use std::alloc::{AllocError, AllocGlobal};
use std::random::RandomSource;
use std::sync::Wait;
use tokio_postgres::{Drive, Engine, Error, Hub, Line, Link, Polled, Stamp};

/// How often a state or a stream is polled by hand at most.
pub(crate) const POLLS: u64 = 40;

/// Closes or fails the hub, where the setting says so.
pub(crate) fn set<L: Link>(line: &mut Line<L, Hub>, setting: &Setting<'_>) {
    if setting.closed {
        let _ = line.hub.close_requests();
    }
    if setting.failed {
        let _ = line.hub.fail();
    }
}

/// Drives the state of a call to its answer, and tells what came that no request asked for.
pub(crate) fn drive<
    R: Wait + RandomSource + AllocGlobal,
    L: Link + Drop,
    T: Drop,
    S: Polled<Output = T> + Drop,
>(
    rt: &R,
    state: S,
    stamp: Stamp,
    line: Line<L, Hub>,
    out: &mut String,
) -> Result<(Line<L, Hub>, Result<T, Error>), AllocError>
    requires { S.is_live state }
{
    let Line {
        connection,
        hub,
        ..
    } = line;
    let mut drive = Drive::new(rt.alloc(), state, stamp, connection, hub);
    let Ok(answer) = block_on(rt, &mut drive) else {
        return Err(AllocError);
    };
    let (connection, hub, messages) = drive.into_parts();
    tell_asides(messages.as_slice(), out)?;
    Ok((Line::new(rt.alloc(), connection, hub), answer))
}

/// Drives the state of a call to its answer, and tells that.
pub(crate) fn ask<
    R: Wait + RandomSource + AllocGlobal,
    L: Link + Drop,
    T: Told,
    S: Polled<Output = T> + Drop,
>(
    rt: &R,
    state: S,
    stamp: Stamp,
    line: Line<L, Hub>,
    out: &mut String,
) -> Result<Line<L, Hub>, AllocError>
    requires { S.is_live state }
{
    let (line, answer) = drive(rt, state, stamp, line, out)?;
    tell_answer(rt.alloc(), answer, out)?;
    Ok(line)
}
