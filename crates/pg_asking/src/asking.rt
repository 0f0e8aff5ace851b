//! States that are polled in turns with their line.

use crate::answers::{Told, tell_answer, tell_error};
use futures::task::Poll;
use std::alloc::{AllocError, Global};
use tokio_postgres::{Error, Hub, Line, Link, Polled, Stamp};

/// Polls a state, so often at most, with steps of the line in between. None: it answered an error, the line ended in one, or it is
/// given up; these are told.
pub fn ask_for<L: Link, T, S: Polled<Output = T> + Drop>(
    alloc: Global,
    state: S,
    polls: u64,
    stamp: Stamp,
    line: &mut Line<L, Hub>,
    out: &mut String,
) -> Result<Option<T>, AllocError>
    requires { S.is_live state }
{
    let mut state = state;
    'polls: for _ in 0..polls {
        match state.poll(alloc, &mut line.hub, stamp) {
            Poll::Ready(answer) => return answered(answer, out),
            Poll::Pending => match line.step(alloc) {
                Ok(()) => {}
                Err(error) => {
                    let _ = state.hang_up(alloc, &mut line.hub, stamp);
                    tell_error(&error, out)?;
                    return Ok(None);
                }
            },
        }
    }
    out.push_str(" given up")?;
    let left = state.hang_up(alloc, &mut line.hub, stamp);
    tell_answer(alloc, left, out)?;
    Ok(None)
}

/// The value of an answer; an error is told.
fn answered<T>(answer: Result<T, Error>, out: &mut String) -> Result<Option<T>, AllocError> {
    match answer {
        Ok(value) => Ok(Some(value)),
        Err(error) => {
            tell_error(&error, out)?;
            Ok(None)
        }
    }
}

/// The same, where the answer is told too.
pub fn ask<L: Link, T: Told, S: Polled<Output = T> + Drop>(
    alloc: Global,
    state: S,
    polls: u64,
    stamp: Stamp,
    line: &mut Line<L, Hub>,
    out: &mut String,
) -> Result<(), AllocError>
    requires { S.is_live state }
{
    match ask_for(alloc, state, polls, stamp, line, out)? {
        Some(value) => value.tell(alloc, out),
        None => Ok(()),
    }
}
