//! Calls that are done at once, and what cancels.

ghost use Rattle.tokio_postgres.specs.Cancelling.{IsStillOpen};

use crate::asked::{Asked, Left};
use crate::plain;
use futures::task::Poll;
use pg_asking::{Told, tell_answer, tell_running};
use pg_cases::written;
use std::alloc::{AllocError, AllocGlobal, Global};
use std::random::RandomSource;
use std::sync::Wait;
use tokio_postgres::{
    CancelQuery, CancelStage, CancelToken, Client, Engine, Hub, Line, Link, MaybeTls, MemoryLink,
    NoTls, Polled, Running, Stamp,
};

/// What a link took that something was cancelled over.
fn tell_stage(stage: &CancelStage<MemoryLink, NoTls>, out: &mut String) -> Result<(), AllocError> {
    match stage {
        CancelStage::Over(Some(MaybeTls::Raw(link))) => written::tell(link.taken(), out),
        _ => Ok(()),
    }
}

/// Cancels over a link of its own, and tells what that took.
fn cancel(
    alloc: Global,
    query: CancelQuery<MemoryLink, NoTls>,
    out: &mut String,
) -> Result<(), AllocError>
    requires open { IsStillOpen query.stage }
{
    let mut query = query;
    match query.poll(alloc) {
        Poll::Ready(answer) => tell_answer(alloc, answer, out)?,
        Poll::Pending => out.push_str(" waits")?,
    }
    tell_stage(&query.stage, out)
}

/// What a token sends that cancels.
pub(crate) fn tell_cancel(
    alloc: Global,
    token: CancelToken,
    out: &mut String,
) -> Result<(), AllocError> {
    let link = MemoryLink::new(alloc, Vec::new(alloc), 8192, 8192, false);
    cancel(alloc, token.cancel_query_raw(link, NoTls), out)
}

/// Whether the connection is closed, before and behind its closing.
pub(crate) fn tell_closed<L: Link>(
    client: &Client,
    line: &mut Line<L, Hub>,
    out: &mut String,
) -> Result<(), AllocError> {
    write!(out, " {}", client.is_closed(&line.hub))?;
    let _ = line.hub.close_requests();
    write!(out, " {}", client.is_closed(&line.hub))
}

/// Prepares a text, before and behind a clearing of the types that are kept.
pub(crate) fn tell_clearing<R: Wait + RandomSource + AllocGlobal, L: Link + Drop>(
    asked: Asked<'_, '_, R, L>,
    out: &mut String,
) -> Left<L> {
    let (rt, client, case, given) = (asked.rt, asked.client, asked.case, asked.given);
    let mut line = plain::prepare(asked, out)?;
    tell_answer(rt.alloc(), client.clear_type_cache(&mut line.hub), out)?;
    let again = Asked {
        rt,
        client,
        case,
        given,
        line,
    };
    plain::prepare(again, out)
}

/// The answers of tasks, one beside another.
fn tell_tasks<T: Told, S: Drop>(
    alloc: Global,
    tasks: Vec<Running<S, T>>,
    out: &mut String,
) -> Result<(), AllocError> {
    let mut is_first = true;
    for task in tasks {
        if !is_first {
            out.push_str(" beside")?;
        }
        tell_running(alloc, task, out)?;
        is_first = false;
    }
    Ok(())
}

/// Polls the states of two clients in turns with the connection, until both have answered. The stamp is the second one's.
pub(crate) fn run_both<R: Wait + AllocGlobal, L: Link, T: Told, S: Polled<Output = T> + Drop>(
    rt: &R,
    first: S,
    second: S,
    stamp: Stamp,
    line: &mut Line<L, Hub>,
    out: &mut String,
) -> Result<(), AllocError>
    requires first { S.is_live first }
    requires second { S.is_live second }
{
    let mut tasks = Vec::new(rt.alloc());
    tasks.push(Running::Polled(first, Stamp::new(0, 0, 0)))?;
    tasks.push(Running::Polled(second, stamp))?;
    let ran = line.run(rt, rt.alloc(), tasks.as_mut_slice());
    tell_tasks(rt.alloc(), tasks, out)?;
    tell_answer(rt.alloc(), ran, out)
}
