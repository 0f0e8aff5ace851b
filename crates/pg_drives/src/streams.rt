//! Calls whose answer is a stream.

use crate::asked::{Asked, Left};
use pg_asking::{Parts, stream};
use std::alloc::AllocGlobal;
use std::random::RandomSource;
use std::sync::Wait;
use tokio_postgres::{Link, Opens, Target};

/// Reads the stream that a state hands on, or so many items as the case says.
fn read<
    R: Wait + RandomSource + AllocGlobal,
    L: Link + Drop,
    P: Parts,
    O: Opens<Stream = P> + Drop,
>(asked: Asked<'_, '_, R, L>, state: O, out: &mut String) -> Left<L>
    requires { O.is_live state }
{
    let mut line = asked.line;
    let setting = asked.case.setting;
    stream(
        asked.rt.alloc(),
        state,
        setting.polls,
        setting.take,
        &mut line,
        out,
    )?;
    Ok(line)
}

/// The reply to a simple query.
fn simple_query_raw<R: Wait + RandomSource + AllocGlobal, L: Link + Drop>(
    asked: Asked<'_, '_, R, L>,
    out: &mut String,
) -> Left<L> {
    let state = asked.client.simple_query_raw(asked.text());
    read(asked, state, out)
}

/// Rows.
fn query_raw<R: Wait + RandomSource + AllocGlobal, L: Link + Drop>(
    target: Target<'_>,
    asked: Asked<'_, '_, R, L>,
    out: &mut String,
) -> Left<L> {
    let state = asked.client.query_raw(target, asked.values());
    read(asked, state, out)
}

/// Rows of values whose types are given.
fn query_typed_raw<R: Wait + RandomSource + AllocGlobal, L: Link + Drop>(
    asked: Asked<'_, '_, R, L>,
    out: &mut String,
) -> Left<L> {
    let state = asked
        .client
        .query_typed_raw(asked.text(), asked.values(), asked.types());
    read(asked, state, out)
}

/// Makes a call of a stream, by its name.
pub(crate) fn by_name<R: Wait + RandomSource + AllocGlobal, L: Link + Drop>(
    target: Target<'_>,
    asked: Asked<'_, '_, R, L>,
    out: &mut String,
) -> Left<L> {
    match asked.case.call {
        "simple_query_raw" => simple_query_raw(asked, out),
        "query_raw" => query_raw(target, asked, out),
        _ => query_typed_raw(asked, out),
    }
}
