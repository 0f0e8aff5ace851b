//! Calls that are given up before they answer.

use crate::asked::{Asked, Left};
use pg_asking::{Told, ask};
use std::alloc::AllocGlobal;
use std::random::RandomSource;
use std::sync::Wait;
use tokio_postgres::{Link, Polled, Stamp, Target};

/// Polls a state so often as the case says, and gives it up.
fn give_up<
    R: Wait + RandomSource + AllocGlobal,
    L: Link + Drop,
    T: Told,
    S: Polled<Output = T> + Drop,
>(asked: Asked<'_, '_, R, L>, state: S, out: &mut String) -> Left<L>
    requires { S.is_live state }
{
    let mut line = asked.line;
    let polls = asked.case.setting.polls;
    ask(
        asked.rt.alloc(),
        state,
        polls,
        Stamp::new(0, 0, 0),
        &mut line,
        out,
    )?;
    Ok(line)
}

/// A simple query.
fn simple_query<R: Wait + RandomSource + AllocGlobal, L: Link + Drop>(
    asked: Asked<'_, '_, R, L>,
    out: &mut String,
) -> Left<L> {
    let state = asked.client.simple_query(asked.text());
    give_up(asked, state, out)
}

/// A statement is prepared.
fn prepare<R: Wait + RandomSource + AllocGlobal, L: Link + Drop>(
    asked: Asked<'_, '_, R, L>,
    out: &mut String,
) -> Left<L> {
    let state = asked.client.prepare(asked.text());
    give_up(asked, state, out)
}

/// Rows.
fn query<R: Wait + RandomSource + AllocGlobal, L: Link + Drop>(
    target: Target<'_>,
    asked: Asked<'_, '_, R, L>,
    out: &mut String,
) -> Left<L> {
    let state = asked.client.query(target, asked.values());
    give_up(asked, state, out)
}

/// Begins a call, by its name, polls it so often as its case says, and gives it up.
pub(crate) fn by_name<R: Wait + RandomSource + AllocGlobal, L: Link + Drop>(
    target: Target<'_>,
    asked: Asked<'_, '_, R, L>,
    out: &mut String,
) -> Left<L> {
    match asked.case.call {
        "simple_query" => simple_query(asked, out),
        "prepare" => prepare(asked, out),
        _ => query(target, asked, out),
    }
}
