//! Calls of a target: a text, or a statement that was prepared.

use crate::asked::{Asked, Left};
use std::alloc::AllocGlobal;
use std::random::RandomSource;
use std::sync::Wait;
use tokio_postgres::types::Value;
use tokio_postgres::{Link, Target};

/// Rows.
fn query<R: Wait + RandomSource + AllocGlobal, L: Link + Drop>(
    target: Target<'_>,
    asked: Asked<'_, '_, R, L>,
    out: &mut String,
) -> Left<L> {
    let state = asked.client.query(target, asked.values());
    asked.ask(state, out)
}

/// One row.
fn query_one<R: Wait + RandomSource + AllocGlobal, L: Link + Drop>(
    target: Target<'_>,
    asked: Asked<'_, '_, R, L>,
    out: &mut String,
) -> Left<L> {
    let state = asked.client.query_one(target, asked.values());
    asked.ask(state, out)
}

/// A row, if there is one.
fn query_opt<R: Wait + RandomSource + AllocGlobal, L: Link + Drop>(
    target: Target<'_>,
    asked: Asked<'_, '_, R, L>,
    out: &mut String,
) -> Left<L> {
    let state = asked.client.query_opt(target, asked.values());
    asked.ask(state, out)
}

/// How many rows are affected.
fn execute<R: Wait + RandomSource + AllocGlobal, L: Link + Drop>(
    target: Target<'_>,
    asked: Asked<'_, '_, R, L>,
    out: &mut String,
) -> Left<L> {
    let state = asked.client.execute(target, asked.values());
    asked.ask(state, out)
}

/// The same.
fn execute_raw<R: Wait + RandomSource + AllocGlobal, L: Link + Drop>(
    target: Target<'_>,
    asked: Asked<'_, '_, R, L>,
    out: &mut String,
) -> Left<L> {
    let state = asked.client.execute_raw(target, asked.values());
    asked.ask(state, out)
}

/// Values of one column.
fn query_scalar<R: Wait + RandomSource + AllocGlobal, L: Link + Drop>(
    target: Target<'_>,
    asked: Asked<'_, '_, R, L>,
    out: &mut String,
) -> Left<L> {
    let state = asked
        .client
        .query_scalar::<Value, &[Value]>(target, asked.values());
    asked.ask(state, out)
}

/// One value.
fn query_one_scalar<R: Wait + RandomSource + AllocGlobal, L: Link + Drop>(
    target: Target<'_>,
    asked: Asked<'_, '_, R, L>,
    out: &mut String,
) -> Left<L> {
    let state = asked
        .client
        .query_one_scalar::<Value, &[Value]>(target, asked.values());
    asked.ask(state, out)
}

/// A value, if there is one.
fn query_opt_scalar<R: Wait + RandomSource + AllocGlobal, L: Link + Drop>(
    target: Target<'_>,
    asked: Asked<'_, '_, R, L>,
    out: &mut String,
) -> Left<L> {
    let state = asked
        .client
        .query_opt_scalar::<Value, &[Value]>(target, asked.values());
    asked.ask(state, out)
}

/// A call of a target whose answer is values, by its name.
fn scalars<R: Wait + RandomSource + AllocGlobal, L: Link + Drop>(
    target: Target<'_>,
    asked: Asked<'_, '_, R, L>,
    out: &mut String,
) -> Left<L> {
    match asked.case.call {
        "query_scalar" => query_scalar(target, asked, out),
        "query_one_scalar" => query_one_scalar(target, asked, out),
        _ => query_opt_scalar(target, asked, out),
    }
}

/// A call of a target, by its name.
pub(crate) fn by_name<R: Wait + RandomSource + AllocGlobal, L: Link + Drop>(
    target: Target<'_>,
    asked: Asked<'_, '_, R, L>,
    out: &mut String,
) -> Left<L> {
    match asked.case.call {
        "query" => query(target, asked, out),
        "query_one" => query_one(target, asked, out),
        "query_opt" => query_opt(target, asked, out),
        "execute" => execute(target, asked, out),
        "execute_raw" => execute_raw(target, asked, out),
        _ => scalars(target, asked, out),
    }
}
