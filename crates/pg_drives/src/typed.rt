//! Calls of values whose types are given.

use crate::asked::{Asked, Left};
use std::alloc::AllocGlobal;
use std::random::RandomSource;
use std::sync::Wait;
use tokio_postgres::Link;

/// Rows.
fn query_typed<R: Wait + RandomSource + AllocGlobal, L: Link + Drop>(
    asked: Asked<'_, '_, R, L>,
    out: &mut String,
) -> Left<L> {
    let state = asked
        .client
        .query_typed(asked.text(), asked.values(), asked.types());
    asked.ask(state, out)
}

/// One row.
fn query_typed_one<R: Wait + RandomSource + AllocGlobal, L: Link + Drop>(
    asked: Asked<'_, '_, R, L>,
    out: &mut String,
) -> Left<L> {
    let state = asked
        .client
        .query_typed_one(asked.text(), asked.values(), asked.types());
    asked.ask(state, out)
}

/// A row, if there is one.
fn query_typed_opt<R: Wait + RandomSource + AllocGlobal, L: Link + Drop>(
    asked: Asked<'_, '_, R, L>,
    out: &mut String,
) -> Left<L> {
    let state = asked
        .client
        .query_typed_opt(asked.text(), asked.values(), asked.types());
    asked.ask(state, out)
}

/// How many rows are affected.
fn execute_typed<R: Wait + RandomSource + AllocGlobal, L: Link + Drop>(
    asked: Asked<'_, '_, R, L>,
    out: &mut String,
) -> Left<L> {
    let state = asked
        .client
        .execute_typed(asked.text(), asked.values(), asked.types());
    asked.ask(state, out)
}

/// A call of values whose types are given, by its name.
pub(crate) fn by_name<R: Wait + RandomSource + AllocGlobal, L: Link + Drop>(
    asked: Asked<'_, '_, R, L>,
    out: &mut String,
) -> Left<L> {
    match asked.case.call {
        "query_typed" => query_typed(asked, out),
        "query_typed_one" => query_typed_one(asked, out),
        "query_typed_opt" => query_typed_opt(asked, out),
        _ => execute_typed(asked, out),
    }
}
