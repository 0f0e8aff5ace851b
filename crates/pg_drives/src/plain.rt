//! Calls without values.

use crate::asked::{Asked, Left};
use std::alloc::AllocGlobal;
use std::random::RandomSource;
use std::sync::Wait;
use tokio_postgres::Link;
use tokio_postgres::config::TargetSessionAttrs;

/// The kind of session that a word names.
fn attrs_of(word: &str) -> TargetSessionAttrs {
    match word {
        "read-write" => TargetSessionAttrs::ReadWrite,
        "read-only" => TargetSessionAttrs::ReadOnly,
        _ => TargetSessionAttrs::Any,
    }
}

/// A simple query.
fn simple_query<R: Wait + RandomSource + AllocGlobal, L: Link + Drop>(
    asked: Asked<'_, '_, R, L>,
    out: &mut String,
) -> Left<L> {
    let state = asked.client.simple_query(asked.text());
    asked.ask(state, out)
}

/// A batch.
fn batch_execute<R: Wait + RandomSource + AllocGlobal, L: Link + Drop>(
    asked: Asked<'_, '_, R, L>,
    out: &mut String,
) -> Left<L> {
    let state = asked.client.batch_execute(asked.text());
    asked.ask(state, out)
}

/// Whether the server answers.
fn check_connection<R: Wait + RandomSource + AllocGlobal, L: Link + Drop>(
    asked: Asked<'_, '_, R, L>,
    out: &mut String,
) -> Left<L> {
    let state = asked.client.check_connection();
    asked.ask(state, out)
}

/// Whether the session is of a kind.
fn session_check<R: Wait + RandomSource + AllocGlobal, L: Link + Drop>(
    asked: Asked<'_, '_, R, L>,
    out: &mut String,
) -> Left<L> {
    let state = asked.client.session_check(attrs_of(asked.text()));
    asked.ask(state, out)
}

/// A statement is prepared.
pub(crate) fn prepare<R: Wait + RandomSource + AllocGlobal, L: Link + Drop>(
    asked: Asked<'_, '_, R, L>,
    out: &mut String,
) -> Left<L> {
    let state = asked.client.prepare(asked.text());
    asked.ask(state, out)
}

/// A statement is prepared, with types of its parameters.
fn prepare_typed<R: Wait + RandomSource + AllocGlobal, L: Link + Drop>(
    asked: Asked<'_, '_, R, L>,
    out: &mut String,
) -> Left<L> {
    let state = asked.client.prepare_typed(asked.text(), asked.types());
    asked.ask(state, out)
}

/// A call without values, by its name.
pub(crate) fn by_name<R: Wait + RandomSource + AllocGlobal, L: Link + Drop>(
    asked: Asked<'_, '_, R, L>,
    out: &mut String,
) -> Left<L> {
    match asked.case.call {
        "simple_query" => simple_query(asked, out),
        "batch_execute" => batch_execute(asked, out),
        "check_connection" => check_connection(asked, out),
        "session_check" => session_check(asked, out),
        "prepare" => prepare(asked, out),
        _ => prepare_typed(asked, out),
    }
}
