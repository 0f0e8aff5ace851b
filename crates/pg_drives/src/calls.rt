//! What a case calls.

use crate::asked::{Asked, Left};
use crate::case::{Case, Form, hands_on};
use crate::session::{ask, drive, set};
use crate::{executions, given_up, others, plain, streams, targets, typed};
use futures::task::Poll;
use pg_asking::{Given, open, tell_answer, tell_end, tell_error};
use std::alloc::{AllocError, AllocGlobal};
use std::random::RandomSource;
use std::sync::Wait;
use tokio_postgres::states::SimpleQueryState;
use tokio_postgres::{
    Client, Error, Hub, Line, Link, Opened, Polled, SessionInfo, Stamp, Statement, Target,
};

/// A call of a target, by its name.
fn tell_target<R: Wait + RandomSource + AllocGlobal, L: Link + Drop>(
    target: Target<'_>,
    asked: Asked<'_, '_, R, L>,
    out: &mut String,
) -> Left<L> {
    if hands_on(asked.case.call) {
        return streams::by_name(target, asked, out);
    }
    if asked.case.setting.by_hand {
        return given_up::by_name(target, asked, out);
    }
    targets::by_name(target, asked, out)
}

/// A statement is closed.
fn tell_close<R: Wait + RandomSource + AllocGlobal, L: Link + Drop>(
    statement: &Statement,
    asked: Asked<'_, '_, R, L>,
    out: &mut String,
) -> Left<L> {
    let state = asked.client.close(statement);
    asked.ask(state, out)
}

/// A call of a statement that was prepared.
fn tell_statement<R: Wait + RandomSource + AllocGlobal, L: Link + Drop>(
    statement: Statement,
    asked: Asked<'_, '_, R, L>,
    out: &mut String,
) -> Left<L> {
    let mut asked = asked;
    let case = asked.case;
    set(&mut asked.line, &case.setting);
    match case.setting.form {
        Form::Owned => tell_target(Target::Owned(statement), asked, out),
        _ if case.call == "close" => tell_close(&statement, asked, out),
        _ => tell_target(Target::Statement(&statement), asked, out),
    }
}

/// Drives a prepare of the case's text to its answer.
fn prepared<R: Wait + RandomSource + AllocGlobal, L: Link + Drop>(
    rt: &R,
    client: &Client,
    case: &Case<'_>,
    line: Line<L, Hub>,
    out: &mut String,
) -> Result<(Line<L, Hub>, Result<Statement, Error>), AllocError> {
    drive(
        rt,
        client.prepare(case.text),
        Stamp::new(0, 0, 0),
        line,
        out,
    )
}

/// Prepares a statement, and makes a call of it.
fn tell_prepared<R: Wait + RandomSource + AllocGlobal, L: Link + Drop>(
    rt: &R,
    client: &Client,
    case: &Case<'_>,
    given: &Given,
    line: Line<L, Hub>,
    out: &mut String,
) -> Left<L> {
    let (line, answer) = prepared(rt, client, case, line, out)?;
    match answer {
        Ok(statement) => {
            let asked = Asked {
                rt,
                client,
                case,
                given,
                line,
            };
            tell_statement(statement, asked, out)
        }
        Err(error) => {
            tell_error(&error, out)?;
            Ok(line)
        }
    }
}

/// The word at a place, if there is one there.
fn bytes_at(words: &[Vec<u8>], place: usize) -> &[u8] {
    match words.get(place) {
        Some(word) => word.as_slice(),
        None => &[],
    }
}

/// A call that is done at once.
fn tell_other<R: Wait + RandomSource + AllocGlobal, L: Link + Drop>(
    asked: Asked<'_, '_, R, L>,
    out: &mut String,
) -> Left<L> {
    let (client, case, alloc) = (asked.client, asked.case, asked.rt.alloc());
    if case.call == "clear_type_cache" {
        return others::tell_clearing(asked, out);
    }
    let mut line = asked.line;
    match case.call {
        "cancel_token" => others::tell_cancel(alloc, client.cancel_token(), out)?,
        "is_closed" => others::tell_closed(client, &mut line, out)?,
        _ => {
            let count = case.text.parse::<u64>().unwrap_or(0);
            executions::tell(alloc, client, count, bytes_at(case.values, 0), out)?
        }
    }
    Ok(line)
}

/// A call of a text, by its name.
fn tell_text<R: Wait + RandomSource + AllocGlobal, L: Link + Drop>(
    asked: Asked<'_, '_, R, L>,
    out: &mut String,
) -> Left<L> {
    match asked.case.call {
        "cancel_token" | "is_closed" | "clear_type_cache" | "executions" => {
            tell_other(asked, out)
        }
        "query_typed" | "query_typed_one" | "query_typed_opt" | "execute_typed" => {
            typed::by_name(asked, out)
        }
        "simple_query"
        | "batch_execute"
        | "check_connection"
        | "session_check"
        | "prepare"
        | "prepare_typed"
            if !asked.case.setting.by_hand => { plain::by_name(asked, out) }
        _ => {
            let target = Target::Query(asked.text());
            tell_target(target, asked, out)
        }
    }
}

/// Makes the call of a case.
fn tell_call<R: Wait + RandomSource + AllocGlobal, L: Link + Drop>(
    rt: &R,
    client: &Client,
    case: &Case<'_>,
    line: Line<L, Hub>,
    out: &mut String,
) -> Left<L> {
    let given = &case.given(rt.alloc())?;
    if case.setting.form != Form::Query {
        return tell_prepared(rt, client, case, given, line, out);
    }
    let mut line = line;
    set(&mut line, &case.setting);
    let asked = Asked {
        rt,
        client,
        case,
        given,
        line,
    };
    tell_text(asked, out)
}

/// Drives what another client asked first to its answer.
fn tell_beside<'a, R: Wait + RandomSource + AllocGlobal, L: Link + Drop>(
    rt: &R,
    other: SimpleQueryState<'a>,
    stamp: Stamp,
    line: Line<L, Hub>,
    out: &mut String,
) -> Left<L>
    requires { ⟦<SimpleQueryState<'a> as Polled>⟧.is_live other }
{
    out.push_str(" beside")?;
    ask(rt, other, stamp, line, out)
}

/// Makes the call of a case, behind what another client asks.
fn tell_behind<'a, R: Wait + RandomSource + AllocGlobal, L: Link + Drop>(
    rt: &R,
    client: &Client,
    case: &Case<'_>,
    other: SimpleQueryState<'a>,
    stamp: Stamp,
    line: Line<L, Hub>,
    out: &mut String,
) -> Left<L>
    requires { ⟦<SimpleQueryState<'a> as Polled>⟧.is_live other }
{
    let mut other = other;
    let mut line = line;
    match other.poll(rt.alloc(), &mut line.hub, stamp) {
        Poll::Ready(answer) => {
            tell_answer(rt.alloc(), answer, out)?;
            Ok(line)
        }
        Poll::Pending => {
            let line = tell_call(rt, client, case, line, out)?;
            tell_beside(rt, other, stamp, line, out)
        }
    }
}

/// Runs simple queries of two clients beside one another.
fn tell_run<R: Wait + RandomSource + AllocGlobal, L: Link + Drop>(
    rt: &R,
    case: &Case<'_>,
    client: &Client,
    beside: &Client,
    text: &str,
    line: Line<L, Hub>,
    out: &mut String,
) -> Left<L> {
    let mut line = line;
    set(&mut line, &case.setting);
    let stamp = Stamp::new(beside.owner(), 0, 0);
    let (query, other) = (client.simple_query(case.text), beside.simple_query(text));
    others::run_both(rt, query, other, stamp, &mut line, out)?;
    Ok(line)
}

/// Makes the call of a case, and what another client asks beside it.
fn tell_both<R: Wait + RandomSource + AllocGlobal, L: Link + Drop>(
    rt: &R,
    info: &SessionInfo,
    case: &Case<'_>,
    line: Line<L, Hub>,
    out: &mut String,
) -> Left<L> {
    let client = Client::new(0, info);
    let Some(text) = case.setting.beside else {
        return tell_call(rt, &client, case, line, out);
    };
    let beside = Client::new(1, info);
    if case.call == "run" {
        return tell_run(rt, case, &client, &beside, text, line, out);
    }
    let stamp = Stamp::new(beside.owner(), 0, 0);
    tell_behind(
        rt,
        &client,
        case,
        beside.simple_query(text),
        stamp,
        line,
        out,
    )
}

/// Opens a connection, makes the call of a case, ends the connection, and tells what the call answered and which frames the server
/// got.
pub(crate) fn tell<R: Wait + RandomSource + AllocGlobal>(
    rt: &R,
    words: &[Vec<u8>],
    out: &mut String,
) -> Result<(), AllocError> {
    let case = Case::read(words);
    let opened = match open(rt, case.plan, case.setting.ends) {
        Ok(opened) => opened,
        Err(error) => return tell_error(&error, out),
    };
    let Opened {
        info,
        sent,
        connection,
    } = opened;
    let first = if case.setting.spent { u32::MAX } else { 0 };
    let line = Line::new(rt.alloc(), connection, Hub::new(rt.alloc(), first, 0));
    let mut line = tell_both(rt, &info, &case, line, out)?;
    let _ = line.close(rt, rt.alloc());
    tell_end(&line, sent.as_slice().len(), out)
}
