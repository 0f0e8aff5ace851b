//! Session texts, and what they ask for.

use pg_cases::written;
use pg_text::{Command, CommandTarget, Modes, Session, TextFault, TypedText, session_text};
use pg_types::{List, Oid, Text, Value};
use pg_wire::{Link, LinkRead, LinkWrite, MemoryLink};
use std::alloc::{AllocError, Global};

/// A startup frame without a setting.
const STARTUP: &[u8] = &[0, 0, 0, 8, 0, 3, 0, 0];

fn tell_take(take: Option<u64>, out: &mut String) -> Result<(), AllocError> {
    match take {
        Some(count) => write!(out, " take {count}"),
        None => Ok(()),
    }
}

fn tell_simple(text: &str, take: Option<u64>, out: &mut String) -> Result<(), AllocError> {
    write!(out, " simple {text:?}")?;
    tell_take(take, out)
}

fn tell_prepare(slot: u64, text: &str, types: &[Oid], out: &mut String) -> Result<(), AllocError> {
    write!(out, " prepare {slot} {text:?} {types:?}")
}

fn tell_target(target: &CommandTarget, out: &mut String) -> Result<(), AllocError> {
    match target {
        CommandTarget::Slot(slot) => write!(out, " @{slot}"),
        CommandTarget::Text(text) => write!(out, " {:?}", text.as_str()),
    }
}

fn tell_value(value: &Value, out: &mut String) -> Result<(), AllocError> {
    match value {
        Value::Null => out.push_str(" null"),
        Value::Bool(bool) => write!(out, " {bool}"),
        Value::Int(int) => write!(out, " {int}"),
        Value::Text(text) => write!(out, " {:?}", text.as_str()),
        Value::Bytes(bytes) => {
            out.push_str(" bytes")?;
            written::tell(bytes.as_slice(), out)
        }
    }
}

fn tell_execution(
    name: &str,
    target: &CommandTarget,
    values: &[Value],
    out: &mut String,
) -> Result<(), AllocError> {
    write!(out, " {name}")?;
    tell_target(target, out)?;
    for value in values {
        tell_value(value, out)?;
    }
    Ok(())
}

fn tell_raw(
    target: &CommandTarget,
    take: u64,
    values: &[Value],
    out: &mut String,
) -> Result<(), AllocError> {
    out.push_str(" query_raw")?;
    tell_target(target, out)?;
    write!(out, " take {take}")?;
    for value in values {
        tell_value(value, out)?;
    }
    Ok(())
}

fn tell_typed(name: &str, typed: &TypedText, out: &mut String) -> Result<(), AllocError> {
    write!(
        out,
        " {name} {:?} {:?}",
        typed.text.as_str(),
        typed.types.as_slice()
    )?;
    for value in typed.values.as_slice() {
        tell_value(value, out)?;
    }
    Ok(())
}

fn tell_modes(modes: Modes, out: &mut String) -> Result<(), AllocError> {
    write!(
        out,
        " begin {:?} {:?} {:?}",
        modes.isolation_level, modes.read_only, modes.deferrable
    )
}

fn tell_savepoint(name: &Option<Text>, out: &mut String) -> Result<(), AllocError> {
    match name {
        Some(name) => write!(out, " savepoint {:?}", name.as_str()),
        None => out.push_str(" savepoint"),
    }
}

/// A command that opens or ends a level of a transaction.
fn tell_level(command: &Command, out: &mut String) -> Result<(), AllocError> {
    match command {
        Command::Begin(modes) => tell_modes(*modes, out),
        Command::Savepoint { name } => tell_savepoint(name, out),
        Command::Commit => out.push_str(" commit"),
        Command::Rollback => out.push_str(" rollback"),
        Command::Abandon => out.push_str(" abandon"),
        _ => out.push_str(" another"),
    }
}

/// A command that executes a text in one request.
fn tell_in_one(command: &Command, out: &mut String) -> Result<(), AllocError> {
    match command {
        Command::QueryTyped(typed) => tell_typed("query_typed", typed, out),
        Command::QueryTypedOne(typed) => tell_typed("query_typed_one", typed, out),
        Command::QueryTypedOpt(typed) => tell_typed("query_typed_opt", typed, out),
        Command::ExecuteTyped(typed) => tell_typed("execute_typed", typed, out),
        _ => tell_level(command, out),
    }
}

/// A command that executes something, or closes it.
fn tell_executed(command: &Command, out: &mut String) -> Result<(), AllocError> {
    match command {
        Command::Query { target, values } => {
            tell_execution("query", target, values.as_slice(), out)
        }
        Command::QueryOne { target, values } => {
            tell_execution("query_one", target, values.as_slice(), out)
        }
        Command::QueryOpt { target, values } => {
            tell_execution("query_opt", target, values.as_slice(), out)
        }
        Command::QueryRaw {
            target,
            take,
            values,
        } => tell_raw(target, *take, values.as_slice(), out),
        Command::QueryScalar { target, values } => {
            tell_execution("query_scalar", target, values.as_slice(), out)
        }
        Command::QueryOneScalar { target, values } => {
            tell_execution("query_one_scalar", target, values.as_slice(), out)
        }
        Command::QueryOptScalar { target, values } => {
            tell_execution("query_opt_scalar", target, values.as_slice(), out)
        }
        Command::Execute { target, values } => {
            tell_execution("execute", target, values.as_slice(), out)
        }
        Command::Close { slot } => write!(out, " close @{slot}"),
        _ => tell_in_one(command, out),
    }
}

fn tell_command(command: &Command, out: &mut String) -> Result<(), AllocError> {
    match command {
        Command::Simple { text, take } => tell_simple(text.as_str(), *take, out),
        Command::Batch { text } => write!(out, " batch {:?}", text.as_str()),
        Command::Check => out.push_str(" check"),
        Command::Prepare { slot, text, types } => {
            tell_prepare(*slot, text.as_str(), types.as_slice(), out)
        }
        Command::Clear => out.push_str(" clear"),
        _ => tell_executed(command, out),
    }
}

fn tell_script(script: &List<Command>, out: &mut String) -> Result<(), AllocError> {
    write!(out, " handle of {}:", script.as_slice().len())?;
    for command in script.as_slice() {
        tell_command(command, out)?;
    }
    Ok(())
}

fn tell_scripts(scripts: &[List<Command>], out: &mut String) -> Result<(), AllocError> {
    for script in scripts {
        tell_script(script, out)?;
    }
    Ok(())
}

fn tell_config(session: &Session, out: &mut String) -> Result<(), AllocError> {
    let config = session.config.as_str();
    let turns = session.turns.as_slice();
    write!(
        out,
        " config {config:?} limit {} turns {turns:?}",
        session.max_bytes
    )
}

fn tell_session(session: &Session, out: &mut String) -> Result<(), AllocError> {
    tell_config(session, out)?;
    tell_scripts(session.scripts.as_slice(), out)?;
    out.push_str(" nonce")?;
    written::tell(session.nonce.as_slice(), out)
}

fn tell_fault(fault: TextFault, out: &mut String) -> Result<(), AllocError> {
    match fault {
        TextFault::Line(line) => write!(out, " refused {line}"),
        TextFault::TooLong => out.push_str(" refused length"),
        TextFault::OutOfMemory => Err(AllocError),
    }
}

fn tell_read(read: &Result<Session, TextFault>, out: &mut String) -> Result<(), AllocError> {
    match read {
        Ok(session) => tell_session(session, out),
        Err(fault) => tell_fault(*fault, out),
    }
}

/// What a session text asks for, or the line at which it is refused.
pub(crate) fn tell(alloc: Global, text: &[u8], out: &mut String) -> Result<(), AllocError> {
    let read = session_text(alloc, text);
    tell_read(&read, out)
}

/// What a read of a link gives.
fn tell_piece(link: &mut MemoryLink, out: &mut String) -> Result<(), AllocError> {
    let mut piece = [0; 8];
    match link.read(&mut piece) {
        LinkRead::Got(n) => written::tell(piece.get(..n).unwrap_or(b""), out),
        other => write!(out, " {other:?}"),
    }
}

/// What three reads of a link give that took a startup frame.
fn tell_plan(link: &mut MemoryLink, out: &mut String) -> Result<(), AllocError> {
    if link.write(STARTUP) != LinkWrite::Took(8) {
        return out.push_str(" not taken");
    }
    for _ in 0..3 {
        tell_piece(link, out)?;
    }
    Ok(())
}

fn tell_plan_read(
    read: &mut Result<Session, TextFault>,
    out: &mut String,
) -> Result<(), AllocError> {
    match read {
        Ok(session) => tell_plan(&mut session.link, out),
        Err(fault) => tell_fault(*fault, out),
    }
}

/// What the plan of a session text gives behind the startup frame, in three reads of 8 bytes at most.
pub(crate) fn tell_pieces(alloc: Global, text: &[u8], out: &mut String) -> Result<(), AllocError> {
    let mut read = session_text(alloc, text);
    tell_plan_read(&mut read, out)
}

fn tell_number(read: &Result<Session, TextFault>, out: &mut String) -> Result<(), AllocError> {
    match read {
        Ok(session) => write!(out, " {} scripts", session.scripts.as_slice().len()),
        Err(fault) => tell_fault(*fault, out),
    }
}

fn tell_count(alloc: Global, text: &[u8], out: &mut String) -> Result<(), AllocError> {
    let read = session_text(alloc, text);
    tell_number(&read, out)
}

fn put_handles(count: u32, text: &mut String) -> Result<(), AllocError> {
    text.push_str("config \"a\"\n")?;
    for _ in 0..count {
        text.push_str("handle\n")?;
    }
    Ok(())
}

/// How many scripts are read of a text with one line for the connection string and so many for handles.
pub(crate) fn tell_handles(alloc: Global, count: u32, out: &mut String) -> Result<(), AllocError> {
    let mut text = String::new(alloc);
    put_handles(count, &mut text)?;
    tell_count(alloc, text.as_bytes(), out)
}
