//! The states of commands, as they begin.

ghost use Rattle.std.specs.Prelude.{◌≡◌, Err, IfOk};
ghost use Rattle.pg_client.specs.Done as done;
ghost use Rattle.pg_client.specs.Simple as simple;
ghost use Rattle.pg_types.specs.declared.error.Error.TheVariants.{Missing};
ghost use Rattle.pg_core.specs.Lookups as lookups;
ghost use Rattle.pg_query.specs.Dialogue.{Answer};
ghost use Rattle.pg_table.specs.Mapped.{mapped};
ghost use Rattle.pg_table.specs.Table.{in_done, in_messages, in_statement, says_close, says_execute, says_execute_typed, says_of, says_query, says_query_raw, says_query_scalar, says_query_typed};
ghost use Rattle.pg_table.specs.Targets.{IsFound};

use crate::own::Own;
use crate::slots::Slots;
use crate::state::AnyState;
use crate::transacting::{abandon, begin_transaction, commit, rollback, savepoint};
use pg_client::{batch_execute_state, check_connection_state, simple_query_state};
use pg_core::ParamTypes;
use pg_execute::{HowMany, Target};
use pg_query::Polled;
use pg_states::{
    ClearState, close_owned_state, execute_state, executed_by_oids, first_rows_state,
    missing_state, prepare_state, queried_by_oids, query_scalar_state, query_state,
};
use pg_text::{Command, CommandTarget, TypedText};
use pg_types::{List, Oid, OutOfMemory, Sql, Text, Value};
use std::alloc::Global;

/// The state of a command, by what its script keeps. OutOfMemory comes where there is no room for it.
pub fn begin<'a>(
    alloc: Global,
    command: &'a Command,
    own: &Own,
) -> Result<AnyState<'a>, OutOfMemory>
    ensures live { IfOk result ⟦<AnyState<'a> as Polled>⟧.is_live }
    ensures asks { IfOk result (λ state. (⟦<AnyState<'a> as Polled>⟧.place state).dialogue ≡ says_of own.now command.now) }
{
    let slots = &own.slots;
    let levels = &own.levels;
    match command {
        Command::Simple { text, take } => simple_query(alloc, text, *take),
        Command::Batch { text } => batch_execute(alloc, text),
        Command::Check => check_connection(alloc),
        Command::Prepare { text, types, .. } => prepare(alloc, text, types),
        Command::Clear => clear(alloc),
        Command::Query { target, values } => query(alloc, HowMany::Any, target, values, slots),
        Command::QueryOne { target, values } => query(alloc, HowMany::One, target, values, slots),
        Command::QueryOpt { target, values } => {
            query(alloc, HowMany::AtMostOne, target, values, slots)
        }
        Command::QueryRaw {
            target,
            take,
            values,
        } => query_raw(alloc, target, *take, values, slots),
        Command::QueryScalar { target, values } => {
            query_scalar(alloc, HowMany::Any, target, values, slots)
        }
        Command::QueryOneScalar { target, values } => {
            query_scalar(alloc, HowMany::One, target, values, slots)
        }
        Command::QueryOptScalar { target, values } => {
            query_scalar(alloc, HowMany::AtMostOne, target, values, slots)
        }
        Command::Execute { target, values } => execute(alloc, target, values, slots),
        Command::QueryTyped(typed) => query_typed(alloc, HowMany::Any, typed),
        Command::QueryTypedOne(typed) => query_typed(alloc, HowMany::One, typed),
        Command::QueryTypedOpt(typed) => query_typed(alloc, HowMany::AtMostOne, typed),
        Command::ExecuteTyped(typed) => execute_typed(alloc, typed),
        Command::Close { slot } => close(alloc, *slot, slots),
        Command::Begin(modes) => begin_transaction(alloc, *modes),
        Command::Savepoint { name } => savepoint(alloc, name, levels),
        Command::Commit => commit(alloc, levels),
        Command::Rollback => rollback(alloc, levels),
        Command::Abandon => abandon(alloc, levels),
    }
}

/// The state of a simple query.
fn simple_query<'a>(
    alloc: Global,
    text: &'a Text,
    take: Option<u64>,
) -> Result<AnyState<'a>, OutOfMemory>
    ensures live { IfOk result ⟦<AnyState<'a> as Polled>⟧.is_live }
    ensures asks { IfOk result (λ state. (⟦<AnyState<'a> as Polled>⟧.place state).dialogue ≡ mapped in_messages (simple.simple_query text.now take)) }
{
    let state = boxed(
        alloc,
        simple_query_state(Sql::Borrowed(text.as_str()), take),
    )?;
    Ok(AnyState::Simple(state))
}

/// The state of a batch.
fn batch_execute<'a>(alloc: Global, text: &'a Text) -> Result<AnyState<'a>, OutOfMemory>
    ensures live { IfOk result ⟦<AnyState<'a> as Polled>⟧.is_live }
    ensures asks { IfOk result (λ state. (⟦<AnyState<'a> as Polled>⟧.place state).dialogue ≡ mapped in_done (done.batch_execute text.now)) }
{
    let state = boxed(alloc, batch_execute_state(Sql::Borrowed(text.as_str())))?;
    Ok(AnyState::Batch(state))
}

/// The state of a check.
fn check_connection<'a>(alloc: Global) -> Result<AnyState<'a>, OutOfMemory>
    ensures live { IfOk result ⟦<AnyState<'a> as Polled>⟧.is_live }
    ensures asks { IfOk result (λ state. (⟦<AnyState<'a> as Polled>⟧.place state).dialogue ≡ mapped in_done done.check_connection) }
{
    let state = boxed(alloc, check_connection_state())?;
    Ok(AnyState::Check(state))
}

/// The state of a prepare.
fn prepare<'a>(
    alloc: Global,
    text: &'a Text,
    types: &'a List<Oid>,
) -> Result<AnyState<'a>, OutOfMemory>
    ensures live { IfOk result ⟦<AnyState<'a> as Polled>⟧.is_live }
    ensures asks { IfOk result (λ state. (⟦<AnyState<'a> as Polled>⟧.place state).dialogue ≡ mapped in_statement (lookups.prepare text.now types.now)) }
{
    let text = Sql::Borrowed(text.as_str());
    let types = ParamTypes::Oids(types.as_slice());
    let state = boxed(alloc, prepare_state(text, types))?;
    Ok(AnyState::Prepare(state))
}

/// The state of a clear.
fn clear<'a>(alloc: Global) -> Result<AnyState<'a>, OutOfMemory>
    ensures live { IfOk result ⟦<AnyState<'a> as Polled>⟧.is_live }
    ensures asks { IfOk result (λ state. (⟦<AnyState<'a> as Polled>⟧.place state).dialogue ≡ mapped in_done lookups.clear) }
{
    let state = boxed(alloc, ClearState::new())?;
    Ok(AnyState::Clear(state))
}

/// The state of a query whose rows are the answer.
fn query<'a>(
    alloc: Global,
    how_many: HowMany,
    target: &'a CommandTarget,
    values: &'a List<Value>,
    slots: &Slots,
) -> Result<AnyState<'a>, OutOfMemory>
    ensures live { IfOk result ⟦<AnyState<'a> as Polled>⟧.is_live }
    ensures asks { IfOk result (λ state. (⟦<AnyState<'a> as Polled>⟧.place state).dialogue ≡ says_query how_many slots.now target.now values.now) }
{
    match find(target, slots)? {
        Some(target) => {
            let state = query_state(target, how_many, values.as_slice());
            let state = boxed(alloc, state)?;
            Ok(AnyState::Query(state))
        }
        None => missing(alloc),
    }
}

/// The state of a query whose first rows are the answer.
fn query_raw<'a>(
    alloc: Global,
    target: &'a CommandTarget,
    take: u64,
    values: &'a List<Value>,
    slots: &Slots,
) -> Result<AnyState<'a>, OutOfMemory>
    ensures live { IfOk result ⟦<AnyState<'a> as Polled>⟧.is_live }
    ensures asks { IfOk result (λ state. (⟦<AnyState<'a> as Polled>⟧.place state).dialogue ≡ says_query_raw take slots.now target.now values.now) }
{
    match find(target, slots)? {
        Some(target) => {
            let state = first_rows_state(target, take, values.as_slice());
            let state = boxed(alloc, state)?;
            Ok(AnyState::QueryRaw(state))
        }
        None => missing(alloc),
    }
}

/// The state of a query whose answer is the values of its one column.
fn query_scalar<'a>(
    alloc: Global,
    how_many: HowMany,
    target: &'a CommandTarget,
    values: &'a List<Value>,
    slots: &Slots,
) -> Result<AnyState<'a>, OutOfMemory>
    ensures live { IfOk result ⟦<AnyState<'a> as Polled>⟧.is_live }
    ensures asks { IfOk result (λ state. (⟦<AnyState<'a> as Polled>⟧.place state).dialogue ≡ says_query_scalar how_many slots.now target.now values.now) }
{
    match find(target, slots)? {
        Some(target) => {
            let state = query_scalar_state(target, how_many, values.as_slice());
            let state = boxed(alloc, state)?;
            Ok(AnyState::Scalar(state))
        }
        None => missing(alloc),
    }
}

/// The state of an execution whose answer is how many rows it affected.
fn execute<'a>(
    alloc: Global,
    target: &'a CommandTarget,
    values: &'a List<Value>,
    slots: &Slots,
) -> Result<AnyState<'a>, OutOfMemory>
    ensures live { IfOk result ⟦<AnyState<'a> as Polled>⟧.is_live }
    ensures asks { IfOk result (λ state. (⟦<AnyState<'a> as Polled>⟧.place state).dialogue ≡ says_execute slots.now target.now values.now) }
{
    match find(target, slots)? {
        Some(target) => {
            let state = execute_state(target, values.as_slice());
            let state = boxed(alloc, state)?;
            Ok(AnyState::Execute(state))
        }
        None => missing(alloc),
    }
}

/// The state of a query of a text with values of these types.
fn query_typed<'a>(
    alloc: Global,
    how_many: HowMany,
    typed: &'a TypedText,
) -> Result<AnyState<'a>, OutOfMemory>
    ensures live { IfOk result ⟦<AnyState<'a> as Polled>⟧.is_live }
    ensures asks { IfOk result (λ state. (⟦<AnyState<'a> as Polled>⟧.place state).dialogue ≡ says_query_typed how_many typed.now) }
{
    let text = typed.text.as_str();
    let types = typed.types.as_slice();
    let values = typed.values.as_slice();
    let state = queried_by_oids(how_many, text, types, values);
    let state = boxed(alloc, state)?;
    Ok(AnyState::QueryTyped(state))
}

/// The state of an execution of a text with values of these types.
fn execute_typed<'a>(alloc: Global, typed: &'a TypedText) -> Result<AnyState<'a>, OutOfMemory>
    ensures live { IfOk result ⟦<AnyState<'a> as Polled>⟧.is_live }
    ensures asks { IfOk result (λ state. (⟦<AnyState<'a> as Polled>⟧.place state).dialogue ≡ says_execute_typed typed.now) }
{
    let text = typed.text.as_str();
    let types = typed.types.as_slice();
    let values = typed.values.as_slice();
    let state = executed_by_oids(text, types, values);
    let state = boxed(alloc, state)?;
    Ok(AnyState::ExecuteTyped(state))
}

/// What a command names, by the slots of its script. Nothing where its slot holds nothing.
fn find<'a>(target: &'a CommandTarget, slots: &Slots) -> Result<Option<Target<'a>>, OutOfMemory>
    ensures found { IfOk result (IsFound slots.now target.now) }
{
    match target {
        CommandTarget::Text(text) => Ok(Some(Target::Query(text.as_str()))),
        CommandTarget::Slot(slot) => match slots.get(*slot) {
            Some(statement) => {
                let statement = statement.copy()?;
                Ok(Some(Target::Owned(statement)))
            }
            None => Ok(None),
        },
    }
}

/// The state of a command that closes the statement in a slot.
fn close<'a>(alloc: Global, slot: u64, slots: &Slots) -> Result<AnyState<'a>, OutOfMemory>
    ensures live { IfOk result ⟦<AnyState<'a> as Polled>⟧.is_live }
    ensures asks { IfOk result (λ state. (⟦<AnyState<'a> as Polled>⟧.place state).dialogue ≡ says_close slots.now slot) }
{
    match slots.get(slot) {
        Some(statement) => {
            let statement = statement.copy()?;
            let state = close_owned_state(statement);
            let state = boxed(alloc, state)?;
            Ok(AnyState::Close(state))
        }
        None => missing(alloc),
    }
}

/// The state of a command whose slot holds nothing.
pub(crate) fn missing<'a>(alloc: Global) -> Result<AnyState<'a>, OutOfMemory>
    ensures live { IfOk result ⟦<AnyState<'a> as Polled>⟧.is_live }
    ensures asks { IfOk result (λ state. (⟦<AnyState<'a> as Polled>⟧.place state).dialogue ≡ Answer (Err Missing)) }
{
    let state = boxed(alloc, missing_state())?;
    Ok(AnyState::Missing(state))
}

/// Puts a value on the heap.
pub(crate) fn boxed<T: Drop>(alloc: Global, value: T) -> Result<Box<T>, OutOfMemory>
    ensures { IfOk result (λ boxed. boxed.value ≡ value) }
{
    Ok(Box::new(alloc, value)?)
}
