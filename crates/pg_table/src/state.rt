//! The states of all commands in one, and what they answer.

ghost use Rattle.std.specs.Prelude.{◌≡◌, Ok, IfOk, OnOk};
ghost use Rattle.pg_table.specs.Table.{kept_answer, levels_behind, levels_behind_begin, levels_behind_savepoint, own_behind, slots_behind, slots_behind_prepare};

use crate::abandons::AbandonState;
use crate::levels::Levels;
use crate::own::Own;
use crate::slots::Slots;
use crate::telling::{
    InCount, InDone, InMessages, InRows, InScalars, InStatement, given_up, polled,
};
use crate::transacting::BeginState;
use futures::task::Poll;
use pg_client::{BatchExecuteState, CheckConnectionState, SimpleQueryState};
use pg_desk::{Desk, Stamp, Statement};
use pg_errors::Error;
use pg_execute::ResultSet;
use pg_query::{Polled, SimpleMessage};
use pg_states::{
    ClearState, CloseState, ExecuteState, ExecutedTyped, FirstRowsState, MissingState,
    PrepareState, QueriedTyped, QueryScalarState, QueryState,
};
use pg_text::{Answer, Command};
use pg_types::{List, OutOfMemory, Text, Value};
use std::alloc::Global;

/// The state of a command that runs. It stands on the heap, so that what holds it is small.
pub enum AnyState<'a> {
    Simple(Box<SimpleQueryState<'a>>),
    Batch(Box<BatchExecuteState<'a>>),
    Check(Box<CheckConnectionState>),
    Prepare(Box<PrepareState<'a>>),
    Clear(Box<ClearState>),
    Query(Box<QueryState<'a, &'a [Value]>>),
    QueryRaw(Box<FirstRowsState<'a, &'a [Value]>>),
    Scalar(Box<QueryScalarState<'a, Value, &'a [Value]>>),
    Execute(Box<ExecuteState<'a, &'a [Value]>>),
    QueryTyped(Box<QueriedTyped<'a, &'a [Value]>>),
    ExecuteTyped(Box<ExecutedTyped<'a, &'a [Value]>>),
    Close(Box<CloseState<'a>>),
    Begin(Box<BeginState<'a>>),
    Abandon(Box<AbandonState>),
    Missing(Box<MissingState>),
}

impl<'a> Drop for AnyState<'a> {
    fn drop(self) {
        match self {
            AnyState::Simple(_it) => {}
            AnyState::Batch(_it) => {}
            AnyState::Check(_it) => {}
            AnyState::Prepare(_it) => {}
            AnyState::Clear(_it) => {}
            AnyState::Query(_it) => {}
            AnyState::QueryRaw(_it) => {}
            AnyState::Scalar(_it) => {}
            AnyState::Execute(_it) => {}
            AnyState::QueryTyped(_it) => {}
            AnyState::ExecuteTyped(_it) => {}
            AnyState::Close(_it) => {}
            AnyState::Begin(_it) => {}
            AnyState::Abandon(_it) => {}
            AnyState::Missing(_it) => {}
        }
    }
}

/// What a state answers.
#[derive(Drop)]
pub enum AnyAnswer {
    Messages(List<SimpleMessage>),
    Done,
    Statement(Statement),
    Rows(ResultSet),
    Scalars(List<Value>),
    Count(u64),
}

/// Keeps what the script of a command keeps of its answer, and gives the answer that its report has. OutOfMemory comes where there
/// is no room for it.
pub fn keep(
    own: &mut Own,
    command: &Command,
    answer: Result<AnyAnswer, Error>,
) -> Result<Answer, OutOfMemory>
    ensures answer { IfOk result (λ told. told ≡ kept_answer answer) }
    ensures own { OnOk result (own.new ≡ own_behind own.old command.now answer) }
{
    match keep_own(own, command, &answer) {
        Ok(()) => Ok(told(answer)),
        Err(_) => {
            drop(answer);
            Err(OutOfMemory)
        }
    }
}

/// Keeps what a script keeps of the answer of its command.
fn keep_own(
    own: &mut Own,
    command: &Command,
    answer: &Result<AnyAnswer, Error>,
) -> Result<(), OutOfMemory>
    ensures { OnOk result (own.new ≡ own_behind own.old command.now answer.now) }
{
    keep_slots(&mut own.slots, command, answer)?;
    keep_levels(&mut own.levels, command, answer)
}

/// Keeps what the slots of a script keep of the answer of its command.
fn keep_slots(
    slots: &mut Slots,
    command: &Command,
    answer: &Result<AnyAnswer, Error>,
) -> Result<(), OutOfMemory>
    ensures { OnOk result (slots.new ≡ slots_behind slots.old command.now answer.now) }
{
    match command {
        Command::Prepare { slot, .. } => keep_prepared(slots, *slot, answer),
        Command::Close { slot } => {
            slots.empty(*slot);
            Ok(())
        }
        _ => Ok(()),
    }
}

/// Keeps the statement that a prepare answered in its slot.
fn keep_prepared(
    slots: &mut Slots,
    slot: u64,
    answer: &Result<AnyAnswer, Error>,
) -> Result<(), OutOfMemory>
    ensures kept { OnOk result (slots.new ≡ slots_behind_prepare slots.old slot answer.now) }
{
    if let Ok(AnyAnswer::Statement(statement)) = answer {
        slots.put(slot, statement.copy()?)?;
    }
    Ok(())
}

/// Keeps what the levels of a script keep of the answer of its command.
fn keep_levels(
    levels: &mut Levels,
    command: &Command,
    answer: &Result<AnyAnswer, Error>,
) -> Result<(), OutOfMemory>
    ensures { OnOk result (levels.new ≡ levels_behind levels.old command.now answer.now) }
{
    match command {
        Command::Begin(_) => keep_begun(levels, answer),
        Command::Savepoint { name } => keep_savepoint(levels, name, answer),
        Command::Commit | Command::Rollback | Command::Abandon => {
            levels.end();
            Ok(())
        }
        _ => Ok(()),
    }
}

/// Keeps that a transaction was begun.
fn keep_begun(levels: &mut Levels, answer: &Result<AnyAnswer, Error>) -> Result<(), OutOfMemory>
    ensures { OnOk result (levels.new ≡ levels_behind_begin levels.old answer.now) }
{
    match answer {
        Ok(_) => levels.begin(),
        Err(_) => Ok(()),
    }
}

/// Keeps that a savepoint was opened.
fn keep_savepoint(
    levels: &mut Levels,
    name: &Option<Text>,
    answer: &Result<AnyAnswer, Error>,
) -> Result<(), OutOfMemory>
    ensures { OnOk result (levels.new ≡ levels_behind_savepoint levels.old name.now answer.now) }
{
    match answer {
        Ok(_) => levels.open_savepoint(name),
        Err(_) => Ok(()),
    }
}

/// The answer that is kept of what a state answered.
fn told(answer: Result<AnyAnswer, Error>) -> Answer
    ensures { result ≡ kept_answer answer }
{
    match answer {
        Ok(AnyAnswer::Messages(messages)) => Answer::Messages(messages),
        Ok(AnyAnswer::Done) => Answer::Done,
        Ok(AnyAnswer::Statement(statement)) => Answer::Statement(statement),
        Ok(AnyAnswer::Rows(set)) => told_rows(set),
        Ok(AnyAnswer::Scalars(values)) => Answer::Scalars(values),
        Ok(AnyAnswer::Count(count)) => Answer::Count(count),
        Err(error) => Answer::Failed(error),
    }
}

/// Rows as an answer.
fn told_rows(set: ResultSet) -> Answer
    ensures { result ≡ kept_answer (Ok (AnyAnswer.Rows set)) }
{
    let affected = set.affected();
    let (statement, rows) = set.into_parts();
    Answer::Rows {
        statement,
        rows,
        affected,
    }
}

impl<'a> Polled for AnyState<'a> {
    ghost use Rattle.pg_query.specs.Meaning.{Place};
    ghost use Rattle.pg_table.specs.Mapped.{mapped_place};
    ghost use Rattle.pg_table.specs.Table.{in_count, in_done, in_messages, in_rows, in_scalars, in_statement};
    ghost use Rattle.pg_table.specs.declared.state.AnyAnswer as any_answer;
    ghost use Rattle.pg_table.specs.declared.state.AnyState.TheVariants.{Simple, Batch, Check, Prepare, Clear, Query, QueryRaw, Scalar, Execute, QueryTyped, ExecuteTyped, Close, Begin, Abandon, Missing};

    type Output = AnyAnswer;

    ghost place = { λ s. elim s as (λ _. Place any_answer.AnyAnswer) [
      | Simple state ↦ mapped_place in_messages (⟦<SimpleQueryState<'a> as Polled>⟧.place state.value)
      | Batch state ↦ mapped_place in_done (⟦<BatchExecuteState<'a> as Polled>⟧.place state.value)
      | Check state ↦ mapped_place in_done (⟦<CheckConnectionState as Polled>⟧.place state.value)
      | Prepare state ↦ mapped_place in_statement (⟦<PrepareState<'a> as Polled>⟧.place state.value)
      | Clear state ↦ mapped_place in_done (⟦<ClearState as Polled>⟧.place state.value)
      | Query state ↦ mapped_place in_rows (⟦<QueryState<'a, &'a [Value]> as Polled>⟧.place state.value)
      | QueryRaw state ↦ mapped_place in_rows (⟦<FirstRowsState<'a, &'a [Value]> as Polled>⟧.place state.value)
      | Scalar state ↦ mapped_place in_scalars (⟦<QueryScalarState<'a, Value, &'a [Value]> as Polled>⟧.place state.value)
      | Execute state ↦ mapped_place in_count (⟦<ExecuteState<'a, &'a [Value]> as Polled>⟧.place state.value)
      | QueryTyped state ↦ mapped_place in_rows (⟦<QueriedTyped<'a, &'a [Value]> as Polled>⟧.place state.value)
      | ExecuteTyped state ↦ mapped_place in_count (⟦<ExecutedTyped<'a, &'a [Value]> as Polled>⟧.place state.value)
      | Close state ↦ mapped_place in_done (⟦<CloseState<'a> as Polled>⟧.place state.value)
      | Begin state ↦ mapped_place in_done (⟦<BeginState<'a> as Polled>⟧.place state.value)
      | Abandon state ↦ mapped_place in_done (⟦<AbandonState as Polled>⟧.place state.value)
      | Missing state ↦ mapped_place in_done (⟦<MissingState as Polled>⟧.place state.value)
    ] };

    ghost is_live = { λ s. elim s as (λ _. Type 0) [
      | Simple state ↦ ⟦<SimpleQueryState<'a> as Polled>⟧.is_live state.value
      | Batch state ↦ ⟦<BatchExecuteState<'a> as Polled>⟧.is_live state.value
      | Check state ↦ ⟦<CheckConnectionState as Polled>⟧.is_live state.value
      | Prepare state ↦ ⟦<PrepareState<'a> as Polled>⟧.is_live state.value
      | Clear state ↦ ⟦<ClearState as Polled>⟧.is_live state.value
      | Query state ↦ ⟦<QueryState<'a, &'a [Value]> as Polled>⟧.is_live state.value
      | QueryRaw state ↦ ⟦<FirstRowsState<'a, &'a [Value]> as Polled>⟧.is_live state.value
      | Scalar state ↦ ⟦<QueryScalarState<'a, Value, &'a [Value]> as Polled>⟧.is_live state.value
      | Execute state ↦ ⟦<ExecuteState<'a, &'a [Value]> as Polled>⟧.is_live state.value
      | QueryTyped state ↦ ⟦<QueriedTyped<'a, &'a [Value]> as Polled>⟧.is_live state.value
      | ExecuteTyped state ↦ ⟦<ExecutedTyped<'a, &'a [Value]> as Polled>⟧.is_live state.value
      | Close state ↦ ⟦<CloseState<'a> as Polled>⟧.is_live state.value
      | Begin state ↦ ⟦<BeginState<'a> as Polled>⟧.is_live state.value
      | Abandon state ↦ ⟦<AbandonState as Polled>⟧.is_live state.value
      | Missing state ↦ ⟦<MissingState as Polled>⟧.is_live state.value
    ] };

    fn poll<D: Desk>(
        &mut self,
        alloc: Global,
        desk: &mut D,
        stamp: Stamp,
    ) -> Poll<Result<AnyAnswer, Error>> {
        match self {
            AnyState::Simple(state) => polled(state, InMessages, alloc, desk, stamp),
            AnyState::Batch(state) => polled(state, InDone, alloc, desk, stamp),
            AnyState::Check(state) => polled(state, InDone, alloc, desk, stamp),
            AnyState::Prepare(state) => polled(state, InStatement, alloc, desk, stamp),
            AnyState::Clear(state) => polled(state, InDone, alloc, desk, stamp),
            AnyState::Query(state) => polled(state, InRows, alloc, desk, stamp),
            AnyState::QueryRaw(state) => polled(state, InRows, alloc, desk, stamp),
            AnyState::Scalar(state) => polled(state, InScalars, alloc, desk, stamp),
            AnyState::Execute(state) => polled(state, InCount, alloc, desk, stamp),
            AnyState::QueryTyped(state) => polled(state, InRows, alloc, desk, stamp),
            AnyState::ExecuteTyped(state) => polled(state, InCount, alloc, desk, stamp),
            AnyState::Close(state) => polled(state, InDone, alloc, desk, stamp),
            AnyState::Begin(state) => polled(state, InDone, alloc, desk, stamp),
            AnyState::Abandon(state) => polled(state, InDone, alloc, desk, stamp),
            AnyState::Missing(state) => polled(state, InDone, alloc, desk, stamp),
        }
    }

    fn hang_up<D: Desk>(self, alloc: Global, desk: &mut D, stamp: Stamp) -> Result<(), Error> {
        match self {
            AnyState::Simple(state) => given_up(state, InMessages, alloc, desk, stamp),
            AnyState::Batch(state) => given_up(state, InDone, alloc, desk, stamp),
            AnyState::Check(state) => given_up(state, InDone, alloc, desk, stamp),
            AnyState::Prepare(state) => given_up(state, InStatement, alloc, desk, stamp),
            AnyState::Clear(state) => given_up(state, InDone, alloc, desk, stamp),
            AnyState::Query(state) => given_up(state, InRows, alloc, desk, stamp),
            AnyState::QueryRaw(state) => given_up(state, InRows, alloc, desk, stamp),
            AnyState::Scalar(state) => given_up(state, InScalars, alloc, desk, stamp),
            AnyState::Execute(state) => given_up(state, InCount, alloc, desk, stamp),
            AnyState::QueryTyped(state) => given_up(state, InRows, alloc, desk, stamp),
            AnyState::ExecuteTyped(state) => given_up(state, InCount, alloc, desk, stamp),
            AnyState::Close(state) => given_up(state, InDone, alloc, desk, stamp),
            AnyState::Begin(state) => given_up(state, InDone, alloc, desk, stamp),
            AnyState::Abandon(state) => given_up(state, InDone, alloc, desk, stamp),
            AnyState::Missing(state) => given_up(state, InDone, alloc, desk, stamp),
        }
    }
}
