//! The states of commands that open and end the levels of a transaction, as they begin.

ghost use Rattle.std.specs.Prelude.{◌≡◌, IfOk};
ghost use Rattle.pg_client.specs.Done.{batch_execute};
ghost use Rattle.pg_steps.specs.Dialogues.{begin};
ghost use Rattle.pg_table.specs.Mapped.{mapped};
ghost use Rattle.pg_table.specs.Table.{in_done, says_abandon, says_commit, says_rollback, says_savepoint};

use crate::abandons::abandon_state;
use crate::levels::{Levels, commit_text, rollback_text, savepoint_text};
use crate::making::{boxed, missing};
use crate::state::AnyState;
use pg_client::batch_execute_state;
use pg_query::{Command, Polled};
use pg_steps::{Call, Modes, Steps, command};
use pg_types::{OutOfMemory, Sql, Text};
use std::alloc::Global;

/// The state that begins a transaction.
pub type BeginState<'a> = Command<Steps<'a>>;

/// The state that begins a transaction of these modes.
pub(crate) fn begin_transaction<'a>(
    alloc: Global,
    modes: Modes,
) -> Result<AnyState<'a>, OutOfMemory>
    ensures live { IfOk result ⟦<AnyState<'a> as Polled>⟧.is_live }
    ensures asks { IfOk result (λ state. (⟦<AnyState<'a> as Polled>⟧.place state).dialogue ≡ mapped in_done (begin modes)) }
{
    let state = boxed(alloc, command(Call::Begin(modes)))?;
    Ok(AnyState::Begin(state))
}

/// The state that opens a savepoint, of this name or of none.
pub(crate) fn savepoint<'a>(
    alloc: Global,
    name: &Option<Text>,
    levels: &Levels,
) -> Result<AnyState<'a>, OutOfMemory>
    ensures live { IfOk result ⟦<AnyState<'a> as Polled>⟧.is_live }
    ensures asks { IfOk result (λ state. (⟦<AnyState<'a> as Polled>⟧.place state).dialogue ≡ says_savepoint levels.now name.now) }
{
    match levels.innermost() {
        Some(_) => {
            let text = savepoint_text(alloc, levels, name)?;
            executes(alloc, text)
        }
        None => missing(alloc),
    }
}

/// The state that ends the innermost level, and keeps what was done in it.
pub(crate) fn commit<'a>(alloc: Global, levels: &Levels) -> Result<AnyState<'a>, OutOfMemory>
    ensures live { IfOk result ⟦<AnyState<'a> as Polled>⟧.is_live }
    ensures asks { IfOk result (λ state. (⟦<AnyState<'a> as Polled>⟧.place state).dialogue ≡ says_commit levels.now) }
{
    match levels.innermost() {
        Some(level) => {
            let text = commit_text(alloc, level)?;
            executes(alloc, text)
        }
        None => missing(alloc),
    }
}

/// The state that ends the innermost level, and undoes what was done in it.
pub(crate) fn rollback<'a>(alloc: Global, levels: &Levels) -> Result<AnyState<'a>, OutOfMemory>
    ensures live { IfOk result ⟦<AnyState<'a> as Polled>⟧.is_live }
    ensures asks { IfOk result (λ state. (⟦<AnyState<'a> as Polled>⟧.place state).dialogue ≡ says_rollback levels.now) }
{
    match levels.innermost() {
        Some(level) => {
            let text = rollback_text(alloc, level)?;
            executes(alloc, text)
        }
        None => missing(alloc),
    }
}

/// The same, where nobody reads the reply.
pub(crate) fn abandon<'a>(alloc: Global, levels: &Levels) -> Result<AnyState<'a>, OutOfMemory>
    ensures live { IfOk result ⟦<AnyState<'a> as Polled>⟧.is_live }
    ensures asks { IfOk result (λ state. (⟦<AnyState<'a> as Polled>⟧.place state).dialogue ≡ says_abandon levels.now) }
{
    match levels.innermost() {
        Some(level) => {
            let text = rollback_text(alloc, level)?;
            let state = boxed(alloc, abandon_state(text))?;
            Ok(AnyState::Abandon(state))
        }
        None => missing(alloc),
    }
}

/// The state of a batch of this text.
fn executes<'a>(alloc: Global, text: Text) -> Result<AnyState<'a>, OutOfMemory>
    ensures live { IfOk result ⟦<AnyState<'a> as Polled>⟧.is_live }
    ensures asks { IfOk result (λ state. (⟦<AnyState<'a> as Polled>⟧.place state).dialogue ≡ mapped in_done (batch_execute text)) }
{
    let state = boxed(alloc, batch_execute_state(Sql::Owned(text)))?;
    Ok(AnyState::Batch(state))
}
