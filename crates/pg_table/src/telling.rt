//! States whose answers are told among those of all commands.

ghost use Rattle.std.specs.Prelude.{◌≡◌};
ghost use Rattle.pg_table.specs.declared.state.AnyAnswer.{AnyAnswer};
ghost use Rattle.pg_query.specs.Meaning.{GivesUp, GoesToAnswer, MatchPoll, Pauses};
ghost use Rattle.pg_table.specs.Mapped.{mapped_place};
ghost use Rattle.pg_table.specs.Table.{in_count, in_done, in_messages, in_rows, in_scalars, in_statement};

use crate::state::AnyAnswer;
use futures::task::Poll;
use pg_desk::{Desk, Stamp, Statement};
use pg_errors::Error;
use pg_execute::ResultSet;
use pg_query::{Polled, SimpleMessage};
use pg_types::{List, Value};
use std::alloc::Global;

/// How an answer is told among those of all commands.
pub(crate) trait Tells: Drop {
    type Input;

    ghost tells: { Self → Self.Input → AnyAnswer };

    /// The answer, told so.
    fn tell(self, value: Self::Input) -> AnyAnswer
        ensures { result ≡ tells self value };
}

/// The answer of a simple query.
#[derive(Drop)]
pub(crate) struct InMessages;

impl Tells for InMessages {
    type Input = List<SimpleMessage>;

    ghost tells = { λ _ messages. in_messages messages };

    fn tell(self, messages: List<SimpleMessage>) -> AnyAnswer {
        AnyAnswer::Messages(messages)
    }
}

/// The answer of a command that is only done.
#[derive(Drop)]
pub(crate) struct InDone;

impl Tells for InDone {
    type Input = ();

    ghost tells = { λ _ x. in_done x };

    fn tell(self, _done: ()) -> AnyAnswer {
        AnyAnswer::Done
    }
}

/// The answer of a command that prepares.
#[derive(Drop)]
pub(crate) struct InStatement;

impl Tells for InStatement {
    type Input = Statement;

    ghost tells = { λ _ statement. in_statement statement };

    fn tell(self, statement: Statement) -> AnyAnswer {
        AnyAnswer::Statement(statement)
    }
}

/// The answer of a query.
#[derive(Drop)]
pub(crate) struct InRows;

impl Tells for InRows {
    type Input = ResultSet;

    ghost tells = { λ _ set. in_rows set };

    fn tell(self, set: ResultSet) -> AnyAnswer {
        AnyAnswer::Rows(set)
    }
}

/// The answer of a query of one column.
#[derive(Drop)]
pub(crate) struct InScalars;

impl Tells for InScalars {
    type Input = List<Value>;

    ghost tells = { λ _ values. in_scalars values };

    fn tell(self, values: List<Value>) -> AnyAnswer {
        AnyAnswer::Scalars(values)
    }
}

/// The answer of an execution.
#[derive(Drop)]
pub(crate) struct InCount;

impl Tells for InCount {
    type Input = u64;

    ghost tells = { λ _ n. in_count n };

    fn tell(self, count: u64) -> AnyAnswer {
        AnyAnswer::Count(count)
    }
}

/// Polls a state, and tells its answer so.
pub(crate) fn polled<S: Polled, M: Tells<Input = S::Output>, D: Desk>(
    state: &mut Box<S>,
    tells: M,
    alloc: Global,
    desk: &mut D,
    stamp: Stamp,
) -> Poll<Result<AnyAnswer, Error>>
    requires { S.is_live state.old.value }
    ensures { MatchPoll result
        (λ r. GoesToAnswer D.becomes stamp desk.old (mapped_place (M.tells tells) (S.place state.old.value)) desk.new r)
        (Pauses D.becomes stamp desk.old (mapped_place (M.tells tells) (S.place state.old.value)) desk.new (mapped_place (M.tells tells) (S.place state.new.value)) × S.is_live state.new.value) }
{
    match state.poll(alloc, desk, stamp) {
        Poll::Ready(Ok(value)) => Poll::Ready(Ok(tells.tell(value))),
        Poll::Ready(Err(error)) => Poll::Ready(Err(error)),
        Poll::Pending => Poll::Pending,
    }
}

/// Gives a state up whose answer would have been told so.
pub(crate) fn given_up<S: Polled, M: Tells<Input = S::Output>, D: Desk>(
    state: Box<S>,
    tells: M,
    alloc: Global,
    desk: &mut D,
    stamp: Stamp,
) -> Result<(), Error>
    requires { S.is_live state.value }
    ensures { GivesUp D.becomes stamp desk.old (mapped_place (M.tells tells) (S.place state.value)) desk.new result }
{
    drop(tells);
    Box::into_inner(state).hang_up(alloc, desk, stamp)
}
