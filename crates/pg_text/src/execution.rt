//! The commands that execute something with values, by the first words of their lines.

ghost use Rattle.std.specs.Prelude.{◌≡◌};
ghost use Rattle.pg_text.specs.Executions.{FirstWordOf, command_of, execution_word, typed_command_of, typed_word};

use crate::command::{Command, CommandTarget, TypedText};
use pg_types::{List, Value};

/// A command that executes a target with values.
#[derive(Clone, Copy, Drop)]
pub(crate) enum Execution {
    Query,
    QueryOne,
    QueryOpt,
    QueryScalar,
    QueryOneScalar,
    QueryOptScalar,
    Execute,
}

impl Execution {
    /// The command.
    pub(crate) fn command(self, target: CommandTarget, values: List<Value>) -> Command
        ensures { result ≡ command_of self target values }
    {
        match self {
            Execution::Query => Command::Query { target, values },
            Execution::QueryOne => Command::QueryOne { target, values },
            Execution::QueryOpt => Command::QueryOpt { target, values },
            Execution::QueryScalar => Command::QueryScalar { target, values },
            Execution::QueryOneScalar => Command::QueryOneScalar { target, values },
            Execution::QueryOptScalar => Command::QueryOptScalar { target, values },
            Execution::Execute => Command::Execute { target, values },
        }
    }
}

/// What such a line begins with this word.
pub(crate) fn execution_of(word: &[u8]) -> Option<Execution>
    ensures { FirstWordOf execution_word word.now result }
{
    if word == b"query".as_slice() {
        return Some(Execution::Query);
    }
    if word == b"query_one".as_slice() {
        return Some(Execution::QueryOne);
    }
    if word == b"query_opt".as_slice() {
        return Some(Execution::QueryOpt);
    }
    if word == b"query_scalar".as_slice() {
        return Some(Execution::QueryScalar);
    }
    if word == b"query_one_scalar".as_slice() {
        return Some(Execution::QueryOneScalar);
    }
    if word == b"query_opt_scalar".as_slice() {
        return Some(Execution::QueryOptScalar);
    }
    if word == b"execute".as_slice() {
        return Some(Execution::Execute);
    }
    None
}

/// A command that executes a text in one request, with values of types that are given.
#[derive(Clone, Copy, Drop)]
pub(crate) enum TypedExecution {
    Query,
    QueryOne,
    QueryOpt,
    Execute,
}

impl TypedExecution {
    /// The command.
    pub(crate) fn command(self, typed: TypedText) -> Command
        ensures { result ≡ typed_command_of self typed }
    {
        match self {
            TypedExecution::Query => Command::QueryTyped(typed),
            TypedExecution::QueryOne => Command::QueryTypedOne(typed),
            TypedExecution::QueryOpt => Command::QueryTypedOpt(typed),
            TypedExecution::Execute => Command::ExecuteTyped(typed),
        }
    }
}

/// What such a line begins with this word.
pub(crate) fn typed_execution_of(word: &[u8]) -> Option<TypedExecution>
    ensures { FirstWordOf typed_word word.now result }
{
    if word == b"query_typed".as_slice() {
        return Some(TypedExecution::Query);
    }
    if word == b"query_typed_one".as_slice() {
        return Some(TypedExecution::QueryOne);
    }
    if word == b"query_typed_opt".as_slice() {
        return Some(TypedExecution::QueryOpt);
    }
    if word == b"execute_typed".as_slice() {
        return Some(TypedExecution::Execute);
    }
    None
}
