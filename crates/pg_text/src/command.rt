//! Commands of a script, and what they answer.

use pg_desk::Statement;
use pg_errors::Error;
use pg_query::SimpleMessage;
use pg_rows::RowCells;
use pg_steps::Modes;
use pg_types::{List, Oid, Text, Value};

/// What a command executes.
#[derive(Debug, Drop)]
pub enum CommandTarget {
    /// The statement in this slot of the script.
    Slot(u64),
    /// A text, which is prepared first and closed behind.
    Text(Text),
}

/// A text, and values with their types.
#[derive(Debug, Drop)]
pub struct TypedText {
    pub text: Text,
    /// Oids of built-in types: a condition of `Scripts::new`.
    pub types: List<Oid>,
    /// As many values, which is one too. Each is encoded for the type at its place.
    pub values: List<Value>,
}

/// A command of a script.
#[derive(Debug, Drop)]
pub enum Command {
    /// A simple query. With `take`, its reader hangs up after so many messages.
    Simple {
        text: Text,
        take: Option<u64>,
    },
    /// A batch of statements. What they give isn't read.
    Batch {
        text: Text,
    },
    /// A check of the connection.
    Check,
    /// A statement to be prepared with parameters of these types, and kept in this slot of the script.
    Prepare {
        slot: u64,
        text: Text,
        types: List<Oid>,
    },
    /// The types that are cached are forgotten; the statements that look types up stay.
    Clear,
    /// A target is executed with these values, and its rows are the answer.
    Query {
        target: CommandTarget,
        values: List<Value>,
    },
    /// The same, where it must give one row.
    QueryOne {
        target: CommandTarget,
        values: List<Value>,
    },
    /// The same, where it may give one row at most.
    QueryOpt {
        target: CommandTarget,
        values: List<Value>,
    },
    /// The same of its first rows, so many at most; then its reader hangs up.
    QueryRaw {
        target: CommandTarget,
        take: u64,
        values: List<Value>,
    },
    /// The same of all its rows, where they have one column, whose values are the answer.
    QueryScalar {
        target: CommandTarget,
        values: List<Value>,
    },
    /// The same, where it must give one row of one column.
    QueryOneScalar {
        target: CommandTarget,
        values: List<Value>,
    },
    /// The same, where it may give one row of one column at most.
    QueryOptScalar {
        target: CommandTarget,
        values: List<Value>,
    },
    /// A target is executed with these values, and the answer is how many rows it affected.
    Execute {
        target: CommandTarget,
        values: List<Value>,
    },
    /// A text is executed in one request, and its rows are the answer.
    QueryTyped(TypedText),
    /// The same, where it must give one row.
    QueryTypedOne(TypedText),
    /// The same, where it may give one row at most.
    QueryTypedOpt(TypedText),
    /// A text is executed in one request, and the answer is how many rows it affected.
    ExecuteTyped(TypedText),
    /// The statement in this slot is closed; then the slot is empty.
    Close {
        slot: u64,
    },
    /// A transaction is begun in these modes.
    Begin(Modes),
    /// A savepoint of this name is opened; without a name it is named by how many are open with it.
    Savepoint {
        name: Option<Text>,
    },
    /// The innermost level of the transaction is ended, and what was done in it is kept.
    Commit,
    /// The same, and what was done in it is undone.
    Rollback,
    /// The same, where nobody reads the reply.
    Abandon,
}

/// What a command answers.
#[derive(Debug, Drop)]
pub enum Answer {
    /// Nothing is told but that it is done.
    Done,
    Messages(List<SimpleMessage>),
    /// The statement that was prepared.
    Statement(Statement),
    /// The rows that a statement gave, and how many the last command affected, where one ended.
    Rows {
        statement: Statement,
        rows: List<RowCells>,
        affected: Option<u64>,
    },
    /// The values of one column.
    Scalars(List<Value>),
    /// How many rows were affected.
    Count(u64),
    Failed(Error),
}
