//! The modes of a transaction, and the text that begins one (PostgreSQL documentation, "START TRANSACTION").

ghost use Rattle.std.specs.Prelude.{◌≡◌, string_bytes, option_map, IfOk};
ghost use Rattle.pg_steps.specs.Transactions as spec;

use std::alloc::{AllocError, Global};

/// How far a transaction is apart from others that run beside it (PostgreSQL documentation, "Transaction Isolation").
#[derive(Clone, Copy, Debug, Drop)]
pub enum IsolationLevel {
    /// The server treats it as `ReadCommitted`.
    ReadUncommitted,
    /// Each statement sees what was committed before it began.
    ReadCommitted,
    /// Each statement sees what was committed before the first of the transaction began.
    RepeatableRead,
    /// The same, and the outcome is that of the transactions one after another.
    Serializable,
}

/// The modes of a transaction. What is None is as the session's defaults say.
#[derive(Clone, Copy, Debug, Drop)]
pub struct Modes {
    pub isolation_level: Option<IsolationLevel>,
    pub read_only: Option<bool>,
    /// A transaction that is serializable and reads only waits at its begin, until it can't be refused any more.
    pub deferrable: Option<bool>,
}

fn level_mode(level: IsolationLevel) -> &'static str
    ensures { result.now ≡ spec.level_mode level }
{
    match level {
        IsolationLevel::ReadUncommitted => "ISOLATION LEVEL READ UNCOMMITTED",
        IsolationLevel::ReadCommitted => "ISOLATION LEVEL READ COMMITTED",
        IsolationLevel::RepeatableRead => "ISOLATION LEVEL REPEATABLE READ",
        IsolationLevel::Serializable => "ISOLATION LEVEL SERIALIZABLE",
    }
}

fn access_mode(read_only: bool) -> &'static str
    ensures { result.now ≡ spec.access_mode read_only }
{
    if read_only { "READ ONLY" } else { "READ WRITE" }
}

fn deferrable_mode(deferrable: bool) -> &'static str
    ensures { result.now ≡ spec.deferrable_mode deferrable }
{
    if deferrable {
        "DEFERRABLE"
    } else {
        "NOT DEFERRABLE"
    }
}

impl Modes {
    /// No mode is given.
    pub fn none() -> Modes
        ensures { result ≡ record { isolation_level = None; read_only = None; deferrable = None } }
    {
        Modes {
            isolation_level: None,
            read_only: None,
            deferrable: None,
        }
    }

    fn level(&self) -> Option<&'static str>
        ensures { option_map (λ mode. mode.now) result ≡ option_map spec.level_mode self.now.isolation_level }
    {
        match self.isolation_level {
            Some(level) => Some(level_mode(level)),
            None => None,
        }
    }

    fn access(&self) -> Option<&'static str>
        ensures { option_map (λ mode. mode.now) result ≡ option_map spec.access_mode self.now.read_only }
    {
        match self.read_only {
            Some(read_only) => Some(access_mode(read_only)),
            None => None,
        }
    }

    fn defers(&self) -> Option<&'static str>
        ensures { option_map (λ mode. mode.now) result ≡ option_map spec.deferrable_mode self.now.deferrable }
    {
        match self.deferrable {
            Some(deferrable) => Some(deferrable_mode(deferrable)),
            None => None,
        }
    }

    /// The text that begins a transaction of these modes.
    pub(crate) fn text(&self, alloc: Global) -> Result<String, AllocError>
        ensures { IfOk result (λ text. string_bytes text ≡ spec.start_text self.now) }
    {
        match (self.level(), self.access(), self.defers()) {
            (None, None, None) => String::from_str(alloc, "START TRANSACTION"),
            (Some(a), None, None) | (None, Some(a), None) | (None, None, Some(a)) => {
                format!(in alloc; "START TRANSACTION {a}")
            }
            (Some(a), Some(b), None) | (Some(a), None, Some(b)) | (None, Some(a), Some(b)) => {
                format!(in alloc; "START TRANSACTION {a}, {b}")
            }
            (Some(a), Some(b), Some(c)) => format!(in alloc; "START TRANSACTION {a}, {b}, {c}"),
        }
    }
}
