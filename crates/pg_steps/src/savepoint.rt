//! The levels of a transaction, and the texts that open and end one (PostgreSQL documentation, "SAVEPOINT", "RELEASE SAVEPOINT",
//! "ROLLBACK TO SAVEPOINT", "COMMIT", "ROLLBACK").

ghost use Rattle.std.specs.Prelude.{string_bytes, IfOk, ◌≡◌};
ghost use Rattle.pg_steps.specs.Transactions as spec;

use std::alloc::{AllocError, Global};

/// The name of a savepoint.
#[derive(Clone, Copy, Drop)]
pub enum Savepoint<'a> {
    /// This name, as it is spelled in a statement: one that is no plain identifier has to be quoted by the caller.
    Named(&'a str),
    /// `sp_` and how many savepoints are open with it, in decimal, from 1.
    AtDepth(u32),
}

impl<'a> Savepoint<'a> {
    /// The text that opens it.
    pub(crate) fn text(self, alloc: Global) -> Result<String, AllocError>
        ensures { IfOk result (λ text. string_bytes text ≡ spec.savepoint_text self.entry) }
    {
        match self {
            Savepoint::Named(name) => format!(in alloc; "SAVEPOINT {name}"),
            Savepoint::AtDepth(depth) => format!(in alloc; "SAVEPOINT sp_{depth}"),
        }
    }
}

/// The text that ends this level and keeps what was done in it. None is the transaction itself.
pub(crate) fn commit_text(alloc: Global, level: Option<Savepoint<'_>>) -> Result<String, AllocError>
    ensures { IfOk result (λ text. string_bytes text ≡ spec.commit_text level.entry) }
{
    match level {
        None => String::from_str(alloc, "COMMIT"),
        Some(Savepoint::Named(name)) => format!(in alloc; "RELEASE {name}"),
        Some(Savepoint::AtDepth(depth)) => format!(in alloc; "RELEASE sp_{depth}"),
    }
}

/// The text that undoes what was done in this level.
pub(crate) fn rollback_text(
    alloc: Global,
    level: Option<Savepoint<'_>>,
) -> Result<String, AllocError>
    ensures { IfOk result (λ text. string_bytes text ≡ spec.rollback_text level.entry) }
{
    match level {
        None => String::from_str(alloc, "ROLLBACK"),
        Some(Savepoint::Named(name)) => format!(in alloc; "ROLLBACK TO {name}"),
        Some(Savepoint::AtDepth(depth)) => format!(in alloc; "ROLLBACK TO sp_{depth}"),
    }
}
