//! The states of the levels of a transaction.

ghost use Rattle.std.specs.Prelude.{◌≡◌};
ghost use Rattle.pg_calls.specs.Levels.{level_of};

use crate::client::Client;
use crate::transaction::Transaction;
use pg_query::Command;
use pg_steps::{Gives, One, Savepoint, Steps};

/// The level that a state opens, once the server has opened it.
#[derive(Clone, Copy, Drop)]
pub struct Opened<'a> {
    pub(crate) client: Client,
    pub(crate) savepoint: Option<Savepoint<'a>>,
    pub(crate) depth: u32,
}

impl<'a> Gives for Opened<'a> {
    ghost use Rattle.pg_calls.specs.Levels.{level_of};

    type Given = Transaction<'a>;

    ghost gives = { level_of };

    fn give(&self) -> Transaction<'a> {
        Transaction {
            client: self.client,
            savepoint: self.savepoint,
            depth: self.depth,
        }
    }
}

/// The state that begins a transaction.
pub type TransactionState = One<'static, Opened<'static>>;

/// The state that opens a savepoint without a name of its own.
pub type NestedState = One<'static, Opened<'static>>;

/// The state that opens a savepoint of this name.
pub type SavepointState<'a> = One<'a, Opened<'a>>;

/// The state that ends a level and keeps what was done in it.
pub type CommitState<'a> = Command<Steps<'a>>;

/// The state that undoes what was done in a level.
pub type RollbackState<'a> = Command<Steps<'a>>;
