//! How a transaction is begun (PostgreSQL documentation, "START TRANSACTION").

ghost use Rattle.std.specs.Prelude.{◌≡◌, None, Some};
ghost use Rattle.pg_steps.specs.Dialogues as spec;
ghost use Rattle.pg_steps.specs.Mapped.{giving};
ghost use Rattle.pg_calls.specs.Levels.{no_modes, whole};

use crate::client::Client;
use crate::level::{Opened, TransactionState};
use pg_query::Polled;
use pg_steps::{Call, IsolationLevel, Modes, One};

/// The modes of a transaction that is begun. A mode that isn't given is as the session's defaults say.
#[derive(Clone, Copy, Drop)]
pub struct TransactionBuilder {
    client: Client,
    modes: Modes,
}

impl Client {
    /// A transaction whose modes are to be given.
    pub fn build_transaction(&self) -> TransactionBuilder
        ensures { result ≡ record { client = self.now; modes = no_modes } }
    {
        TransactionBuilder {
            client: *self,
            modes: Modes::none(),
        }
    }

    /// Begins a transaction. Like `TransactionBuilder::start`, where no mode is given.
    pub fn transaction(&self) -> TransactionState
        ensures live { ⟦<TransactionState as Polled>⟧.is_live result }
        ensures asks { (⟦<TransactionState as Polled>⟧.place result).dialogue ≡ giving (whole self.now) (spec.begin no_modes) }
    {
        self.build_transaction().start()
    }
}

impl TransactionBuilder {
    /// Of this level of isolation.
    pub fn isolation_level(self, level: IsolationLevel) -> TransactionBuilder
        ensures { result ≡ record self { modes = record self.modes { isolation_level = Some level } } }
    {
        TransactionBuilder {
            client: self.client,
            modes: Modes {
                isolation_level: Some(level),
                read_only: self.modes.read_only,
                deferrable: self.modes.deferrable,
            },
        }
    }

    /// That may write or not.
    pub fn read_only(self, read_only: bool) -> TransactionBuilder
        ensures { result ≡ record self { modes = record self.modes { read_only = Some read_only } } }
    {
        TransactionBuilder {
            client: self.client,
            modes: Modes {
                isolation_level: self.modes.isolation_level,
                read_only: Some(read_only),
                deferrable: self.modes.deferrable,
            },
        }
    }

    /// That waits at its begin or not. It counts only where the transaction is serializable and reads only.
    pub fn deferrable(self, deferrable: bool) -> TransactionBuilder
        ensures { result ≡ record self { modes = record self.modes { deferrable = Some deferrable } } }
    {
        TransactionBuilder {
            client: self.client,
            modes: Modes {
                isolation_level: self.modes.isolation_level,
                read_only: self.modes.read_only,
                deferrable: Some(deferrable),
            },
        }
    }

    /// Begins the transaction. It answers the transaction, which must be spent by `commit`, `rollback` or `abandon`. Db comes at an
    /// error of the server; Parse at a message that can't be read; UnexpectedMessage at one out of place; Closed where the desk takes no
    /// requests any more, or gives no more of the reply. Behind the first three, and where the state is hung up, `ROLLBACK` is sent,
    /// whose reply nobody reads; where the desk refuses that, its error is the answer.
    pub fn start(self) -> TransactionState
        ensures live { ⟦<TransactionState as Polled>⟧.is_live result }
        ensures asks { (⟦<TransactionState as Polled>⟧.place result).dialogue ≡ giving (whole self.client) (spec.begin self.modes) }
    {
        let opened = Opened {
            client: self.client,
            savepoint: None,
            depth: 0,
        };
        One::new(Call::Begin(self.modes), opened)
    }
}
