//! Calls, and the steps that each of them takes.

ghost use Rattle.std.specs.Prelude.{◌≡◌, string_bytes, IfOk};
ghost use Rattle.pg_steps.specs.Calls as spec;
ghost use Rattle.pg_steps.specs.Dialogues.{says};

use crate::modes::Modes;
use crate::requests::query_request;
use crate::savepoint::{Savepoint, commit_text, rollback_text};
use crate::step::Step;
use crate::steps::Steps;
use bytes::Bytes;
use pg_errors::Error;
use pg_query::{Command, Polled};
use std::alloc::{AllocError, Global};

/// A call, with all that it was given. A level is that of a savepoint, or of the transaction itself.
#[derive(Clone, Copy, Drop)]
pub enum Call<'a> {
    /// Begins a transaction. Where it fails once its request was booked, the transaction is rolled back.
    Begin(Modes),
    /// Opens a savepoint.
    Savepoint(Savepoint<'a>),
    /// Ends a level, and keeps what was done in it.
    Commit(Option<Savepoint<'a>>),
    /// Undoes what was done in a level.
    Rollback(Option<Savepoint<'a>>),
    /// The same, where nobody reads the reply.
    Abandon(Option<Savepoint<'a>>),
}

const BEGINS: [Step; 3] = [Step::Asks, Step::RollsBack, Step::Reads];

const ASKS: [Step; 2] = [Step::Asks, Step::Reads];

const SENDS: [Step; 1] = [Step::Sends];

impl<'a> Call<'a> {
    /// Its steps.
    pub(crate) fn plan(&self) -> &'static [Step]
        ensures { result.now ≡ spec.plan self.now }
    {
        match self {
            Call::Begin(_) => &BEGINS,
            Call::Savepoint(_) => &ASKS,
            Call::Commit(_) => &ASKS,
            Call::Rollback(_) => &ASKS,
            Call::Abandon(_) => &SENDS,
        }
    }

    /// The text that it asks by.
    fn text(&self, alloc: Global) -> Result<String, AllocError>
        ensures { IfOk result (λ text. string_bytes text ≡ spec.text_of self.now) }
    {
        match self {
            Call::Begin(modes) => modes.text(alloc),
            Call::Savepoint(savepoint) => savepoint.text(alloc),
            Call::Commit(level) => commit_text(alloc, *level),
            Call::Rollback(level) => rollback_text(alloc, *level),
            Call::Abandon(level) => rollback_text(alloc, *level),
        }
    }

    /// Its request, or why that can't be sent.
    pub(crate) fn request(&self, alloc: Global) -> Result<Result<Bytes, Error>, AllocError>
        ensures { IfOk result (λ request. request ≡ spec.request_of self.now) }
    {
        let text = self.text(alloc)?;
        query_request(alloc, text.as_str())
    }
}

/// The command of a call. It takes no memory, and books nothing before its first poll.
pub fn command<'a>(call: Call<'a>) -> Command<Steps<'a>>
    ensures live { ⟦<Command<Steps<'a>> as Polled>⟧.is_live result }
    ensures asks { (⟦<Command<Steps<'a>> as Polled>⟧.place result).dialogue ≡ says call.entry }
{
    let script = Steps::new(call);
    let command = Command::new(script);
    command
}
