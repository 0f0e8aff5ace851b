//! The commands of the table as a session speaks them.

ghost use Rattle.std.specs.Prelude.{◌≡◌, ◌≢◌, Err, IfOk, OnOk};
ghost use Rattle.pg_table.specs.Table.{table};

use crate::making::begin;
use crate::own::Own;
use crate::state::{AnyAnswer, AnyState, keep};
use pg_errors::Error;
use pg_session::Spoken;
use pg_text::{Answer, Command};
use pg_types::OutOfMemory;
use std::alloc::Global;

impl<'a> Spoken<'a> for AnyState<'a> {
    ghost use Rattle.pg_table.specs.Table.{table};

    type Command = Command;

    type Answer = Answer;

    type Slots = Own;

    ghost speech = { table };

    fn first_slots(alloc: Global) -> Own
        ensures { result ≡ table.begins }
    {
        Own::new(alloc)
    }

    fn begin(alloc: Global, command: &'a Command, own: &Own) -> Result<AnyState<'a>, OutOfMemory> {
        begin(alloc, command, own)
    }

    fn keep(
        own: &mut Own,
        command: &Command,
        answer: Result<AnyAnswer, Error>,
    ) -> Result<Answer, OutOfMemory>
        ensures answer { IfOk result (λ told. told ≡ (table.ends own.old command.now answer).answer) }
        ensures memory { OnOk result (answer ≢ Err Error.OutOfMemory) }
        ensures slots { OnOk result (own.new ≡ (table.ends own.old command.now answer).own) }
    {
        match answer {
            Err(Error::OutOfMemory { .. }) => Err(OutOfMemory),
            answer => keep(own, command, answer),
        }
    }
}
