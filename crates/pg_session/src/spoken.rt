//! Commands that scripts can have: how one begins, and what is kept of its answer.

ghost use Rattle.std.specs.Prelude.{◌≡◌, ◌≢◌, Err, IfOk, OnOk};
ghost use Rattle.pg_session.specs.Speeches.{Speech};

use pg_errors::Error;
use pg_query::Polled;
use pg_types::OutOfMemory;
use std::alloc::Global;

/// The state of a command that runs, with what its script keeps between its commands and what a report has of its answer.
pub trait Spoken<'a>: Polled + Drop {
    type Command;

    type Answer: Drop;

    type Slots: Drop;

    /// What the commands say, and what is kept of their answers.
    ghost speech: { Speech Self.Command Self.Output Self.Answer Self.Slots };

    /// What a script keeps before its first command. It takes no memory.
    fn first_slots(alloc: Global) -> Self::Slots
        ensures { result ≡ speech.begins };

    /// The state of a command, by what its script keeps. OutOfMemory comes where there is no room for it.
    fn begin(
        alloc: Global,
        command: &'a Self::Command,
        slots: &Self::Slots,
    ) -> Result<Self, OutOfMemory>
        ensures live { IfOk result Self.is_live }
        ensures asks { IfOk result (λ state. (Self.place state).dialogue ≡ speech.says slots.now command.now) };

    /// Keeps what the script of a command keeps of its answer, and gives the answer that its report has. OutOfMemory comes where
    /// there is no room for it, or where that was the answer.
    fn keep(
        slots: &mut Self::Slots,
        command: &Self::Command,
        answer: Result<Self::Output, Error>,
    ) -> Result<Self::Answer, OutOfMemory>
        ensures answer { IfOk result (λ told. told ≡ (speech.ends slots.old command.now answer).answer) }
        ensures memory { OnOk result (answer ≢ Err Error.OutOfMemory) }
        ensures slots { OnOk result (slots.new ≡ (speech.ends slots.old command.now answer).own) };
}
