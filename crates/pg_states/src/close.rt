//! A statement is closed.

ghost use Rattle.std.specs.Prelude.{◌≡◌};
ghost use Rattle.pg_execute.specs.Executes.{close};

use crate::closing::Closing;
use pg_desk::Statement;
use pg_query::{Command, Polled};

/// The state that closes a statement. Nobody reads the server's reply.
pub type CloseState<'a> = Command<Closing<'a>>;

/// Makes the state that closes this statement. It takes no memory, and books nothing before its first poll.
pub fn close_state<'a>(statement: &'a Statement) -> CloseState<'a>
    ensures live { ⟦<CloseState<'a> as Polled>⟧.is_live result }
    ensures asks { (⟦<CloseState<'a> as Polled>⟧.place result).dialogue ≡ close statement.now }
{
    Command::new(Closing::Borrowed(statement))
}

/// The same of a statement that can't be borrowed for so long.
pub fn close_owned_state<'a>(statement: Statement) -> CloseState<'a>
    ensures live { ⟦<CloseState<'a> as Polled>⟧.is_live result }
    ensures asks { (⟦<CloseState<'a> as Polled>⟧.place result).dialogue ≡ close statement }
{
    Command::new(Closing::Owned(statement))
}
