//! Nothing stands where a command looks.
//! It is a state, since a command that isn't begun would have no turn in which it answers.

ghost use Rattle.std.specs.Prelude.{◌≡◌, Err};
ghost use Rattle.pg_types.specs.declared.error.Error.TheVariants.{Missing};
ghost use Rattle.pg_query.specs.Dialogue.{Answer};

use pg_core::{Answered, Maybe};
use pg_errors::Error;
use pg_query::{Command, Polled};

/// The state of a command that finds nothing where it looks. It books nothing.
pub type MissingState = Command<Answered<()>>;

/// Makes the state. It takes no memory.
pub fn missing_state() -> MissingState
    ensures live { ⟦<MissingState as Polled>⟧.is_live result }
    ensures asks { (⟦<MissingState as Polled>⟧.place result).dialogue ≡ Answer (Err Missing) }
{
    Command::new(Maybe::Answers(Err(Error::Missing)))
}
