//! A text is prepared.

ghost use Rattle.std.specs.Prelude.{◌≡◌};
ghost use Rattle.pg_types.specs.Texts.{sql_text};
ghost use Rattle.pg_core.specs.Lookups.{prepare};
ghost use Rattle.pg_core.specs.ParamTypes.{param_oids};

use pg_core::{ParamTypes, Prepares};
use pg_query::{Command, Polled};
use pg_search::{Finds, Search};
use pg_types::Sql;

/// The state that prepares a text: the server describes it, and the types of its parameters and columns are found.
pub type PrepareState<'a> = Command<Prepares<'a, Finds, Search>>;

/// Makes the state that prepares a text with parameters of these types; the server finds those of any further ones. It
/// takes no memory, and books nothing before its first poll.
pub fn prepare_state<'a>(text: Sql<'a>, types: ParamTypes<'a>) -> PrepareState<'a>
    ensures live { ⟦<PrepareState<'a> as Polled>⟧.is_live result }
    ensures asks { (⟦<PrepareState<'a> as Polled>⟧.place result).dialogue ≡ prepare (sql_text text.entry) (param_oids types.entry) }
{
    Command::new(Prepares::new(text, types, Finds {}))
}
