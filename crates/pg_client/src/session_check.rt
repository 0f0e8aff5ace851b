//! Checks of what a session may do (PostgreSQL documentation, "Parameter Key Words", under target_session_attrs).

ghost use Rattle.std.specs.Prelude.{◌≡◌};
ghost use Rattle.pg_client.specs.Showing.{session_check};
ghost use Rattle.pg_client.specs.States.{place_of_check, IsLiveCheck};

use crate::show_script::ShowScript;
use pg_config::TargetSessionAttrs;
use pg_query::Command;

/// The state of a check of a session.
pub type SessionCheckState = Command<ShowScript>;

/// Makes the state of a check that the session is of this kind. It takes no memory, and books nothing before its
/// first poll; for Any it books nothing at all. Else it asks `SHOW transaction_read_only` and hangs up behind the
/// first row. Connect is the answer exactly where the first cell says that the session is of the other kind;
/// Column, of the place 0, where the row has no columns; FromSql, of the place 0, where the cell isn't UTF-8;
/// UnexpectedMessage where the reply ends without a row.
pub fn session_check_state(attrs: TargetSessionAttrs) -> SessionCheckState
    ensures live { IsLiveCheck result }
    ensures asks { (place_of_check result).dialogue ≡ session_check attrs }
{
    Command::new(ShowScript::New(attrs))
}
