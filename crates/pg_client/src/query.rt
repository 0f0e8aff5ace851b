//! Requests of the extended protocol (PostgreSQL documentation, "Extended Query"). So far a Sync alone.

ghost use Rattle.std.specs.Prelude.{◌≡◌};
ghost use Rattle.pg_client.specs.Done.{check_connection};
ghost use Rattle.pg_client.specs.DoneStates.{place_of_check, IsLiveCheck};

use crate::done_script::DoneScript;
use pg_query::Command;

/// The state of a check of the connection.
pub type CheckConnectionState = Command<DoneScript<'static>>;

/// Makes the state of a check, which sends a Sync and reads its ReadyForQuery. It takes no memory, and
/// books nothing before its first poll. Any other message is an error.
pub fn check_connection_state() -> CheckConnectionState
    ensures live { IsLiveCheck result }
    ensures asks { (place_of_check result).dialogue ≡ check_connection }
{
    Command::new(DoneScript::Check)
}
