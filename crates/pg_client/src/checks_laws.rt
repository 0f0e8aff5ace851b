//! What the events of a check's whole life say of its answer. Each body does nothing.

ghost use Rattle.std.specs.Prelude.{◌≡◌, List, Result, Err};
ghost use Rattle.pg_config.specs.declared.modes.TargetSessionAttrs.{TargetSessionAttrs};
ghost use Rattle.pg_types.specs.declared.error.Error.{Error};
ghost use Rattle.pg_query.specs.Dialogue.{Answer};
ghost use Rattle.pg_query.specs.Leaving.{AllOwed, AllLetGo};
ghost use Rattle.pg_query.specs.Scripts.{IsRead};
ghost use Rattle.pg_query.specs.Meaning.{Place};
ghost use Rattle.pg_query.specs.Lives.{Turn, Lives, deeds};
ghost use Rattle.pg_client.specs.Showing.{AnswersCheck, AwaitsCheck, session_check};

/// A check that answered booked one request for the setting, and for Any nothing. A front of the messages that it took
/// tells its answer, unless the desk gave no more of them.
pub fn session_check_answers()
    ensures { (attrs : TargetSessionAttrs) (begin end : Place (Unit {0})) (turns : List Turn) (r : Result (Unit {0}) Error) →
        begin.dialogue ≡ session_check attrs → Lives begin turns end → end.dialogue ≡ Answer r →
        AnswersCheck attrs (deeds turns) r }
{}

/// Where it awaits a message, no front of those that it took tells an answer.
pub fn session_check_awaits()
    ensures { (attrs : TargetSessionAttrs) (begin end : Place (Unit {0})) (turns : List Turn) →
        begin.dialogue ≡ session_check attrs → Lives begin turns end → IsRead end.dialogue →
        AwaitsCheck attrs (deeds turns) }
{}

/// A check that answered anything but want of memory leaves no request open: the one that it booked was hung up. Every
/// desk owes `AllOwed`.
pub fn session_check_leaves_none()
    ensures { (attrs : TargetSessionAttrs) (begin end : Place (Unit {0})) (turns : List Turn) (r : Result (Unit {0}) Error) →
        begin.dialogue ≡ session_check attrs → Lives begin turns end → end.dialogue ≡ Answer r →
        (r ≡ Err Error.OutOfMemory → ⊥) → AllOwed (deeds turns) → AllLetGo (deeds turns) }
{}
