//! What holds of every command.

ghost use Rattle.std.specs.Prelude.{◌≡◌, Result, List, Err};
ghost use Rattle.pg_types.specs.declared.error.Error.{Error};
ghost use Rattle.pg_query.specs.Dialogue.{Answer};
ghost use Rattle.pg_query.specs.Meaning.{Place};
ghost use Rattle.pg_query.specs.Lives.{Turn, Lives, deeds};
ghost use Rattle.pg_query.specs.Leaving.{Nothing, LetsGo, AllOwed, AllLetGo};

/// A command whose dialogue lets each request go leaves none open: where it answered anything but want of
/// memory, each request that it booked was hung up, or its reply was read to the end.
pub fn no_request_is_left<T>()
    ensures { (begin end : Place T) (turns : List Turn) (r : Result T Error) →
        LetsGo Nothing begin.dialogue → Lives begin turns end → end.dialogue ≡ Answer r →
        (r ≡ Err Error.OutOfMemory → ⊥) → AllOwed (deeds turns) → AllLetGo (deeds turns) }
{}
