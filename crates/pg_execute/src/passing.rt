//! What a script wants, as the one in which it stands wants it.

ghost use Rattle.std.specs.Prelude.{◌≡◌, Ok, MatchResult};
ghost use Rattle.pg_query.specs.declared.script.Want.TheVariants as wants;
ghost use Rattle.pg_core.specs.Thens.{is_end};
ghost use Rattle.pg_execute.specs.Passing.{Passes};

use pg_query::{Action, Want};

/// The value that is answered, behind which the whole goes on; else what the whole wants too: an error, an action or a message.
pub(crate) fn value_of<X, T>(want: Want<X>) -> Result<X, Want<T>>
    ensures { MatchResult result (λ value. want ≡ wants.Answer (Ok value)) (λ passed. Passes want passed) }
{
    match want {
        Want::Answer(Ok(value)) => Ok(value),
        Want::Answer(Err(error)) => Err(Want::Answer(Err(error))),
        Want::Act(action) => Err(Want::Act(action)),
        Want::Read => Err(Want::Read),
    }
}

/// It is an answer, or hangs up.
pub(crate) fn ends<T>(want: &Want<T>) -> bool
    ensures { result ≡ is_end want.now }
{
    matches!(want, Want::Answer(_) | Want::Act(Action::HangUp))
}
