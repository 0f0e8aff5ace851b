//! Why a session fails. The body does nothing.

ghost use Rattle.std.specs.Prelude.{◌≡◌, ℕ, List};
ghost use Rattle.pg_promises.specs.Causes.{Call, HasCause, IsStalled, NeedsNoTls};
ghost use Rattle.pg_spec.specs.Settings.{Settings};
ghost use Rattle.pg_promises.specs.ConnectionStrings.{Means};
ghost use Rattle.pg_spec.specs.Startup.{plain_login};
ghost use Rattle.pg_startup.specs.Startups.{Failed};
ghost use Rattle.pg_startup.specs.declared.startup.Startup.{Startup};
ghost use Rattle.pg_types.specs.declared.error.Error.{Error};
ghost use Rattle.pg_session.specs.Speeches.{BookWhole, LetGo, Speech};
ghost use Rattle.pg_session.specs.Failures.{HasBroken, StopsOpening};

/// Each failure of a session has its cause in the call, where it failed in its startup or behind it; and where a
/// startup moves nothing any more, that has its cause too.
pub fn each_failure_has_its_cause<C, T, A, E>()
    ensures startup { (call : Call) (settings : Settings) (s : Startup) (e : Error) → Means call.config settings → NeedsNoTls settings → s.bytes.max_bytes ≡ call.limit →
        Failed (plain_login settings call.nonce) 0 call.before call.after s e → HasCause call e }
    ensures stalled { (call : Call) (settings : Settings) (s : Startup) (before after : ℕ) → Means call.config settings →
        StopsOpening settings call.nonce call.before call.after s (Error.Stalled before after) → IsStalled call before after }
    ensures later { (speech : Speech C T A E) → LetGo speech → BookWhole speech → (call : Call) (settings : Settings) (scripts : List (List C)) (e : Error) → Means call.config settings →
        (b : HasBroken speech settings call.nonce scripts call.before call.after e) → b.startup.bytes.max_bytes ≡ call.limit →
        HasCause call e }
{}
