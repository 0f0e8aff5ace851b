//! What crossed the link in a session that ended.

ghost use Rattle.std.specs.Prelude.{ℕ, List};
ghost use Rattle.pg_promises.specs.Endings.{Report};
ghost use Rattle.pg_spec.specs.Links.{LinkView, OfBytes};
ghost use Rattle.pg_spec.specs.Settings.{Settings};
ghost use Rattle.pg_session.specs.Sessions.{HasPlayed};
ghost use Rattle.pg_session.specs.Speeches.{Speech};
ghost use Rattle.pg_session.specs.Crossed.{session_of, Sent, Crossed};

/// Where the link tells its bytes, a session that was played to its end was started, sent the startup's frame,
/// each request whole, in booking order, and Terminate, and reports that. All that the server gave was read, sorted
/// and reported too.
pub fn what_crossed<C, T, A, E>()
    ensures sent { (speech : Speech C T A E) (settings : Settings) (nonce : List ℕ) (scripts : List (List C)) (given : List ℕ) (before after : LinkView) (report : Report A) →
        HasPlayed speech settings nonce scripts given before after report → OfBytes before after (λ g t. Sent (session_of settings nonce scripts given report g) t) }
    ensures crossed { (speech : Speech C T A E) (settings : Settings) (nonce : List ℕ) (scripts : List (List C)) (given : List ℕ) (before after : LinkView) (report : Report A) →
        HasPlayed speech settings nonce scripts given before after report →
        OfBytes before after (λ g t. Crossed (session_of settings nonce scripts given report g) t) }
{}
