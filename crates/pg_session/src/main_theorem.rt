//! The main theorem, of every session that is played as the relation says.

ghost use Rattle.std.specs.Prelude.{ℕ, List};
ghost use Rattle.pg_promises.specs.Endings.{IsRun, Report};
ghost use Rattle.pg_spec.specs.Links.{LinkView};
ghost use Rattle.pg_spec.specs.Settings.{Settings};
ghost use Rattle.pg_session.specs.Sessions.{HasPlayed};
ghost use Rattle.pg_session.specs.Speeches.{AreCommands, Speech, meaning_of};
ghost use Rattle.pg_query.specs.declared.desk_call.DeskCall.{DeskCall};
ghost use Rattle.pg_query.specs.declared.desk_call.Reply.{Reply};
ghost use Rattle.pg_session.specs.WholeSession.{EndsWell, IsClosed};

/// Where the link tells its bytes, a session that was played to its end ended well, whatever its commands are. Also where it
/// tells nothing, all that it took is flushed and it is shut down, which it isn't before the last turn; and its commands did
/// what they mean, by some messages that came behind its startup, a whole group to each request.
pub fn every_session_ends_well<C, T, A, E>()
    ensures ended_well { (speech : Speech C T A E) → AreCommands speech → (settings : Settings) (nonce : List ℕ) (scripts : List (List C)) (given : List ℕ) (before after : LinkView) (report : Report A) →
        HasPlayed speech settings nonce scripts given before after report → EndsWell speech settings nonce scripts given before after report }
    ensures closed { (speech : Speech C T A E) (settings : Settings) (nonce : List ℕ) (scripts : List (List C)) (given : List ℕ) (before after : LinkView) (report : Report A) →
        HasPlayed speech settings nonce scripts given before after report → IsClosed before after }
    ensures has_run { (speech : Speech C T A E) → AreCommands speech → (settings : Settings) (nonce : List ℕ) (scripts : List (List C)) (given : List ℕ) (before after : LinkView) (report : Report A) →
        HasPlayed speech settings nonce scripts given before after report → IsRun (meaning_of speech) scripts given report }
{}
