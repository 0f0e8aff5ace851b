//! What came in a session. The body does nothing.

ghost use Rattle.std.specs.Prelude.{ℕ, List};
ghost use Rattle.pg_promises.specs.Endings.{Report};
ghost use Rattle.pg_spec.specs.Links.{LinkView};
ghost use Rattle.pg_spec.specs.Settings.{Settings};
ghost use Rattle.pg_connect.specs.Passed.{delivered_by};
ghost use Rattle.pg_session.specs.Calls.{calls_of};
ghost use Rattle.pg_session.specs.Sessions.{HasPlayed};
ghost use Rattle.pg_session.specs.Speeches.{Speech};
ghost use Rattle.pg_session.specs.Lives.{CameBehind};

/// What came is a front of the synchronous messages that the link gave behind the startup.
pub fn what_came<C, T, A, E>()
    ensures { (speech : Speech C T A E) (settings : Settings) (nonce : List ℕ) (scripts : List (List C)) (given : List ℕ) (before after : LinkView) (report : Report A) →
        (p : HasPlayed speech settings nonce scripts given before after report) →
        CameBehind p.opened.read before after (delivered_by (calls_of speech scripts given p.new p.link p.last after p.plays)) p.last.streams.given }
{}
