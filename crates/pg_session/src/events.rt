//! Which messages the reader of a request took. The body does nothing.

ghost use Rattle.std.specs.Prelude.{ℕ, List};
ghost use Rattle.pg_promises.specs.Endings.{Report};
ghost use Rattle.pg_spec.specs.Links.{LinkView, OfBytes};
ghost use Rattle.pg_spec.specs.Settings.{Settings};
ghost use Rattle.pg_session.specs.Sessions.{HasPlayed};
ghost use Rattle.pg_session.specs.Speeches.{Speech};
ghost use Rattle.pg_session.specs.Crossed.{session_of};
ghost use Rattle.pg_session.specs.Events.{turn_events, AreEvents, ReadsItsReply};

/// The calls of a session's hub, those of its handles and of its connection, are a history of one hub, and
/// where the link tells its bytes, the reader of request k took a front of the reply to request k.
pub fn each_request_reads_its_reply<C, T, A, E>()
    ensures events { (speech : Speech C T A E) (settings : Settings) (nonce : List ℕ) (scripts : List (List C)) (given : List ℕ) (before after : LinkView) (report : Report A) →
        (p : HasPlayed speech settings nonce scripts given before after report) →
        AreEvents scripts report (turn_events speech scripts given p.new p.link p.last after p.plays) }
    ensures reads { (speech : Speech C T A E) (settings : Settings) (nonce : List ℕ) (scripts : List (List C)) (given : List ℕ) (before after : LinkView) (report : Report A) →
        (p : HasPlayed speech settings nonce scripts given before after report) →
        OfBytes before after (λ g t. ReadsItsReply scripts (session_of settings nonce scripts given report g)
        (turn_events speech scripts given p.new p.link p.last after p.plays)) }
{}
