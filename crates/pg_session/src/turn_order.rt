//! The order of a session's turns. The body does nothing.

ghost use Rattle.std.specs.Prelude.{◌≡◌, ℕ, List, length, map};
ghost use Rattle.pg_spec.specs.Links.{LinkView};
ghost use Rattle.pg_spec.specs.Turns.{IsTrace};
ghost use Rattle.pg_session.specs.Speeches.{Speech};
ghost use Rattle.pg_session.specs.States.{SessionState};
ghost use Rattle.pg_session.specs.Sessions.{IsNewSession, Plays};

/// The turns of a session that was played to its end are those of its turn list, in order, and the last is the
/// connection's. Messages are delivered in turns of the connection alone, and none is taken back.
pub fn turns_in_order<C, T, A, E>()
    ensures { (speech : Speech C T A E) (scripts : List (List C)) (given : List ℕ) (s t : SessionState T A E) (l m : LinkView) →
        IsNewSession speech scripts s → s.streams.delivered ≡ 0 → Plays speech scripts given s l t m →
        IsTrace given (length scripts) t.trace }
{}
