//! From the turns of a session to what its commands mean. Each body does nothing.

ghost use Rattle.std.specs.Prelude.{◌≡◌, ◌<◌, ◌^◌, ◌++◌, ℕ, [], List, Bool, false, length, map};
ghost use Rattle.pg_spec.specs.Links.{LinkView};
ghost use Rattle.pg_spec.specs.RawMessages.{RawMessage, groups, sync_of};
ghost use Rattle.pg_connect.specs.Passed.{delivered_by};
ghost use Rattle.pg_desk.specs.History.{IsFrontOf};
ghost use Rattle.pg_query.specs.declared.desk_call.DeskCall.{DeskCall};
ghost use Rattle.pg_query.specs.declared.desk_call.Reply.{Reply};
ghost use Rattle.pg_spec.specs.Courses.{Asked, Course};
ghost use Rattle.pg_spec.specs.Meanings.{HasRun};
ghost use Rattle.pg_core.specs.Trails.{said_booking};
ghost use Rattle.pg_session.specs.Speeches.{Speech, AreCommands, meaning_of};
ghost use Rattle.pg_session.specs.States.{SessionState};
ghost use Rattle.pg_session.specs.Turns.{Makes};
ghost use Rattle.pg_session.specs.Sessions.{IsNewSession, Plays};
ghost use Rattle.pg_session.specs.Calls.{asked_in_turn, asked_of, calls_in_turn, calls_of};
ghost use Rattle.pg_session.specs.SessionKept.{IsWithin, SessionKept};

/// What holds between two turns holds before the first.
pub fn a_new_session_is_kept<C, T, A, E>()
    ensures { (speech : Speech C T A E) (scripts : List (List C)) (course : Course DeskCall Reply) (s : SessionState T A E) →
        IsNewSession speech scripts s → s.streams.closing ≡ false → s.streams.delivered ≡ 0 → SessionKept speech scripts course [] [] s }
{}

/// Each turn of a session keeps what holds between two turns, in the course of the whole session.
pub fn a_turn_keeps_a_session<C, T, A, E>()
    ensures { (speech : Speech C T A E) → AreCommands speech → (scripts : List (List C)) (course : Course DeskCall Reply) (later : List RawMessage) (asked : List (Asked DeskCall Reply)) (came : List RawMessage)
        (turn : ℕ) (s t : SessionState T A E) (l m : LinkView) (over : Bool) → (made : Makes speech scripts turn s t l m over) → IsWithin course later t.trace came →
        SessionKept speech scripts course asked came s →
        SessionKept speech scripts course (asked ++ asked_in_turn speech scripts turn s t l m over made) (came ++ delivered_by (calls_in_turn speech scripts turn s t l m over made)) t }
{}

/// A session that was played from a new hub to its end has run as its commands mean, whatever they are: each did what its
/// dialogue asks and answered what that answers, by the groups of its own requests and by what it was told.
pub fn a_session_has_run<C, T, A, E>()
    ensures { (speech : Speech C T A E) → AreCommands speech → (scripts : List (List C)) (given : List ℕ) (s : SessionState T A E) (l : LinkView) (t : SessionState T A E) (m : LinkView) →
        IsNewSession speech scripts s → s.streams.closing ≡ false → s.streams.delivered ≡ 0 → (plays : Plays speech scripts given s l t m) →
        (later : List RawMessage) → IsFrontOf (delivered_by (calls_of speech scripts given s l t m plays)) (sync_of later) → length (sync_of later) < 2 ^ 64 →
        HasRun (meaning_of speech) scripts given (map (λ h. h.answers) t.handles)
        (record { trace = t.trace; book = map said_booking t.hub.book; replies = groups later; asked = asked_of speech scripts given s l t m plays }) }
{}
