//! How much is left to do in a session falls in each turn in which something moves, whatever its commands are. Each
//! body does nothing.

ghost use Rattle.std.specs.Prelude.{◌≡◌, ℕ, List, Option, Result, false, length};
ghost use Rattle.pg_core.specs.Copying.{copies};
ghost use Rattle.pg_types.specs.declared.error.Error.{Error};
ghost use Rattle.pg_spec.specs.Links.{LinkView};
ghost use Rattle.pg_spec.specs.RawMessages.{RawMessage};
ghost use Rattle.pg_session.specs.Measure.{IsNearer, IsNearerWithin, IsUnderWay, IsUnderWayWith, IsUnderWayWithin, IsWithinLimit, LeavesLess, PutNone, PutWithin, PutsAtMost, bounds_in, left_to_do, left_with};
ghost use Rattle.pg_session.specs.Sessions.{IsNewSession, MakesAll};
ghost use Rattle.pg_session.specs.Speeches.{Speech};
ghost use Rattle.pg_session.specs.States.{SessionState};
ghost use Rattle.pg_session.specs.Turns.{Makes, moved_in};

/// A session whose commands put so many parts at most is under way from its beginning on, turn by turn. A turn
/// in which something moved leaves less to do, and any other turn no more, where the connection isn't shut down
/// in it and the link gave no more bytes than it may; and never may more parts be put behind it than before.
pub fn each_turn_leaves_less<C, T, A, E>()
    ensures begins { (speech : Speech C T A E) (bound : C → ℕ) (scripts : List (List C)) (s : SessionState T A E) → IsNewSession speech scripts s → IsUnderWayWith bound scripts (bounds_in bound scripts) s }
    ensures goes_on { (speech : Speech C T A E) (bound : C → ℕ) (scripts : List (List C)) (parts turn : ℕ) (s t : SessionState T A E) (l m : LinkView) → PutWithin speech bound →
        (made : Makes speech scripts turn s t l m false) → IsUnderWayWith bound scripts parts s → IsWithinLimit t →
        LeavesLess bound scripts parts (moved_in speech scripts turn s t l m false made) s t }
{}

/// Turns one after another leave no more to do than before them, and no more parts may be put.
pub fn turns_leave_no_more_parts<C, T, A, E>()
    ensures { (speech : Speech C T A E) (bound : C → ℕ) (scripts : List (List C)) (parts : ℕ) (turns : List ℕ) (s : SessionState T A E) (l : LinkView) (t : SessionState T A E) (m : LinkView) → PutWithin speech bound →
        MakesAll speech scripts turns s l t m → IsUnderWayWith bound scripts parts s → IsWithinLimit t → LeavesLess bound scripts parts false s t }
{}

/// The same as `each_turn_leaves_less`, of what is left to do by the state alone: how many parts may still be put
/// is told by those that were put.
pub fn each_turn_is_nearer_within<C, T, A, E>()
    ensures begins { (speech : Speech C T A E) (bound : C → ℕ) (scripts : List (List C)) (s : SessionState T A E) → IsNewSession speech scripts s → IsUnderWayWithin bound scripts s }
    ensures goes_on { (speech : Speech C T A E) (bound : C → ℕ) (scripts : List (List C)) (turn : ℕ) (s t : SessionState T A E) (l m : LinkView) → PutWithin speech bound →
        Makes speech scripts turn s t l m false → IsUnderWayWithin bound scripts s → IsWithinLimit t → IsUnderWayWithin bound scripts t }
    ensures nearer { (speech : Speech C T A E) (bound : C → ℕ) (scripts : List (List C)) (turn : ℕ) (s t : SessionState T A E) (l m : LinkView) → PutWithin speech bound →
        (made : Makes speech scripts turn s t l m false) → IsUnderWayWithin bound scripts s → IsWithinLimit t →
        IsNearerWithin bound scripts (moved_in speech scripts turn s t l m false made) s t }
{}

/// Turns one after another leave no more to do than before them, by the state alone.
pub fn turns_leave_no_more_within<C, T, A, E>()
    ensures goes_on { (speech : Speech C T A E) (bound : C → ℕ) (scripts : List (List C)) (turns : List ℕ) (s : SessionState T A E) (l : LinkView) (t : SessionState T A E) (m : LinkView) → PutWithin speech bound →
        MakesAll speech scripts turns s l t m → IsUnderWayWithin bound scripts s → IsWithinLimit t → IsUnderWayWithin bound scripts t }
    ensures nearer { (speech : Speech C T A E) (bound : C → ℕ) (scripts : List (List C)) (turns : List ℕ) (s : SessionState T A E) (l : LinkView) (t : SessionState T A E) (m : LinkView) → PutWithin speech bound →
        MakesAll speech scripts turns s l t m → IsUnderWayWithin bound scripts s → IsWithinLimit t → IsNearerWithin bound scripts false s t }
{}

/// A copy puts no more parts than are its.
pub fn a_copy_puts_its_parts<T>()
    ensures { (opening failing ending : List ℕ) (parts : List (List ℕ)) (opened : List RawMessage → Option (Result (Unit {0}) Error)) (reading : List RawMessage → Option (Result T Error)) →
        PutsAtMost (length parts) (copies opening failing ending parts opened reading) }
{}

/// The same as `each_turn_leaves_less` of a session whose commands put no part.
pub fn each_turn_is_nearer<C, T, A, E>()
    ensures left { (scripts : List (List C)) (s : SessionState T A E) → left_to_do scripts s ≡ left_with scripts 0 s }
    ensures begins { (speech : Speech C T A E) (scripts : List (List C)) (s : SessionState T A E) → IsNewSession speech scripts s → IsUnderWay s }
    ensures goes_on { (speech : Speech C T A E) (scripts : List (List C)) (turn : ℕ) (s t : SessionState T A E) (l m : LinkView) → PutNone speech →
        Makes speech scripts turn s t l m false → IsUnderWay s → IsWithinLimit t → IsUnderWay t }
    ensures nearer { (speech : Speech C T A E) (scripts : List (List C)) (turn : ℕ) (s t : SessionState T A E) (l m : LinkView) → PutNone speech →
        (made : Makes speech scripts turn s t l m false) → IsUnderWay s → IsWithinLimit t →
        IsNearer scripts (moved_in speech scripts turn s t l m false made) s t }
{}

/// Turns one after another leave no more to do than before them, where no command puts a part.
pub fn turns_leave_no_more<C, T, A, E>()
    ensures goes_on { (speech : Speech C T A E) (scripts : List (List C)) (turns : List ℕ) (s : SessionState T A E) (l : LinkView) (t : SessionState T A E) (m : LinkView) → PutNone speech →
        MakesAll speech scripts turns s l t m → IsUnderWay s → IsWithinLimit t → IsUnderWay t }
    ensures nearer { (speech : Speech C T A E) (scripts : List (List C)) (turns : List ℕ) (s : SessionState T A E) (l : LinkView) (t : SessionState T A E) (m : LinkView) → PutNone speech →
        MakesAll speech scripts turns s l t m → IsUnderWay s → IsWithinLimit t → IsNearer scripts false s t }
{}
