//! For what a command waits. The body does nothing.

ghost use Rattle.std.specs.Prelude.{ℕ, IfSome, List};
ghost use Rattle.pg_desk.specs.History.{State};
ghost use Rattle.pg_hub.specs.Fits.{Fits};
ghost use Rattle.pg_session.specs.HeldUp.{IsHeldUp};
ghost use Rattle.pg_session.specs.Speeches.{Speech};
ghost use Rattle.pg_session.specs.States.{SessionState};
ghost use Rattle.pg_session.specs.Turns.{HandleMade};
ghost use Rattle.pg_session.specs.declared.handle_turn.Polling.{Polling};

/// Behind a turn of a handle whose command runs, that lacks what it waits for: a message, or room for a part. So none
/// pauses where a message is there that it would read, or room for the part that it would put.
pub fn none_pauses_where_it_could_go_on<C, T, A, E>()
    ensures { (speech : Speech C T A E) (scripts : List (List C)) (turn : ℕ) (s t : SessionState T A E) (did : Polling) (state : State) →
        (made : HandleMade speech scripts turn s t did) → Fits state s.hub → IfSome made.new.running (IsHeldUp t.hub) }
{}
