//! The lookups of types as commands. The body does nothing.

ghost use Rattle.std.specs.Prelude.{List, ℕ};
ghost use Rattle.pg_core.specs.Times.{IsCommand};
ghost use Rattle.pg_core.specs.Lookups.{clear, prepare};
ghost use Rattle.pg_query.specs.Leaving.{LetsGo, Nothing};
ghost use Rattle.pg_session.specs.Speeches.{BooksWhole};

/// A text that is prepared, with all that is asked for its types, and a clear are commands that a session takes: their readings decide by
/// the ReadyForQuery, they hang up and read as the laws on sessions ask, each request is whole, its last frame alone gives the server the
/// turn, and is let go.
pub fn lookups_are_commands()
    ensures prepares { (text oids : List ℕ) → IsCommand (prepare text oids) }
    ensures prepares_whole { (text oids : List ℕ) → BooksWhole (prepare text oids) }
    ensures prepares_and_lets_go { (text oids : List ℕ) → LetsGo Nothing (prepare text oids) }
    ensures clears { IsCommand clear }
    ensures clears_whole { BooksWhole clear }
    ensures clears_and_lets_go { LetsGo Nothing clear }
{}
