//! What is proved of the words, as a law. Its body does nothing.

ghost use Rattle.std.specs.Prelude.{◌≡◌};
ghost use Rattle.pg_types.specs.declared.cause.Cause.{Cause};
ghost use Rattle.pg_diagnostics.specs.Words.{cause_words, place_of};

/// Each cause has its own words: two with the same words are the same, but for a text or the types that they hold.
pub fn causes_have_their_own_words()
    ensures { (a b : Cause) → cause_words a ≡ cause_words b → place_of a ≡ place_of b }
{}
