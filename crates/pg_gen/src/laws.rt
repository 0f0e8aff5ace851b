//! Laws of generated sessions, proved. Each body does nothing.

ghost use Rattle.std.specs.Prelude.{◌≡◌, ℕ};
ghost use Rattle.pg_promises.specs.Causes.{Call};
ghost use Rattle.pg_promises.specs.Promises.{requests_in};
ghost use Rattle.pg_gen.specs.Examples.{two_answered, two_replies, two_scripts, two_summed};
ghost use Rattle.pg_gen.specs.Generated.{IsCount, generated};
ghost use Rattle.pg_gen.specs.Laws.{IsCallOf, IsWellMade};
ghost use Rattle.pg_gen.specs.Summaries.{summary_text};

/// A generated session asks one request for each of its commands; it is valid input, and its plan is what
/// a server that conforms gives it.
pub fn generated_is_well_made()
    ensures requests { (n seed : ℕ) → IsCount n → requests_in (generated n seed).scripts ≡ n }
    ensures well_made { (n seed : ℕ) (call : Call) → IsCount n → IsCallOf call (generated n seed) → IsWellMade call (generated n seed) }
{}

/// The session of two commands from the seed 0, and what a report on it comes to.
pub fn worked_two()
    ensures plan { (generated 2 0).plan ≡ two_replies }
    ensures scripts { (generated 2 0).scripts ≡ two_scripts }
    ensures summary { summary_text two_answered ≡ two_summed }
{}
