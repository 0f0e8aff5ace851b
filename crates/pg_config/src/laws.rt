//! What follows for every connection string.

ghost use Rattle.std.specs.Prelude.{◌≡◌, ℕ, List, Result};
ghost use Rattle.pg_spec.specs.Faults.{Cause};
ghost use Rattle.pg_config.specs.declared.config.Config.{Config};
ghost use Rattle.pg_config.specs.ConnectionStrings.{ConnectionStringMeans};

/// Each text means settings or has a first fault, and no text has two meanings.
pub fn one_meaning()
    ensures some { (text : List ℕ) → (said : Result Config Cause) × ConnectionStringMeans text said }
    ensures one { (text : List ℕ) (a b : Result Config Cause) → ConnectionStringMeans text a → ConnectionStringMeans text b → a ≡ b }
{}
