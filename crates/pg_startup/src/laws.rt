//! A law over the definitions: it shows what these mean. Its body does nothing.

ghost use Rattle.std.specs.Prelude.{ℕ, List};
ghost use Rattle.pg_spec.specs.Links.{LinkView};
ghost use Rattle.pg_spec.specs.Startup.{Login};
ghost use Rattle.pg_connect.specs.Histories.{Stands, new_history};
ghost use Rattle.pg_connect.specs.declared.streams.Streams.{Streams};
ghost use Rattle.pg_startup.specs.StartupPolls.{IsFresh};
ghost use Rattle.pg_startup.specs.Startups.{Opened};
ghost use Rattle.pg_startup.specs.declared.startup.Startup.{Startup};

/// The history of a connection begins behind its startup, whatever was given before that.
pub fn history_of_a_startup()
    ensures { (l : Login) (asked : ℕ) (begin now : LinkView) (s : Startup) (opening : List ℕ) (t : Streams) (done : Opened l asked begin now s) → IsFresh s opening t →
        Stands t begin now (new_history asked opening done.read) }
{}
