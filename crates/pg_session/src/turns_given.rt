//! How many turns what was sent gives the server. The body does nothing.

ghost use Rattle.std.specs.Prelude.{◌≡◌, ◌⊎◌, ℕ, ◌+◌, ◌≤◌, List, length};
ghost use Rattle.pg_promises.specs.Calls.{Call, apart};
ghost use Rattle.pg_promises.specs.Sent.{SentInOrder};
ghost use Rattle.pg_promises.specs.Causes.{NeedsNoTls, startup_after};
ghost use Rattle.pg_spec.specs.Settings.{Settings};
ghost use Rattle.pg_spec.specs.Sent.{turns_given, units, whole_units};
ghost use Rattle.pg_session.specs.Speeches.{BookWhole, Speech, meaning_of};

/// Where no TLS is required, what a session sent gives the server's turn at most once for each frame of the startup and once
/// for each request. Where a unit was sent whole, each frame of the startup gave a turn, and so did each unit.
pub fn what_was_sent_gives_few_turns<C, T, A, E>()
    ensures units { (speech : Speech C T A E) → BookWhole speech → (call : Call C) (settings : Settings) (g t : List ℕ) → NeedsNoTls settings → SentInOrder (meaning_of speech) call settings g t →
        turns_given t ≤ length (startup_after (apart call) settings g).frames + length (units t) }
    ensures whole { (speech : Speech C T A E) → BookWhole speech → (call : Call C) (settings : Settings) (g t : List ℕ) → NeedsNoTls settings → SentInOrder (meaning_of speech) call settings g t →
        (whole_units t ≡ 0) ⊎ (length (startup_after (apart call) settings g).frames + whole_units t ≤ turns_given t) }
{}
