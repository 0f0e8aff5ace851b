//! Laws over the definitions: they show what these mean. Each body does nothing.

ghost use Rattle.std.specs.Prelude.{◌≡◌, ◌+◌, ◌-◌, ◌^◌, ◌<◌, ◌≤◌, ◌∷◌, [], List, ℕ, length, codes, IsTrue, None, Err};
ghost use Rattle.pg_spec.specs.Examples.{one_row};
ghost use Rattle.pg_config.specs.ConnectionStrings.{ConnectionStringMeans};
ghost use Rattle.pg_spec.specs.Faults.{Failure, OutOfMemory, InvalidValue, Syntax, UnknownOption};
ghost use Rattle.pg_spec.specs.Frames.{ssl_request};
ghost use Rattle.pg_spec.specs.RawMessages.{messages};
ghost use Rattle.pg_spec.specs.ReportText.{report_text};
ghost use Rattle.pg_spec.specs.Sent.{units, turns_given};
ghost use Rattle.pg_spec.specs.Settings.{only_user, Direct, Require, Settings};
ghost use Rattle.pg_spec.specs.Startup.{Done};
ghost use Rattle.pg_promises.specs.Causes.{Behind, Call, InStartup, IsStalled, OutOfTurn};
ghost use Rattle.pg_promises.specs.ConnectionStrings.{Means};
ghost use Rattle.pg_promises.specs.EndedWell.{EndedWell, startup_of, replies};
ghost use Rattle.pg_promises.specs.Examples.{select_one, select_one_sent, select_one_text, two_clients, two_clients_sent, exchanged, asked, good_plan, broken_plan, hasty_plan, login_plan, with_password, with_password_sent, three_commands, three_sent, early_reply, booked_later, one_for_two, synced_first, notice_left_out, first_value, bad_header, report_skipped, asked_so};
ghost use Rattle.pg_promises.specs.Promises.{IsFront, IsValid, Conforms, MustEndWell, SentInOrder};

/// Where a session stalled over a steady link, its two counts are one call that wasn't ready apart, and one more such call
/// came behind them.
pub fn counts_of_a_stall()
    ensures { (call : Call) (before after : ℕ) → IsStalled call before after → IsTrue call.before.steady →
        call.before.lulls < 2 ^ 64 - 1 → call.after.quiet < 2 ^ 64 - 1 → (call.after.quiet ≡ after + 1) × (after ≡ before + 1) }
{}

/// What these connection strings say: a user alone, in both forms and whatever they say of a host and its port; no
/// user; a user and a database; and the first fault.
pub fn worked_strings()
    ensures user { Means (codes "user=postgres") (only_user (codes "postgres")) }
    ensures keys { Means (codes "host=localhost port=5432 user=postgres") (only_user (codes "postgres")) }
    ensures url { Means (codes "postgres://postgres@localhost:5432") (only_user (codes "postgres")) }
    ensures no_user { (s : Settings) → Means (codes "host=localhost") s → s.user ≡ None }
    ensures database { (s : Settings) → Means (codes "postgres://postgres@/x") s → s.database ≡ Some (codes "x") }
    ensures no_value { ConnectionStringMeans (codes "user") (Err Syntax) }
    ensures unknown_key { ConnectionStringMeans (codes "a=b") (Err (UnknownOption (codes "a"))) }
    ensures no_port { ConnectionStringMeans (codes "postgres://postgres@localhost:x") (Err (InvalidValue (codes "port"))) }
{}

/// The session around it meets the main theorem, and its report prints so.
pub fn worked_session()
    ensures started { (startup_of select_one).outcome ≡ Done 2 }
    ensures replies { replies select_one ≡ messages one_row ∷ [] }
    ensures units { length (units select_one_sent) ≡ 2 }
    ensures turns { turns_given select_one_sent ≡ 2 }
    ensures ended { EndedWell select_one select_one_sent }
    ensures text { report_text select_one.report ≡ select_one_text }
{}

/// Two clients in given turns meet it too, and not with their answers exchanged.
pub fn worked_turns()
    ensures ended { EndedWell two_clients two_clients_sent }
    ensures not_exchanged { EndedWell exchanged two_clients_sent → ⊥ }
{}

/// A client with a refused text, a reply of which nothing is wanted, and an error meets it too.
pub fn worked_three()
    ensures { EndedWell three_commands three_sent }
{}

/// None of these ends well: a reply that came before its request, a request booked in a later turn than
/// its command's first, one request for two texts, a Sync before the query, a notice that is left out, the
/// first value of a parameter that was reported twice, a bad header behind the last reply, and a parameter report
/// that breaks its layout and is skipped.
pub fn worked_refused()
    ensures not_early { EndedWell early_reply three_sent → ⊥ }
    ensures not_later { EndedWell booked_later select_one_sent → ⊥ }
    ensures not_shared { EndedWell one_for_two two_clients_sent → ⊥ }
    ensures not_synced { EndedWell select_one synced_first → ⊥ }
    ensures not_left_out { EndedWell notice_left_out select_one_sent → ⊥ }
    ensures not_first_value { EndedWell first_value select_one_sent → ⊥ }
    ensures not_bad_header { EndedWell bad_header select_one_sent → ⊥ }
    ensures not_skipped { EndedWell report_skipped select_one_sent → ⊥ }
{}

/// A plan of one startup and one reply is a conforming server's, whatever the client sends that gives it
/// two turns at most, and so is one of a password, a startup and a reply, with three turns at most; over the first no fixed answer keeps the promise that valid input ends well, but want of
/// memory. A plan isn't one with a parameter report that breaks its layout, nor where the reply to a
/// password comes before the password.
pub fn worked_plans()
    ensures valid { IsValid (asked good_plan) (only_user (codes "a")) good_plan }
    ensures conforms { (taken : List ℕ) → turns_given taken ≤ 2 → Conforms (asked good_plan) (only_user (codes "a")) good_plan taken }
    ensures logs_in { (taken : List ℕ) → turns_given taken ≤ 3 → Conforms (asked login_plan) with_password login_plan taken }
    ensures only_memory { (failure : Failure) (taken : List ℕ) → turns_given taken ≤ 2 →
        MustEndWell (asked_so good_plan taken) (Err failure) → failure ≡ OutOfMemory }
    ensures not_broken { Conforms (asked broken_plan) (only_user (codes "a")) broken_plan select_one_sent → ⊥ }
    ensures not_hasty { Conforms (asked hasty_plan) with_password hasty_plan with_password_sent → ⊥ }
{}

/// Where TLS is required a session that failed sent a front of the SSLRequest and nothing else, and nothing where TLS
/// begins at once; and it failed for nothing that a startup says, nor a message behind one.
pub fn what_crosses_where_tls_is_required()
    ensures asks { (call : Call) (s : Settings) (g t : List ℕ) → s.ssl_mode ≡ Require → SentInOrder call s g t → IsFront t ssl_request }
    ensures nothing { (call : Call) (s : Settings) (g t : List ℕ) → s.ssl_mode ≡ Require → s.ssl_negotiation ≡ Direct → SentInOrder call s g t → t ≡ [] }
    ensures no_startup { (failure : Failure) (call : Call) (s : Settings) (g : List ℕ) → s.ssl_mode ≡ Require → InStartup failure call s g → ⊥ }
    ensures none_behind { (failure : Failure) (call : Call) (s : Settings) (g t : List ℕ) → s.ssl_mode ≡ Require →
        Behind call s g (OutOfTurn failure t) → ⊥ }
{}
