//! Laws over the definitions. Each body does nothing.

ghost use Rattle.std.specs.Prelude.{◌≡◌, ℕ, List, [], ◌∷◌, Ok, codes};
ghost use Rattle.pg_spec.specs.Courses.{Course};
ghost use Rattle.pg_spec.specs.declared.stamps.Stamp.{Stamp};
ghost use Rattle.pg_spec.specs.Isolation.{IsByNames};
ghost use Rattle.pg_spec.specs.Meanings.{HasRun, Meaning};
ghost use Rattle.pg_promises.specs.Endings.{EndedWell, IsRun, Report, Session};
ghost use Rattle.pg_types.specs.declared.pg_type.PgType.{PgType};
ghost use Rattle.pg_execute.specs.Parameters.{Params};
ghost use Rattle.pg_table.specs.Examples.{b_as_s1, q_as_s0};
ghost use Rattle.pg_core.specs.Prepares.{prepare_request, statement_name};
ghost use Rattle.pg_execute.specs.Typed.{typed_request};
ghost use Rattle.pg_text.specs.declared.command.Answer.{Answer};
ghost use Rattle.pg_text.specs.declared.command.Command.{Command};
ghost use Rattle.pg_query.specs.declared.desk_call.DeskCall.{DeskCall};
ghost use Rattle.pg_query.specs.declared.desk_call.Reply.{Reply};
ghost use Rattle.pg_session.specs.Speeches.{Speech, meaning_of};
ghost use Rattle.pg_table.specs.Table.{table};
ghost use Rattle.pg_table.specs.FreshNames.{AreDistinct, parse_names, statement_names};
ghost use Rattle.pg_table.specs.KeptApart.{AreKeptApart};
ghost use Rattle.pg_table.specs.Names.{named};
ghost use Rattle.pg_table.specs.Reads.{AreIsolated, EachAnswers};
ghost use Rattle.pg_table.specs.Told.{DeskTells};

/// In a session of any commands each answered by what it read: what it booked, asked and answered is the outcome of its dialogue
/// on the replies to its own requests and on what its desk told it.
pub fn what_each_command_answered<C, A, E, Q, R>()
    ensures { (meaning : Meaning C A E Q R) (scripts : List (List C)) (turns : List ℕ) (answers : List (List A)) (course : Course Q R)
        (run : HasRun meaning scripts turns answers course) → EachAnswers run }
{}

/// In two sessions of any commands a command that read the same booked, asked and answered the same, whatever else they did.
pub fn isolation_of_runs<C, A, E, Q, R, N>()
    ensures { (meaning : Meaning C A E Q R) (named : C → E → N) → IsByNames meaning named →
        (scripts others : List (List C)) (turns more : List ℕ) (one two : List (List A)) (a b : Course Q R)
        (x : HasRun meaning scripts turns one a) (y : HasRun meaning others more two b) → AreIsolated named x y }
{}

/// What a command of the table names of what its script keeps decides all but what the script has then.
pub fn commands_go_by_names()
    ensures { IsByNames (meaning_of table) named }
{}

/// In a session of the table's commands that ended well, or has run, each answered by what it read.
pub fn answers_of_sessions()
    ensures ended_well { (s : Session Command Answer) (taken : List ℕ) (ended : EndedWell (meaning_of table) s taken) → EachAnswers ended.has_run }
    ensures over_any_link { (scripts : List (List Command)) (turns : List ℕ) (report : Report Answer)
        (ran : IsRun (meaning_of table) scripts turns report) → EachAnswers ran.has_run }
{}

/// In two sessions of the table's commands that ended well, or have run, a command that read the same did the same.
pub fn isolation_of_sessions()
    ensures ended_well { (s other : Session Command Answer) (taken sent : List ℕ)
        (x : EndedWell (meaning_of table) s taken) (y : EndedWell (meaning_of table) other sent) → AreIsolated named x.has_run y.has_run }
    ensures over_any_link { (scripts others : List (List Command)) (turns more : List ℕ) (one two : Report Answer)
        (x : IsRun (meaning_of table) scripts turns one) (y : IsRun (meaning_of table) others more two) → AreIsolated named x.has_run y.has_run }
{}

/// What the desk of a session of any commands told them of types, of the statements that look types up, and of numbers.
pub fn what_desks_tell<C, T, A, E>()
    ensures { (speech : Speech C T A E) (scripts : List (List C)) (turns : List ℕ) (answers : List (List A)) (course : Course DeskCall Reply)
        (run : HasRun (meaning_of speech) scripts turns answers course) → DeskTells course.asked }
{}

/// So did the desk of a session of the table's commands that ended well, or has run.
pub fn desks_of_sessions()
    ensures ended_well { (s : Session Command Answer) (taken : List ℕ) (ended : EndedWell (meaning_of table) s taken) → DeskTells ended.asked }
    ensures over_any_link { (scripts : List (List Command)) (turns : List ℕ) (report : Report Answer)
        (ran : IsRun (meaning_of table) scripts turns report) → DeskTells ran.asked }
{}

/// The request that prepares a text names one statement, by its number; a text in one request names none. Worked: two requests
/// name two statements, and one that went out twice isn't of distinct names.
pub fn names_in_requests()
    ensures prepared { (n : ℕ) (text oids part : List ℕ) → prepare_request n text oids ≡ Ok part → statement_names part ≡ statement_name n ∷ [] }
    ensures unnamed { (text : List ℕ) (types : List PgType) (values : Params) (part : List ℕ) → typed_request text types values ≡ Ok part → statement_names part ≡ [] }
    ensures two { (s : Stamp) → parse_names (record { stamp = s; parts = q_as_s0 ∷ [] } ∷ record { stamp = s; parts = b_as_s1 ∷ [] } ∷ []) ≡ codes "s0" ∷ codes "s1" ∷ [] }
    ensures twice { (s : Stamp) → AreDistinct (parse_names (record { stamp = s; parts = q_as_s0 ∷ [] } ∷ record { stamp = s; parts = q_as_s0 ∷ [] } ∷ [])) → ⊥ }
{}

/// The commands of a session of the table's that ended well, or has run, are kept apart: all of this, of one session.
pub fn commands_are_kept_apart()
    ensures ended_well { (s : Session Command Answer) (taken : List ℕ) (ended : EndedWell (meaning_of table) s taken) → AreKeptApart ended.has_run }
    ensures over_any_link { (scripts : List (List Command)) (turns : List ℕ) (report : Report Answer)
        (ran : IsRun (meaning_of table) scripts turns report) → AreKeptApart ran.has_run }
{}
