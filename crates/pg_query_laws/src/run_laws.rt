//! What two runs of the same commands have in common, and what a run keeps of types. The body does nothing.

ghost use Rattle.std.specs.Prelude.{◌≡◌, ◌∷◌, ◌++◌, All, List, ℕ, Some};
ghost use Rattle.pg_spec.specs.Courses.{Asked, Course};
ghost use Rattle.pg_spec.specs.Meanings.{HasRun, Meaning};
ghost use Rattle.pg_types.specs.declared.pg_type.PgType.{PgType};
ghost use Rattle.pg_query.specs.declared.desk_call.DeskCall.{DeskCall};
ghost use Rattle.pg_query.specs.declared.desk_call.DeskCall.TheVariants.{TypeOf};
ghost use Rattle.pg_query.specs.declared.desk_call.Reply.{Reply};
ghost use Rattle.pg_query.specs.declared.desk_call.Reply.TheVariants as reply;
ghost use Rattle.pg_session.specs.Speeches.{BookWhole, Speech, meaning_of};
ghost use Rattle.pg_query_laws.specs.Kept.{EachAsked, IsOwn};
ghost use Rattle.pg_query_laws.specs.OneWay.{PutsNone};

/// What commands without parts that wait asked of the desk and were told, and what they answered, follows from the session's turns, requests
/// and replies: two runs that differ at most in these don't differ.
pub fn asked_in_one_way<C, A, E, Q, R>()
    ensures { (meaning : Meaning C A E Q R) → ((own : E) (c : C) → PutsNone meaning.tells (meaning.asks own c)) →
        (scripts : List (List C)) (turns : List ℕ) (answers others : List (List A)) (course : Course Q R) (other : List (Asked Q R)) →
        HasRun meaning scripts turns answers course → HasRun meaning scripts turns others (record course { asked = other }) → (other ≡ course.asked) × (others ≡ answers) }
{}

/// So it is of scripts whose commands book whole requests.
pub fn runs_of_whole_requests<C, T, A, E>()
    ensures { (speech : Speech C T A E) → BookWhole speech →
        (scripts : List (List C)) (turns : List ℕ) (answers others : List (List A)) (course : Course DeskCall Reply) (other : List (Asked DeskCall Reply)) →
        HasRun (meaning_of speech) scripts turns answers course → HasRun (meaning_of speech) scripts turns others (record course { asked = other }) → (other ≡ course.asked) × (others ≡ answers) }
{}

/// Where each command keeps types under their own oids, so does a session of them, and a type that it is told of an oid has that oid.
pub fn types_of_runs<C, T, A, E>()
    ensures kept { (speech : Speech C T A E) → ((own : E) (c : C) → EachAsked IsOwn (speech.says own c)) →
        (scripts : List (List C)) (turns : List ℕ) (answers : List (List A)) (course : Course DeskCall Reply) → HasRun (meaning_of speech) scripts turns answers course →
        All (λ a. IsOwn a.question) course.asked }
    ensures told { (speech : Speech C T A E) → ((own : E) (c : C) → EachAsked IsOwn (speech.says own c)) →
        (scripts : List (List C)) (turns : List ℕ) (answers : List (List A)) (course : Course DeskCall Reply) → HasRun (meaning_of speech) scripts turns answers course →
        (before rest : List (Asked DeskCall Reply)) (ask : Asked DeskCall Reply) (oid : ℕ) (ty : PgType) → course.asked ≡ before ++ ask ∷ rest →
        ask.question ≡ TypeOf oid → ask.reply ≡ reply.Type (Some ty) → ty.oid ≡ oid }
{}
