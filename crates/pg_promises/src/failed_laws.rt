//! Laws over the definitions. Each body does nothing.

ghost use Rattle.std.specs.Prelude.{◌≡◌, ◌++◌, ℕ, IsFalse, List, Result, Some};
ghost use Rattle.std.specs.List.{concat};
ghost use Rattle.pg_spec.specs.Meanings.{Meaning};
ghost use Rattle.pg_spec.specs.Simples.{AreSimple};
ghost use Rattle.pg_promises.specs.FailedCauses.{HasCause};
ghost use Rattle.pg_promises.specs.Completeness.{AnswersAll, MustEndWell};
ghost use Rattle.pg_promises.specs.Kept.{NoneKeptBack};
ghost use Rattle.pg_promises.specs.FailedLanded.{TookNoFlush, call_of, has_flush};
ghost use Rattle.pg_promises.specs.Sent.{AllEnded, AreBegun, SentInOrder};
ghost use Rattle.pg_promises.specs.Landed.{simply};
ghost use Rattle.pg_promises.specs.Causes as causes;
ghost use Rattle.pg_promises.specs.Causes.{Call};
ghost use Rattle.pg_promises.specs.Promises as landed;
ghost use Rattle.pg_spec.specs.Faults.{Failure};
ghost use Rattle.pg_spec.specs.Links.{Plan};
ghost use Rattle.pg_spec.specs.Report.{Answer, Command, Report};
ghost use Rattle.pg_spec.specs.Settings.{Settings};

/// Requests as far as they were booked, each of which is ended, are the first ones, each whole.
pub fn ended_requests_are_whole()
    ensures { (begun all : List (List (List ℕ))) → AllEnded begun → AreBegun begun all → (more : List (List (List ℕ))) × (begun ++ more ≡ all) }
{}

/// What a session of simple queries alone sent where it failed, in order by the definition over any commands, is so by the one on
/// simple queries.
pub fn sent_of_simple_queries<E, Q, R>()
    ensures { (meaning : Meaning Command Answer E Q R) → AreSimple meaning simply → (call : Call) (s : Settings) (g t : List ℕ) →
        SentInOrder meaning (call_of call) s g t → landed.SentInOrder call s g t }
{}

/// Where no Flush was sent, a failure that has its cause by the definition over any commands has it by the one on simple queries.
pub fn causes_of_simple_queries()
    ensures { (call : Call) (failure : Failure) → TookNoFlush call → HasCause (call_of call) failure → causes.HasCause call failure }
{}

/// That no request is kept back, said of any commands, says so of simple queries.
pub fn none_kept_back_of_simple_queries<E, Q, R>()
    ensures { (meaning : Meaning Command Answer E Q R) → AreSimple meaning simply → (call : Call) (result : Result Report Failure) →
        NoneKeptBack meaning (call_of call) result → landed.NoneKeptBack call result }
{}

/// Where no Flush was sent, valid input to simple queries ends well, where that to any commands does: what conforms for simple queries
/// conforms for any commands.
pub fn simple_queries_must_end_well()
    ensures { (call : Call) (result : Result Report Failure) → ((taken : List ℕ) → call.after.taken ≡ Some taken → IsFalse (has_flush taken)) →
        MustEndWell (call_of call) result → landed.MustEndWell call result }
{}

/// A plan that answers what simple queries sent, whatever it was and without a Flush, answers all that any commands may ask which
/// are simple queries alone.
pub fn plans_of_simple_queries<E, Q, R>()
    ensures { (meaning : Meaning Command Answer E Q R) → AreSimple meaning simply → (call : Call) (s : Settings) (plan : Plan) (frames : ℕ) →
        ((taken : List ℕ) → landed.SentInOrder call s (concat plan.entries) taken → IsFalse (has_flush taken) × landed.AnswersRequests plan frames taken) →
        AnswersAll meaning (call_of call) s plan frames }
{}
