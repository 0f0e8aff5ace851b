//! Where a session has nothing to fail for. The body does nothing.

ghost use Rattle.std.specs.Prelude.{ℕ, List, Err, Result, ⊤, ◌≡◌};
ghost use Rattle.pg_promises.specs.Calls as any;
ghost use Rattle.pg_promises.specs.Completeness as any_commands;
ghost use Rattle.pg_promises.specs.Sent.{SentInOrder};
ghost use Rattle.pg_promises.specs.Causes.{Call, HasCause, OfDialogue, WithSettings};
ghost use Rattle.pg_spec.specs.Settings.{Settings};
ghost use Rattle.pg_promises.specs.ConnectionStrings.{Means};
ghost use Rattle.pg_spec.specs.Faults.{Failure};
ghost use Rattle.pg_spec.specs.Links.{Plan};
ghost use Rattle.pg_promises.specs.Promises.{Conforms, EndsWell, IsValid};
ghost use Rattle.pg_session.specs.Speeches.{BookWhole, Speech, meaning_of};
ghost use Rattle.pg_wire.specs.LinkCalls.{Continues, Tells};
ghost use Rattle.pg_session.specs.Course.{HoldsCourse};

/// Over a link that conforms and held its course, no failure of a session with valid input has a cause, but want of
/// memory.
pub fn what_may_fail_over_a_link_that_conforms()
    ensures { (call : Call) (settings : Settings) (plan : Plan) (given taken : List ℕ) (failure : Failure) → Means call.config settings →
        IsValid call settings plan → Conforms call settings plan taken → HoldsCourse call settings plan given taken →
        HasCause call failure → EndsWell (Err failure) }
{}

/// Where a session failed for a cause, and what it sent is in order, it failed for want of memory if its input was valid and
/// its link conforms.
pub fn valid_input_ends_well<C, T, A, E>()
    ensures { (speech : Speech C T A E) → BookWhole speech → (call : any.Call C) (failure : Failure) (result : Result T Failure) → Tells call.before → Tells call.after → Continues call.before call.after →
        (WithSettings (any.apart call) (λ s. ⊤) → OfDialogue (any.apart call) (λ s g t. SentInOrder (meaning_of speech) call s g t)) → HasCause (any.apart call) failure →
        result ≡ Err failure → any_commands.MustEndWell call result }
{}
