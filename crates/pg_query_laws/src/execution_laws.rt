//! Executions as commands. The body does nothing.

ghost use Rattle.std.specs.Prelude.{◌≡◌, ◌≢◌, ◌<◌, ◌^◌, List, ℕ, [], ◌∷◌, None, Some, Ok, Err};
ghost use Rattle.pg_spec.specs.Faults.{Encode, Frame, ZeroByte};
ghost use Rattle.pg_desk.specs.declared.statement.Described.{Described};
ghost use Rattle.pg_execute.specs.Parameters as parameters;
ghost use Rattle.pg_query.specs.Scripts.{cleanup_of};
ghost use Rattle.pg_query.specs.declared.desk_call.Cleanup.TheVariants.{Post, Release};
ghost use Rattle.pg_core.specs.Examples.{booked, over};
ghost use Rattle.pg_core.specs.Lookups.{prepare};
ghost use Rattle.pg_core.specs.Prepares.{statement_name};
ghost use Rattle.pg_core.specs.LookupReplies.{described};
ghost use Rattle.pg_core.specs.Worlds.{new_desk};
ghost use Rattle.pg_execute.specs.Examples as example;
ghost use Rattle.pg_execute.specs.Executes.{close, close_part, closed_by, execute, on_text, posts, query, query_raw, query_scalar};
ghost use Rattle.pg_execute.specs.Parameters.{execute_request};
ghost use Rattle.pg_execute.specs.declared.how_many.HowMany as how_many;
ghost use Rattle.pg_query_laws.specs.Leavings.{left_behind, q_left_behind};
ghost use Rattle.pg_query_laws.specs.Taken.{IsTaken};

/// A statement that is executed with values, a text that is prepared, executed and closed, and a statement that is closed, are commands that
/// a session takes.
pub fn executions_are_commands()
    ensures queries { (how : how_many.HowMany) (s : Described) (vs : parameters.Params) → IsTaken (query how s vs) }
    ensures raw_queries { (take : ℕ) (s : Described) (vs : parameters.Params) → IsTaken (query_raw take s vs) }
    ensures scalars { (how : how_many.HowMany) (s : Described) (vs : parameters.Params) → IsTaken (query_scalar how s vs) }
    ensures executes { (s : Described) (vs : parameters.Params) → IsTaken (execute s vs) }
    ensures text_queries { (how : how_many.HowMany) (text : List ℕ) (vs : parameters.Params) → IsTaken (on_text (prepare text []) (λ s. query how s vs)) }
    ensures text_raw_queries { (take : ℕ) (text : List ℕ) (vs : parameters.Params) → IsTaken (on_text (prepare text []) (λ s. query_raw take s vs)) }
    ensures text_scalars { (how : how_many.HowMany) (text : List ℕ) (vs : parameters.Params) → IsTaken (on_text (prepare text []) (λ s. query_scalar how s vs)) }
    ensures text_executes { (text : List ℕ) (vs : parameters.Params) → IsTaken (on_text (prepare text []) (λ s. execute s vs)) }
    ensures closes { (s : Described) → IsTaken (close s) }
{}

/// The name of each statement that is prepared can be written, so that it is closed. Of another, a close that can't be written is Encode, and
/// books nothing.
pub fn closes_are_written()
    ensures prepared { (n : ℕ) → n < 2 ^ 32 → close_part (statement_name n) ≢ None }
    ensures books { booked (over new_desk (close example.of_one) []) ≡ example.close_s0 ∷ [] }
    ensures done { (over new_desk (close example.of_one) []).outcome.answer ≡ Some (Ok tt) }
    ensures refused { (over new_desk (close (record example.of_one { name = 0 ∷ [] })) []).outcome.answer ≡ Some (Err (Encode (Frame ZeroByte))) }
    ensures refused_books { booked (over new_desk (close (record example.of_one { name = 0 ∷ [] })) []) ≡ [] }
{}

/// What is left to do where an execution is given up: nothing before its first request; while a reply is read its request is hung up; and
/// behind that, the statement of a text is closed once it was prepared.
pub fn executions_are_given_up()
    ensures text_begins { (how : how_many.HowMany) (text : List ℕ) (vs : parameters.Params) → cleanup_of (on_text (prepare text []) (λ s. query how s vs)) ≡ [] }
    ensures begins { (how : how_many.HowMany) (s : Described) (vs : parameters.Params) → cleanup_of (query how s vs) ≡ [] }
    ensures reads { (how : how_many.HowMany) (s : Described) (vs : parameters.Params) (part : List ℕ) → execute_request s vs ≡ Ok part → left_behind [] (query how s vs) ≡ Release ∷ [] }
    ensures text_reads { (how : how_many.HowMany) (s : Described) (vs : parameters.Params) (part : List ℕ) → execute_request s vs ≡ Ok part →
        left_behind [] (closed_by (close_part s.name) (query how s vs)) ≡ Release ∷ posts (close_part s.name) }
    ensures raw_reads { (take : ℕ) (s : Described) (vs : parameters.Params) (part : List ℕ) → execute_request s vs ≡ Ok part → left_behind [] (query_raw take s vs) ≡ Release ∷ [] }
    ensures text_raw_reads { (take : ℕ) (s : Described) (vs : parameters.Params) (part : List ℕ) → execute_request s vs ≡ Ok part →
        left_behind [] (closed_by (close_part s.name) (query_raw take s vs)) ≡ Release ∷ posts (close_part s.name) }
    ensures prepares { q_left_behind [] ≡ Release ∷ [] }
    ensures looks_up { q_left_behind (described (90000 ∷ []) [] ∷ []) ≡ Release ∷ [] }
    ensures executes { q_left_behind (example.q_described ∷ []) ≡ Release ∷ Post example.close_s0 ∷ [] }
{}
