//! What commands do to the types that the desk keeps, and how types are found. The body does nothing.

ghost use Rattle.std.specs.Prelude.{◌≡◌, ◌⊎◌, All, IsSome, List, [], ℕ, Some, Ok};
ghost use Rattle.pg_spec.specs.Courses.{Met};
ghost use Rattle.pg_types.specs.BuiltIns.{built_in_type};
ghost use Rattle.pg_types.specs.declared.pg_type.PgType as pg_type;
ghost use Rattle.pg_execute.specs.Parameters as parameters;
ghost use Rattle.pg_desk.specs.declared.statement.Described.{Described};
ghost use Rattle.pg_query.specs.Dialogue.{Dialogue};
ghost use Rattle.pg_query.specs.declared.desk_call.DeskCall.TheVariants.{ClearTypes};
ghost use Rattle.pg_query.specs.declared.desk_call.Reply.{Reply};
ghost use Rattle.pg_core.specs.Lookups.{clear, find, find_all, prepare};
ghost use Rattle.pg_execute.specs.Executes.{close, execute, on_text, query, query_raw, query_scalar};
ghost use Rattle.pg_execute.specs.Typed.{execute_typed, query_typed};
ghost use Rattle.pg_execute.specs.declared.how_many.HowMany as how_many;
ghost use Rattle.pg_query_laws.specs.Kept.{AreFound, EachAsked, IsNoClear, IsOwn, KeepsByLookups, KeepsTypes, LastFinds, comes_of, told_in, under_way};

/// A lookup and each of these commands but a clear keeps each type under the type's own oid, and drops none. A clear asks for that alone.
pub fn types_are_kept_by_their_oids()
    ensures finds { (more : ℕ) (busy : List ℕ) (oid : ℕ) → KeepsTypes (find more busy oid) }
    ensures finds_all { (oids : List ℕ) → KeepsTypes (find_all oids) }
    ensures prepares { (text oids : List ℕ) → KeepsTypes (prepare text oids) }
    ensures queries { (how : how_many.HowMany) (s : Described) (vs : parameters.Params) → KeepsTypes (query how s vs) }
    ensures raw_queries { (take : ℕ) (s : Described) (vs : parameters.Params) → KeepsTypes (query_raw take s vs) }
    ensures scalars { (how : how_many.HowMany) (s : Described) (vs : parameters.Params) → KeepsTypes (query_scalar how s vs) }
    ensures executes { (s : Described) (vs : parameters.Params) → KeepsTypes (execute s vs) }
    ensures text_queries { (how : how_many.HowMany) (text : List ℕ) (vs : parameters.Params) → KeepsTypes (on_text (prepare text []) (λ s. query how s vs)) }
    ensures text_raw_queries { (take : ℕ) (text : List ℕ) (vs : parameters.Params) → KeepsTypes (on_text (prepare text []) (λ s. query_raw take s vs)) }
    ensures text_scalars { (how : how_many.HowMany) (text : List ℕ) (vs : parameters.Params) → KeepsTypes (on_text (prepare text []) (λ s. query_scalar how s vs)) }
    ensures text_executes { (text : List ℕ) (vs : parameters.Params) → KeepsTypes (on_text (prepare text []) (λ s. execute s vs)) }
    ensures closes { (s : Described) → KeepsTypes (close s) }
    ensures typed_queries { (how : how_many.HowMany) (text : List ℕ) (types : List pg_type.PgType) (vs : parameters.Params) → KeepsTypes (query_typed find_all how text types vs) }
    ensures typed_executes { (text : List ℕ) (types : List pg_type.PgType) (vs : parameters.Params) → KeepsTypes (execute_typed text types vs) }
    ensures clears { EachAsked (λ q. q ≡ ClearTypes) clear }
{}

/// So whatever a dialogue meets, each type that it keeps has the oid under which it is kept, and it drops none.
pub fn all_that_is_kept<T>()
    ensures own { (d : Dialogue T) → EachAsked IsOwn d → (met : Met Reply) → All IsOwn (comes_of d met).asked }
    ensures clears_nothing { (d : Dialogue T) → EachAsked IsNoClear d → (met : Met Reply) → All IsNoClear (comes_of d met).asked }
{}

/// A type that a lookup answers is built-in, or is what the desk told at its last question: the type that it keeps of that oid, or the one
/// of that oid that it was to keep, and handed back. So each of several oids.
pub fn types_are_found()
    ensures finds { (more : ℕ) (busy : List ℕ) (oid : ℕ) (met : Met Reply) (ty : pg_type.PgType) → (comes_of (find more busy oid) met).answer ≡ Some (Ok ty) →
        (built_in_type oid ≡ Some ty) ⊎ LastFinds oid ty (told_in (find more busy oid) met) }
    ensures finds_all { (oids : List ℕ) (met : Met Reply) (types : List pg_type.PgType) → (comes_of (find_all oids) met).answer ≡ Some (Ok types) → AreFound oids types (told_in (find_all oids) met) }
{}

/// A type is kept only where it ends the innermost lookup under way, which began where the desk was asked for a type of that oid and kept none;
/// where a lookup or a prepare answers a value each has ended so. A typed query asks for types before it looks any up.
pub fn types_are_kept_by_lookups()
    ensures finds { (more : ℕ) (busy : List ℕ) (oid : ℕ) (met : Met Reply) → KeepsByLookups (find more busy oid) met }
    ensures finds_all { (oids : List ℕ) (met : Met Reply) → KeepsByLookups (find_all oids) met }
    ensures prepares { (text oids : List ℕ) (met : Met Reply) → KeepsByLookups (prepare text oids) met }
    ensures typed_queries { (how : how_many.HowMany) (text : List ℕ) (types : List pg_type.PgType) (vs : parameters.Params) (met : Met Reply) →
        IsSome (under_way [] (told_in (query_typed find_all how text types vs) met)) }
{}
