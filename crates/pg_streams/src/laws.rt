//! What the rows that are given one by one have to do with those of a typed query.

ghost use Rattle.std.specs.Prelude.{◌≡◌, ℕ, List};
ghost use Rattle.pg_types.specs.declared.pg_type.PgType.{PgType};
ghost use Rattle.pg_execute.specs.Parameters as parameters;
ghost use Rattle.pg_query.specs.Dialogue.{Dialogue};
ghost use Rattle.pg_execute.specs.Executes.{whole_rows};
ghost use Rattle.pg_execute.specs.Typed.{query_typed};
ghost use Rattle.pg_execute.specs.declared.how_many.HowMany as how_many;
ghost use Rattle.pg_streams.specs.TypedRaw.{query_typed_made};

/// The dialogue of a typed query is that of the rows that are given one by one, but for what is made of them.
pub fn streamed_rows_are_those_of_a_typed_query()
    ensures { (find : List ℕ → Dialogue (List PgType)) (how : how_many.HowMany) (text : List ℕ) (types : List PgType) (vs : parameters.Params) →
        query_typed_made whole_rows find how text types vs ≡ query_typed find how text types vs }
{}
