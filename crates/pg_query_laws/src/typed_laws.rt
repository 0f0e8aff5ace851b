//! Typed queries and executes as commands. The body does nothing.

ghost use Rattle.std.specs.Prelude.{List, ℕ};
ghost use Rattle.pg_types.specs.declared.pg_type.PgType as pg_type;
ghost use Rattle.pg_execute.specs.Parameters as parameters;
ghost use Rattle.pg_core.specs.Lookups.{find_all};
ghost use Rattle.pg_execute.specs.Typed.{execute_typed, query_typed};
ghost use Rattle.pg_execute.specs.declared.how_many.HowMany as how_many;
ghost use Rattle.pg_query_laws.specs.Taken.{IsTaken};

/// A text that is executed with values of given types, in one request, is a command that a session takes, with all that is asked for the
/// types of its columns.
pub fn typed_executions_are_commands()
    ensures queries { (how : how_many.HowMany) (text : List ℕ) (types : List pg_type.PgType) (vs : parameters.Params) → IsTaken (query_typed find_all how text types vs) }
    ensures executes { (text : List ℕ) (types : List pg_type.PgType) (vs : parameters.Params) → IsTaken (execute_typed text types vs) }
{}
