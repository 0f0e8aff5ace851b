//! That rows have the columns of their statement. The body does nothing.

ghost use Rattle.std.specs.Prelude.{◌≡◌, ℕ, List, [], Some, Ok};
ghost use Rattle.pg_spec.specs.RawMessages.{RawMessage};
ghost use Rattle.pg_desk.specs.declared.statement.Described.{Described};
ghost use Rattle.pg_execute.specs.Executes.{first_queried, queried, whole_rows};
ghost use Rattle.pg_execute.specs.ResultRows.{rows_behind, rows_with};
ghost use Rattle.pg_execute.specs.declared.how_many.HowMany.{HowMany};
ghost use Rattle.pg_execute.specs.declared.result_set.ResultSet.{ResultSet};

/// Each row that a query answers has as many cells as there are columns, and so has each of its first rows: they make rows, all of them.
pub fn rows_of_queries_have_their_columns()
    ensures all { (how : HowMany) (s : Described) (ms : List RawMessage) (set : ResultSet) → queried how whole_rows s ms ≡ Some (Ok set) →
        rows_behind set.statement.columns [] set.rows ≡ Ok (rows_with set.statement.columns set.rows) }
    ensures first { (take : ℕ) (s : Described) (ms : List RawMessage) (set : ResultSet) → first_queried take whole_rows s ms ≡ Some (Ok set) →
        rows_behind set.statement.columns [] set.rows ≡ Ok (rows_with set.statement.columns set.rows) }
{}
