//! Portals as commands. The bodies do nothing.

ghost use Rattle.std.specs.Prelude.{◌≡◌, Bool, ℕ, ℤ, List, [], ◌∷◌, Ok};
ghost use Rattle.pg_desk.specs.declared.statement.Described.{Described};
ghost use Rattle.pg_query.specs.declared.desk_call.Cleanup.TheVariants.{Release};
ghost use Rattle.pg_core.specs.Lookups.{prepare};
ghost use Rattle.pg_execute.specs.Closings.{closed_as};
ghost use Rattle.pg_execute.specs.Executes.{close_part, posts};
ghost use Rattle.pg_execute.specs.declared.closes.Closing.TheVariants.{AtError};
ghost use Rattle.pg_execute.specs.Parameters as parameters;
ghost use Rattle.pg_execute.specs.declared.target.Target as target;
ghost use Rattle.pg_portals.specs.Portals.{bind, binds, close_portal, query_portal};
ghost use Rattle.pg_portals.specs.Requests.{bind_request, portal_request};
ghost use Rattle.pg_portals.specs.declared.portal.Portal as portal;
ghost use Rattle.pg_query_laws.specs.Leavings.{left_behind};
ghost use Rattle.pg_query_laws.specs.Taken.{IsTaken};

/// A portal that is bound, of a statement or of a text that is prepared before, its rows that are queried, and a portal that is closed, are
/// commands that a session takes.
pub fn portals_are_commands()
    ensures binds { (closes : Bool) (vs : parameters.Params) (s : Described) → IsTaken (binds closes vs s) }
    ensures targets { (t : target.Target) (vs : parameters.Params) → IsTaken (bind (λ text. prepare text []) t vs) }
    ensures queries { (p : portal.Portal) (max_rows : ℤ) → IsTaken (query_portal p max_rows) }
    ensures closes { (p : portal.Portal) → IsTaken (close_portal p) }
{}

/// What is left to do where a bind or a query of rows is given up while its reply is read: its request is hung up, and behind that the statement
/// of a text is closed.
pub fn portals_are_given_up()
    ensures binds { (closes : Bool) (vs : parameters.Params) (s : Described) (part : List ℕ) → bind_request 0 s vs ≡ Ok part → left_behind [] (binds closes vs s) ≡ Release ∷ [] }
    ensures text_binds { (closes : Bool) (vs : parameters.Params) (s : Described) (part : List ℕ) → bind_request 0 s vs ≡ Ok part →
        left_behind [] (closed_as AtError (close_part s.name) (binds closes vs s)) ≡ Release ∷ posts (close_part s.name) }
    ensures queries { (p : portal.Portal) (max_rows : ℤ) (part : List ℕ) → portal_request p.number max_rows ≡ Ok part → left_behind [] (query_portal p max_rows) ≡ Release ∷ [] }
{}
