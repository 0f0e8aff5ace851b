//! What finds types.

ghost use Rattle.std.specs.Prelude.{◌≡◌, ◌≤◌, ℕ, List, IfOk};
ghost use Rattle.pg_types.specs.declared.pg_type.PgType.{PgType};
ghost use Rattle.pg_query.specs.Dialogue.{Dialogue};

use pg_query::Script;
use pg_types::{List, Oid, Type};
use std::alloc::{AllocError, Global};
use std::collections::VecDeque;

/// A way to find types by their oids.
pub trait Finder: Drop {
    type Search: Script<Output = List<Type>>;

    /// What is asked for these oids, and the types that are answered, in their order.
    ghost finds: { Self → List ℕ → Dialogue (List PgType) };

    /// The steps of each search are at most these.
    ghost most: { Self → ℕ };

    /// The search for these oids. Its error is want of memory.
    fn find(self, alloc: Global, oids: VecDeque<Oid>) -> Result<Self::Search, AllocError>
        ensures finds { IfOk result (λ search. Self.Search.dialogue search ≡ finds self oids.items) }
        ensures most { IfOk result (λ search. Self.Search.steps search ≤ most self) };
}
