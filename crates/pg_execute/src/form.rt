//! What an execution answers of its reply.

ghost use Rattle.std.specs.Prelude.{◌≡◌, Bool, List, Option, Result};
ghost use Rattle.pg_types.specs.declared.error.Error.{Error};
ghost use Rattle.pg_spec.specs.RawMessages.{RawMessage};
ghost use Rattle.pg_desk.specs.declared.statement.Described.{Described};

use crate::count_reading::CountReading;
use crate::first_rows::FirstRows;
use crate::how_many::HowMany;
use crate::make::Make;
use crate::rows_reading::RowsReading;
use pg_desk::Statement;
use pg_query::Reading;
use std::alloc::Global;

/// What an execution answers of its reply.
pub trait Form: Drop {
    type Reading: Reading;

    ghost reads: { Self → Described → List RawMessage → Option (Result Self.Reading.Output Error) };

    /// The request is hung up at a value too.
    ghost stops: { Self → Bool };

    /// The value may stand before the end of the reply, so that the request is hung up behind it.
    fn stops_at_value(&self) -> bool
        ensures { result ≡ stops self.now };

    /// The reading of the reply of this statement. It takes no memory.
    fn reading(self, alloc: Global, statement: Statement) -> Self::Reading
        ensures { Self.Reading.reading result ≡ reads self statement };
}

/// Rows, of which there may be so many, and of which something is made.
#[derive(Clone, Copy, Drop)]
pub struct Query<M> {
    pub how_many: HowMany,
    pub make: M,
}

impl<M: Make> Form for Query<M> {
    ghost use Rattle.std.specs.Prelude.{false};
    ghost use Rattle.pg_execute.specs.Executes.{queried};

    type Reading = RowsReading<M>;

    ghost reads = { λ q. queried q.how_many (M.makes q.make) };

    ghost stops = { λ _. false };

    fn stops_at_value(&self) -> bool {
        false
    }

    fn reading(self, alloc: Global, statement: Statement) -> RowsReading<M> {
        RowsReading::new(alloc, statement, self.how_many, self.make)
    }
}

/// The first rows, so many of them or as many as there are, of which something is made. The rest isn't read.
#[derive(Clone, Copy, Drop)]
pub struct First<M> {
    pub take: u64,
    pub make: M,
}

impl<M: Make> Form for First<M> {
    ghost use Rattle.std.specs.Prelude.{true};
    ghost use Rattle.pg_execute.specs.Executes.{first_queried};

    type Reading = FirstRows<M>;

    ghost reads = { λ q. first_queried q.take (M.makes q.make) };

    ghost stops = { λ _. true };

    fn stops_at_value(&self) -> bool {
        true
    }

    fn reading(self, alloc: Global, statement: Statement) -> FirstRows<M> {
        FirstRows::new(alloc, statement, self.take, self.make)
    }
}

/// How many rows were affected.
#[derive(Clone, Copy, Drop)]
pub struct Count;

impl Form for Count {
    ghost use Rattle.std.specs.Prelude.{false};
    ghost use Rattle.pg_execute.specs.Counts.{count_read, nothing_counted};

    type Reading = CountReading;

    ghost reads = { λ _ s. count_read nothing_counted };

    ghost stops = { λ _. false };

    fn stops_at_value(&self) -> bool {
        false
    }

    fn reading(self, alloc: Global, statement: Statement) -> CountReading {
        CountReading::new()
    }
}
