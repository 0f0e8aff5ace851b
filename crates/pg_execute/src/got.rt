//! What was read of a reply.

ghost use Rattle.std.specs.Prelude.{◌≡◌};
ghost use Rattle.pg_execute.specs.Rows.{nothing_got};
ghost use Rattle.pg_execute.specs.Typed.{columns_came};

use pg_rows::RowCells;
use pg_types::List;
use std::alloc::Global;

/// What was read of a reply so far.
#[derive(Drop)]
pub struct Got {
    /// BindComplete came.
    pub bound: bool,
    pub rows: List<RowCells>,
    /// How many rows the last command affected, where one ended.
    pub affected: Option<u64>,
}

impl Got {
    /// Nothing yet. It takes no memory.
    pub fn nothing(alloc: Global) -> Got
        ensures { result ≡ nothing_got }
    {
        Got {
            bound: false,
            rows: List::empty(alloc),
            affected: None,
        }
    }

    /// BindComplete came, before the columns of the rows, and nothing else yet. It takes no memory.
    pub fn columns_came(alloc: Global) -> Got
        ensures { result ≡ columns_came }
    {
        Got {
            bound: true,
            rows: List::empty(alloc),
            affected: None,
        }
    }
}
