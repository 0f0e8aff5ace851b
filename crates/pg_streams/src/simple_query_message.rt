//! The parts of the reply to a simple query.

use pg_rows::{SimpleColumns, SimpleQueryRow};

/// A part of the reply to a simple query (PostgreSQL documentation, "Simple Query").
#[derive(Drop)]
pub enum SimpleQueryMessage {
    /// A row, under the columns that were described last.
    Row(SimpleQueryRow),
    /// A command ended, and affected so many rows; an empty one affected none.
    CommandComplete(u64),
    /// The columns of the rows that follow.
    RowDescription(SimpleColumns),
}
