//! Rows.

pub use pg_rows::{CellIter, Row, RowCells, RowIndex, SimpleColumn, SimpleColumns, SimpleQueryRow};
