//! Rows, whose cells are read by place or by the name of their column.
#![tactic(auto)]

mod cells;
pub mod laws;
mod row;
mod row_cells;
mod row_index;
mod simple_column;
mod simple_row;
mod values;

pub use row::Row;
pub use row_cells::{CellIter, RowCells};
pub use row_index::RowIndex;
pub use simple_column::{SimpleColumn, SimpleColumns};
pub use simple_row::SimpleQueryRow;
