//! The rows that a query gave.

ghost use Rattle.std.specs.Prelude.{◌≡◌, ◌⊎◌, [], Err};
ghost use Rattle.pg_types.specs.declared.error.Error.TheVariants as error;
ghost use Rattle.pg_execute.specs.ResultRows.{rows_behind};

use crate::result_rows::rows_under;
use pg_desk::{Column, Statement};
use pg_errors::Error;
use pg_rows::{Row, RowCells};
use pg_types::List;
use std::alloc::Global;

/// The rows that a query gave, and the statement that they are rows of. They stand in the received bytes.
#[derive(Drop)]
pub struct ResultSet {
    pub(crate) statement: Statement,
    pub(crate) rows: List<RowCells>,
    pub(crate) affected: Option<u64>,
}

impl ResultSet {
    /// The columns of the rows.
    pub fn columns(&self) -> &[Column]
        ensures { result.now ≡ self.now.statement.columns }
    {
        self.statement.columns()
    }

    /// The rows, each as its cells.
    pub fn rows(&self) -> &List<RowCells>
        ensures { result.now ≡ self.now.rows }
    {
        &self.rows
    }

    /// How many rows the last command affected, where one ended.
    pub fn affected(&self) -> Option<u64>
        ensures { result ≡ self.now.affected }
    {
        self.affected
    }

    /// The rows, each with its columns: they share the statement. No cell is copied. OutOfMemory comes where there is no
    /// room for the list, or the statement has been copied too often to be counted; Parse where a row has another number
    /// of cells than there are columns, as no row of a query has.
    pub fn into_rows(self, alloc: Global) -> Result<List<Row>, Error>
        ensures { (result ≡ Err error.OutOfMemory) ⊎ (result ≡ rows_behind self.statement.columns [] self.rows) }
    {
        let ResultSet {
            statement,
            rows,
            affected: _,
        } = self;
        match rows_under(alloc, &statement, rows) {
            Ok(made) => made,
            Err(_) => Err(Error::OutOfMemory),
        }
    }

    /// The statement, and the rows as their cells.
    pub fn into_parts(self) -> (Statement, List<RowCells>)
        ensures { (result.0 ≡ self.statement) × (result.1 ≡ self.rows) }
    {
        let ResultSet {
            statement,
            rows,
            affected: _,
        } = self;
        (statement, rows)
    }
}
