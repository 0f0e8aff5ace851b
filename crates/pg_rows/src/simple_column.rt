//! The columns of the rows of a simple query.

ghost use Rattle.std.specs.Prelude.{◌≡◌, IfOk};

use pg_types::{List, OutOfMemory, Text};
use std::alloc::Global;
use std::marker::Model;
use std::sync::Arc;

/// A column of the rows that a simple query gives.
#[derive(Debug, Drop, PartialEq, Eq)]
pub struct SimpleColumn {
    name: Text,
}

impl SimpleColumn {
    /// A column of this name.
    pub fn new(name: Text) -> SimpleColumn
        ensures { result ≡ record { name = name } }
    {
        SimpleColumn { name }
    }

    /// The name.
    pub fn name(&self) -> &str
        ensures { result.now ≡ self.now.name }
    {
        self.name.as_str()
    }
}

/// The columns of rows, which each of them shares.
#[derive(Drop)]
pub struct SimpleColumns {
    columns: Arc<List<SimpleColumn>, Global>,
}

impl Model for SimpleColumns {
    ghost use Rattle.std.specs.Prelude as prelude;
    ghost use Rattle.std.specs.Arc.{arc_value};
    ghost use Rattle.pg_rows.specs.declared.simple_column.SimpleColumn as seen;

    ghost Value = { prelude.List seen.SimpleColumn };

    ghost view = { λ s. arc_value s.columns };
}

impl SimpleColumns {
    /// These columns.
    pub fn new(alloc: Global, columns: List<SimpleColumn>) -> Result<SimpleColumns, OutOfMemory>
        ensures { IfOk result (λ s. s ≡ columns) }
    {
        match Arc::new(alloc, columns) {
            Ok(columns) => Ok(SimpleColumns { columns }),
            Err(_) => Err(OutOfMemory),
        }
    }

    /// The columns, in order.
    pub fn as_slice(&self) -> &[SimpleColumn]
        ensures { result.now ≡ self.now }
    {
        self.columns.as_slice()
    }

    /// The same columns. It takes no memory; OutOfMemory comes where they have been copied too often to be counted.
    pub fn copy(&self) -> Result<SimpleColumns, OutOfMemory>
        ensures { IfOk result (λ s. s ≡ self.now) }
    {
        match Arc::try_clone(&self.columns) {
            Ok(columns) => Ok(SimpleColumns { columns }),
            Err(_) => Err(OutOfMemory),
        }
    }
}
