//! Prepared statements, and which of them look types up.

ghost use Rattle.std.specs.Prelude.{◌≡◌, IfOk};

use crate::column::Column;
use pg_types::{List, OutOfMemory, Text, Type};
use std::alloc::Global;
use std::fmt;
use std::marker::Model;
use std::sync::Arc;

/// Which of the statements that look types up in the server's catalog.
#[derive(Clone, Copy, Debug, PartialEq, Eq, Drop)]
pub enum Lookup {
    /// A type's own row.
    Info,
    /// The labels of an enumeration.
    Enum,
    /// The fields of a composite type.
    Composite,
}

/// What is known of a prepared statement.
#[derive(Debug, Drop, PartialEq, Eq)]
pub struct Described {
    name: Text,
    params: List<Type>,
    columns: List<Column>,
}

/// A prepared statement (PostgreSQL documentation, "Extended Query"): its name at the server, and what the
/// server said of it. Copies share it, and closing one closes all.
#[derive(Drop)]
pub struct Statement {
    described: Arc<Described, Global>,
}

impl Model for Statement {
    ghost use Rattle.std.specs.Arc.{arc_value};
    ghost use Rattle.pg_desk.specs.declared.statement.Described as seen;
    ghost use Rattle.pg_types.specs.contracts.pg_type.PgType as pg_type;
    ghost use Rattle.std.specs.Coded.{codes};

    ghost Value = { seen.Described };

    ghost coded = { Prim.hlevel (codes, pg_type.the_row.coded) };

    ghost view = { λ s. arc_value s.described };
}

impl Statement {
    /// A statement of this name, with these parameters and columns.
    pub fn new(
        alloc: Global,
        name: Text,
        params: List<Type>,
        columns: List<Column>,
    ) -> Result<Statement, OutOfMemory>
        ensures { IfOk result (λ s. s ≡ record { name = name; params = params; columns = columns }) }
    {
        let described = Described {
            name,
            params,
            columns,
        };
        match Arc::new(alloc, described) {
            Ok(described) => Ok(Statement { described }),
            Err(_) => Err(OutOfMemory),
        }
    }

    /// The name at the server.
    pub fn name(&self) -> &str
        ensures { result.now ≡ self.now.name }
    {
        self.described.name.as_str()
    }

    /// The types of the parameters, in order.
    pub fn params(&self) -> &[Type]
        ensures { result.now ≡ self.now.params }
    {
        self.described.params.as_slice()
    }

    /// The columns of its rows, in order; none where it gives no rows.
    pub fn columns(&self) -> &[Column]
        ensures { result.now ≡ self.now.columns }
    {
        self.described.columns.as_slice()
    }

    /// An equal statement, which stands for the same one at the server. It takes no memory; OutOfMemory
    /// comes where it has been copied too often to be counted.
    pub fn copy(&self) -> Result<Statement, OutOfMemory>
        ensures { IfOk result (λ s. s ≡ self.now) }
    {
        match Arc::try_clone(&self.described) {
            Ok(described) => Ok(Statement { described }),
            Err(_) => Err(OutOfMemory),
        }
    }
}

impl fmt::Debug for Statement {
    fn fmt<W: fmt::Write>(&self, f: &mut fmt::Formatter<W>) -> fmt::Result {
        f.debug_struct("Statement")
            .field("name", &self.name())
            .field("params", &self.params())
            .field("columns", &self.columns())
            .finish()
    }
}
