//! What the server says of a statement that it prepared.

ghost use Rattle.std.specs.Prelude.{◌≡◌, ◌++◌, map, IfOk, OnOk};
ghost use Rattle.pg_core.specs.Descriptions as spec;
ghost use Rattle.pg_core.specs.Prepares.{column_of};

use pg_desk::Column;
use pg_types::{List, Oid, Text, Type};
use std::alloc::{AllocError, Global};
use std::collections::VecDeque;
use std::marker::Model;

/// A column as the server described it, without its type (PostgreSQL documentation, "Message Formats",
/// under RowDescription).
#[derive(Drop)]
pub struct NewColumn {
    pub(crate) name: Text,
    pub(crate) table_oid: Oid,
    pub(crate) column_id: i16,
    pub(crate) type_oid: Oid,
    pub(crate) type_size: i16,
    pub(crate) type_modifier: i32,
    pub(crate) format: i16,
}

impl Model for NewColumn {
    ghost use Rattle.pg_spec.specs.Bodies as bodies;

    ghost Value = { bodies.Field };

    ghost view = { λ c. record { name = c.name; table_oid = c.table_oid; column_id = c.column_id; type_oid = c.type_oid; type_size = c.type_size; type_modifier = c.type_modifier; format = c.format } };
}

impl NewColumn {
    /// The oid of its type.
    pub fn type_oid(&self) -> Oid
        ensures { result ≡ self.now.type_oid }
    {
        self.type_oid
    }

    /// The column, of its type.
    pub(crate) fn of_type(self, type_: Type) -> Column
        ensures { result ≡ column_of self type_ }
    {
        Column::new(
            self.name,
            self.table_oid,
            self.column_id,
            self.type_modifier,
            type_,
        )
    }
}

/// The types of a statement's parameters, by their oids, and its columns.
#[derive(Drop)]
pub struct Description {
    pub(crate) params: List<Oid>,
    pub(crate) columns: List<NewColumn>,
}

impl Model for Description {
    ghost use Rattle.pg_core.specs.Descriptions as described;

    ghost Value = { described.Description };

    ghost view = { λ d. record { params = d.params; columns = d.columns } };
}

impl Description {
    /// The oids whose types are to be found: of the parameters, then of the columns.
    pub(crate) fn oids(&self, alloc: Global) -> Result<VecDeque<Oid>, AllocError>
        ensures { IfOk result (λ oids. oids.items ≡ spec.oids_in self.now) }
    {
        let mut oids = VecDeque::new(alloc);
        self.add_params(&mut oids)?;
        self.add_columns(&mut oids)?;
        Ok(oids)
    }

    fn add_params(&self, oids: &mut VecDeque<Oid>) -> Result<(), AllocError>
        ensures { OnOk result (oids.new.items ≡ oids.old.items ++ self.now.params) }
    {
        for oid in self.params.as_slice() {
            oids.push_back(*oid)?;
        }
        Ok(())
    }

    fn add_columns(&self, oids: &mut VecDeque<Oid>) -> Result<(), AllocError>
        ensures { OnOk result (oids.new.items ≡ oids.old.items ++ map (λ f. f.type_oid) self.now.columns) }
    {
        for column in self.columns.as_slice() {
            oids.push_back(column.type_oid)?;
        }
        Ok(())
    }
}

/// A statement that the server described, by its number and without its types.
#[derive(Drop)]
pub struct NewStatement {
    pub(crate) number: u32,
    pub(crate) described: Description,
}

impl Model for NewStatement {
    ghost use Rattle.pg_core.specs.Prepares as prepares;

    ghost Value = { prepares.NewStatement };

    ghost view = { λ s. record { number = s.number; described = s.described } };
}
