//! The columns of the rows that a statement gives.

ghost use Rattle.std.specs.Prelude.{◌≡◌, IfOk, if◌then◌else◌, ◌==◌, None, Some, pos};
ghost use Rattle.std.specs.Ordering.{int_eq};

use pg_types::{List, Oid, OutOfMemory, Text, Type};
use std::alloc::Global;

/// A column of the rows that a statement gives (PostgreSQL documentation, "Message Formats", under
/// RowDescription).
#[derive(Debug, Drop, PartialEq, Eq)]
pub struct Column {
    name: Text,
    table_oid: Oid,
    column_id: i16,
    type_modifier: i32,
    type_: Type,
}

impl Column {
    /// A column of this name and type. Where it is none of a table, `table_oid` and `column_id` are 0.
    pub fn new(
        name: Text,
        table_oid: Oid,
        column_id: i16,
        type_modifier: i32,
        type_: Type,
    ) -> Column
        ensures { result ≡ record { name = name; table_oid = table_oid; column_id = column_id; type_modifier = type_modifier; type_ = type_ } }
    {
        Column {
            name,
            table_oid,
            column_id,
            type_modifier,
            type_,
        }
    }

    /// The name of the column.
    pub fn name(&self) -> &str
        ensures { result.now ≡ self.now.name }
    {
        self.name.as_str()
    }

    /// The oid of the table that it is a column of; None where it is none of a table.
    pub fn table_oid(&self) -> Option<Oid>
        ensures { result ≡ (if self.now.table_oid == 0 then None else Some self.now.table_oid) }
    {
        if self.table_oid == 0 {
            None
        } else {
            Some(self.table_oid)
        }
    }

    /// Its number in that table, negative for a system column; None where it is none of a table.
    pub fn column_id(&self) -> Option<i16>
        ensures { result ≡ (if int_eq self.now.column_id (pos 0) then None else Some self.now.column_id) }
    {
        if self.column_id == 0 {
            None
        } else {
            Some(self.column_id)
        }
    }

    /// The modifier of its type, -1 where it has none.
    pub fn type_modifier(&self) -> i32
        ensures { result ≡ self.now.type_modifier }
    {
        self.type_modifier
    }

    /// Its type.
    pub fn type_(&self) -> &Type
        ensures { result.now ≡ self.now.type_ }
    {
        &self.type_
    }

    /// An equal column.
    pub fn copy(&self, alloc: Global) -> Result<Column, OutOfMemory>
        ensures { IfOk result (λ c. c ≡ self.now) }
    {
        let name = self.name.copy(alloc)?;
        let type_ = self.type_.copy(alloc)?;
        Ok(Column {
            name,
            table_oid: self.table_oid,
            column_id: self.column_id,
            type_modifier: self.type_modifier,
            type_,
        })
    }
}
