//! Rows of the catalog.

ghost use Rattle.std.specs.Prelude.{◌≡◌};

use pg_desk::{Column, Statement};
use pg_query::Cells;
use pg_types::{List, Oid, Text};
use std::collections::VecDeque;
use std::marker::Model;

/// The row of a type (PostgreSQL documentation, "pg_type"), by the names of its columns.
#[derive(Drop)]
pub struct TypeRow {
    pub name: Text,
    pub typtype: i8,
    pub typelem: Oid,
    pub rngsubtype: Option<Oid>,
    pub typbasetype: Oid,
    pub schema: Text,
    pub typrelid: Oid,
}

impl Model for TypeRow {
    ghost use Rattle.pg_core.specs.Lookups as seen;

    ghost Value = { seen.TypeRow };

    ghost view = { λ r. record { name = r.name; typtype = r.typtype; typelem = r.typelem; rngsubtype = r.rngsubtype; typbasetype = r.typbasetype; schema = r.schema; typrelid = r.typrelid } };
}

/// The rows of a relation's columns (PostgreSQL documentation, "pg_attribute"), and the statement whose columns they are read by.
#[derive(Drop)]
pub struct FieldRows {
    pub statement: Statement,
    pub rows: VecDeque<Cells>,
}

impl Model for FieldRows {
    ghost use Rattle.pg_core.specs.Lookups as seen;
    ghost use Rattle.pg_types.specs.contracts.pg_type.PgType as pg_type;
    ghost use Rattle.std.specs.Coded.{codes};

    ghost Value = { seen.FieldRows };

    ghost coded = { Prim.hlevel (codes, pg_type.the_row.coded) };

    ghost view = { λ f. record { columns = f.statement.columns; rows = f.rows.items } };
}

/// The row of a field (PostgreSQL documentation, "pg_attribute"): its name, and the oid of its type.
#[derive(Drop)]
pub struct FieldRow {
    pub name: Text,
    pub type_oid: Oid,
}

impl Model for FieldRow {
    ghost use Rattle.pg_core.specs.Lookups as seen;

    ghost Value = { seen.FieldRow };

    ghost view = { λ f. record { name = f.name; type_oid = f.type_oid } };
}
