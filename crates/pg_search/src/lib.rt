//! The search for the types of several oids: the types that are known, and the types that others are made of.
//! What the server's catalog is asked for types, and how its replies are read.
//! Scripts that ask the server's catalog: for the statement that looks something up, for a type's own row, for the labels
//! of an enumeration, and for the rows of a relation's columns.
#![tactic(auto)]

mod asker;
mod asks;
mod asks_fields;
mod catalog;
mod catalog_rows;
mod cells;
mod fields_reading;
mod finds;
mod frame;
mod kept;
mod labels_reading;
mod looks_up;
mod lookup_statement;
mod request;
mod row_reading;
mod rows;
mod said;
mod search;
mod size;
mod sort;
mod stack;
mod texts;

pub use asker::Asker;
pub use asks::{LabelsOf, RowOf, labels_of, row_of};
pub use asks_fields::{FieldsOf, fields_of};
pub use catalog::Catalog;
pub use catalog_rows::field_row;
pub use fields_reading::FieldsReading;
pub use finds::{Finds, Search};
pub use kept::{Keeps, Kept};
pub use labels_reading::LabelsReading;
pub use looks_up::LooksUp;
pub use lookup_statement::LookupStatement;
pub use request::{ask, oid_request};
pub use row_reading::RowReading;
pub use rows::{FieldRow, FieldRows, TypeRow};
pub use said::settled;
pub use texts::{is_unknown, lookup_text};
