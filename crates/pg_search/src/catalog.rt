//! The scripts that ask the server's catalog, as a search wants them.

use crate::asks::{LabelsOf, RowOf, labels_of, row_of};
use crate::asks_fields::{FieldsOf, fields_of};
use crate::{Asker, FieldRow, field_row, settled};
use pg_desk::Column;
use pg_errors::Error;
use pg_types::{Blob, Oid};
use std::alloc::{AllocError, Global};

/// Makes the scripts that ask the server's catalog.
#[derive(Drop)]
pub struct Catalog {}

impl Asker for Catalog {
    ghost use Rattle.pg_search.specs.Asking.{ask_steps};

    type Row = RowOf;

    type Labels = LabelsOf;

    type Fields = FieldsOf;

    ghost most = { ask_steps };

    fn row(&self, alloc: Global, oid: Oid) -> Result<RowOf, AllocError> {
        row_of(alloc, oid)
    }

    fn labels(&self, alloc: Global, oid: Oid) -> Result<LabelsOf, AllocError> {
        labels_of(alloc, oid)
    }

    fn fields(&self, alloc: Global, relation: Oid) -> Result<FieldsOf, AllocError> {
        fields_of(alloc, relation)
    }

    fn field(
        &self,
        alloc: Global,
        columns: &[Column],
        cells: &[Option<Blob>],
    ) -> Result<Result<FieldRow, Error>, AllocError> {
        settled(field_row(alloc, columns, cells))
    }
}
