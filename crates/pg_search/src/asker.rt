//! What a search asks of the server's catalog.

ghost use Rattle.std.specs.Prelude.{◌≡◌, ◌≤◌, ℕ, IfOk};
ghost use Rattle.pg_core.specs.Lookups.{field_row, field_rows, labels_of, row_of};

use crate::rows::{FieldRow, FieldRows, TypeRow};
use pg_desk::Column;
use pg_errors::Error;
use pg_query::Script;
use pg_types::{Blob, List, Oid, Text};
use std::alloc::{AllocError, Global};

/// Makes the scripts that ask the server's catalog, and reads its rows. The error of each call is want of memory.
pub trait Asker: Drop {
    /// The script that asks for a type's own row.
    type Row: Script<Output = TypeRow>;

    /// The script that asks for the labels of an enumeration.
    type Labels: Script<Output = List<Text>>;

    /// The script that asks for the rows of a relation's columns.
    type Fields: Script<Output = FieldRows>;

    /// The steps of each new script are at most these.
    ghost most: { ℕ };

    /// Asks for the row of an oid.
    fn row(&self, alloc: Global, oid: Oid) -> Result<Self::Row, AllocError>
        ensures dialogue { IfOk result (λ script. Self.Row.dialogue script ≡ row_of oid) }
        ensures steps { IfOk result (λ script. Self.Row.steps script ≤ most) };

    /// Asks for the labels of an oid.
    fn labels(&self, alloc: Global, oid: Oid) -> Result<Self::Labels, AllocError>
        ensures dialogue { IfOk result (λ script. Self.Labels.dialogue script ≡ labels_of oid) }
        ensures steps { IfOk result (λ script. Self.Labels.steps script ≤ most) };

    /// Asks for the rows of a relation's columns.
    fn fields(&self, alloc: Global, relation: Oid) -> Result<Self::Fields, AllocError>
        ensures dialogue { IfOk result (λ script. Self.Fields.dialogue script ≡ field_rows relation) }
        ensures steps { IfOk result (λ script. Self.Fields.steps script ≤ most) };

    /// The row of a field, of these cells, or why it can't be read.
    fn field(
        &self,
        alloc: Global,
        columns: &[Column],
        cells: &[Option<Blob>],
    ) -> Result<Result<FieldRow, Error>, AllocError>
        ensures { IfOk result (λ read. read ≡ field_row columns.now cells.now) };
}
