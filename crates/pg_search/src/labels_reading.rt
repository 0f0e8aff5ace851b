//! The reply that gives the labels of an enumeration, read message by message.

ghost use Rattle.std.specs.Prelude.{◌≡◌, ◌++◌, ◌∷◌, [], length, Result, IfOk, OnOk};
ghost use Rattle.pg_types.specs.declared.faults.WireFault as fault;
ghost use Rattle.pg_wire.specs.declared.message.Message as wire;
ghost use Rattle.pg_query.specs.Reading.{TellsAtFault};
ghost use Rattle.pg_core.specs.Cells.{text_in, value_at};
ghost use Rattle.pg_core.specs.QueryReplies.{all_rows, all_rows_by, collects};
ghost use Rattle.pg_search.specs.CatalogReadings.{label_of, labels_so_far, reading_of_labels};
ghost use Rattle.pg_search.specs.Saying.{said_view, Does, FailsAtFault};

use crate::cells::text_at;
use crate::said::{Said, said_by, settled};
use pg_desk::Statement;
use pg_errors::Error;
use pg_query::{Cells, Reading};
use pg_types::{List, Text};
use pg_wire::{Message, WireFault};
use std::alloc::{AllocError, Global};
use std::mem;

/// All rows of a reply, each a label, which is read as it comes.
#[derive(Drop)]
pub struct LabelsReading {
    statement: Statement,
    /// The portal was made.
    bound: bool,
    labels: List<Text>,
}

impl LabelsReading {
    /// The rows that this statement gives; none was read. It takes no memory.
    pub fn new(alloc: Global, statement: Statement) -> LabelsReading
        ensures { reading_of_labels result ≡ all_rows (λ cells. value_at text_in statement.columns cells 0) (length statement.columns) }
    {
        LabelsReading {
            statement,
            bound: false,
            labels: List::empty(alloc),
        }
    }

    fn width(&self) -> usize
        ensures { result ≡ length self.now.statement.columns }
    {
        self.statement.columns().len()
    }

    fn keep(&mut self, label: Text) -> Result<(), AllocError>
        ensures statement { self.new.statement ≡ self.old.statement }
        ensures labels { OnOk result (labels_so_far self.new ≡ record (labels_so_far self.old) { items = self.old.labels ++ label ∷ [] }) }
    {
        match self.labels.push(label) {
            Ok(()) => Ok(()),
            Err(_) => Err(AllocError),
        }
    }

    /// Keeps the label of a row, or tells why it can't be read.
    fn row(
        &mut self,
        alloc: Global,
        cells: &Cells,
    ) -> Result<Option<Result<List<Text>, Error>>, AllocError>
        ensures statement { self.new.statement ≡ self.old.statement }
        ensures does { IfOk result (λ told. Does (collects (labels_so_far self.old) (label_of self.old.statement cells.now)) told (labels_so_far self.new)) }
    {
        let label = text_at(alloc, self.statement.columns(), cells.as_slice(), 0);
        match settled(label)? {
            Ok(label) => {
                self.keep(label)?;
                Ok(None)
            }
            Err(error) => Ok(Some(Err(error))),
        }
    }

    /// What is told by a message that says this.
    fn tell(
        &mut self,
        alloc: Global,
        said: Said,
    ) -> Result<Option<Result<List<Text>, Error>>, AllocError>
        ensures statement { self.new.statement ≡ self.old.statement }
        ensures does { IfOk result (λ told. Does (all_rows_by (label_of self.old.statement) (labels_so_far self.old) (said_view said)) told (labels_so_far self.new)) }
        ensures tells { (message : Result wire.Message fault.WireFault) → FailsAtFault message said → IfOk result (λ told. TellsAtFault message told) }
    {
        match said {
            Said::Bound => {
                self.bound = true;
                Ok(None)
            }
            Said::Row(cells) => self.row(alloc, &cells),
            Said::Complete(_) | Said::Empty | Said::Suspended => Ok(None),
            Said::Ready => {
                let labels = mem::replace(&mut self.labels, List::empty(alloc));
                Ok(Some(Ok(labels)))
            }
            Said::Fails(error) => Ok(Some(Err(error))),
        }
    }
}

impl Reading for LabelsReading {
    ghost use Rattle.pg_search.specs.CatalogReadings.{reading_of_labels};

    type Output = List<Text>;

    ghost reading = { reading_of_labels };

    fn message(
        &mut self,
        alloc: Global,
        message: &Result<Message, WireFault>,
    ) -> Result<Option<Result<List<Text>, Error>>, AllocError> {
        let said = said_by(alloc, self.bound, self.width(), message)?;
        self.tell(alloc, said)
    }
}
