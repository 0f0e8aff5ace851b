//! What the lines of a text say together.

ghost use Rattle.std.specs.Prelude.{◌≡◌, ℕ, OnOk};
ghost use Rattle.pg_machine.specs.MachineTexts.{Becomes, nothing_said, with_line};
ghost use Rattle.pg_machine.specs.Readings.{Adds, IsNumbered, said_of};

use crate::fault::{FileFault, LineError, LineFault};
use crate::line::Line;
use crate::{Machine, MachineFault, MachineRow};
use pg_types::{Blob, List};
use std::alloc::Global;

/// A machine, and what it replies to the startup frame.
#[derive(Debug, Drop)]
pub struct MachineFile {
    pub machine: Machine,
    pub startup: Blob,
}

/// The refusal, and the number of its line.
#[derive(Debug, Drop)]
pub(crate) struct Refusal {
    number: usize,
    bytes: Blob,
}

/// What the lines so far say, and the numbers of the lines that say the rows.
#[derive(Debug, Drop)]
pub(crate) struct Draft {
    startup: Option<Blob>,
    refusal: Option<Refusal>,
    rows: Vec<MachineRow>,
    numbers: Vec<usize>,
}

impl Draft {
    pub(crate) fn new(alloc: Global) -> Draft
        ensures said { said_of result ≡ nothing_said }
        ensures numbered { IsNumbered result }
    {
        Draft {
            startup: None,
            refusal: None,
            rows: Vec::new(alloc),
            numbers: Vec::new(alloc),
        }
    }

    /// Adds what the line of this number says.
    pub(crate) fn add(&mut self, number: usize, line: Line) -> Result<(), LineError>
        ensures said { Adds (with_line number line (said_of self.old)) result (said_of self.new) }
        ensures numbered { IsNumbered self.old → OnOk result (IsNumbered self.new) }
    {
        match line {
            Line::Nothing => Ok(()),
            Line::Startup(bytes) => self.set_startup(bytes),
            Line::Refusal(bytes) => self.set_refusal(Refusal { number, bytes }),
            Line::Row(row) => self.add_row(number, row),
        }
    }

    fn set_startup(&mut self, bytes: Blob) -> Result<(), LineError>
        ensures said { (number : ℕ) → Adds (with_line number (Line.Startup bytes) (said_of self.old)) result (said_of self.new) }
        ensures numbered { IsNumbered self.old → IsNumbered self.new }
    {
        if self.startup.is_some() {
            return Err(LineError::Fault(LineFault::Twice));
        }
        self.startup = Some(bytes);
        Ok(())
    }

    fn set_refusal(&mut self, refusal: Refusal) -> Result<(), LineError>
        ensures said { Adds (with_line refusal.number (Line.Refusal refusal.bytes) (said_of self.old)) result (said_of self.new) }
        ensures numbered { IsNumbered self.old → IsNumbered self.new }
    {
        if self.refusal.is_some() {
            return Err(LineError::Fault(LineFault::Twice));
        }
        self.refusal = Some(refusal);
        Ok(())
    }

    fn add_row(&mut self, number: usize, row: MachineRow) -> Result<(), LineError>
        ensures said { Adds (with_line number (Line.Row row) (said_of self.old)) result (said_of self.new) }
        ensures numbered { IsNumbered self.old → OnOk result (IsNumbered self.new) }
    {
        if self.rows.push(row).is_err() || self.numbers.push(number).is_err() {
            return Err(LineError::OutOfMemory);
        }
        Ok(())
    }

    /// The machine that all lines say.
    pub(crate) fn finish(self, alloc: Global) -> Result<MachineFile, FileFault>
        requires { IsNumbered self }
        ensures { Becomes (said_of self) result }
    {
        let Draft {
            startup,
            refusal,
            rows,
            numbers,
        } = self;
        let Some(startup) = startup else {
            return Err(FileFault::NoStartup);
        };
        let Some(Refusal { number, bytes }) = refusal else {
            return Err(FileFault::NoRefusal);
        };
        match Machine::new(alloc, List::new(rows), bytes) {
            Ok(machine) => Ok(MachineFile { machine, startup }),
            Err(MachineFault::BadRow(place)) => Err(FileFault::Line {
                number: numbers[place],
                fault: LineFault::Rules,
            }),
            Err(MachineFault::BadRefusal) => Err(FileFault::Line {
                number,
                fault: LineFault::NoError,
            }),
            Err(MachineFault::OutOfMemory) => Err(FileFault::OutOfMemory),
        }
    }
}
