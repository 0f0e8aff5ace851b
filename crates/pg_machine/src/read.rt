//! A machine's text, line by line.

ghost use Rattle.std.specs.Prelude.{◌≡◌, IfOk, OnOk, map};
ghost use Rattle.pg_machine.specs.MachineTexts.{ReadsMachine, nothing_said, said_after, said_from, said_in};
ghost use Rattle.pg_machine.specs.Readings.{Adds, IsNumbered, Says, said_of};

use crate::draft::{Draft, MachineFile};
use crate::fault::{FileFault, LineError};
use crate::line::read_line;
use crate::word::lines_of;
use std::alloc::Global;

/// The machine that a text says. Line names the first line that is refused as it is read, else the first row
/// that breaks the rules of a server, else the refusal where it is no error.
pub fn machine_of(alloc: Global, text: &[u8]) -> Result<MachineFile, FileFault>
    ensures { ReadsMachine text.now result }
{
    match read_text(alloc, text) {
        Ok(draft) => draft.finish(alloc),
        Err(fault) => Err(fault),
    }
}

/// What a text says.
fn read_text(alloc: Global, text: &[u8]) -> Result<Draft, FileFault>
    ensures said { Says (said_in text.now) result }
    ensures numbered { IfOk result IsNumbered }
{
    match lines_of(alloc, text) {
        Ok(lines) => read_lines(alloc, lines.as_slice()),
        Err(_) => Err(FileFault::OutOfMemory),
    }
}

/// What lines say, counted from 1.
fn read_lines(alloc: Global, lines: &[&[u8]]) -> Result<Draft, FileFault>
    ensures said { Says (said_from 1 (map (λ line. line.now) lines.now) nothing_said) result }
    ensures numbered { IfOk result IsNumbered }
{
    let mut draft = Draft::new(alloc);
    for (place, line) in lines.iter().enumerate() {
        match read_one(alloc, &mut draft, place + 1, line) {
            Ok(()) => {}
            Err(LineError::Fault(fault)) => {
                return Err(FileFault::Line {
                    number: place + 1,
                    fault,
                });
            }
            Err(LineError::OutOfMemory) => return Err(FileFault::OutOfMemory),
        }
    }
    Ok(draft)
}

/// Adds what a line says, of this number.
fn read_one(alloc: Global, draft: &mut Draft, number: usize, line: &[u8]) -> Result<(), LineError>
    ensures said { Adds (said_after number line.now (said_of draft.old)) result (said_of draft.new) }
    ensures numbered { IsNumbered draft.old → OnOk result (IsNumbered draft.new) }
{
    let line = read_line(alloc, line)?;
    draft.add(number, line)
}
