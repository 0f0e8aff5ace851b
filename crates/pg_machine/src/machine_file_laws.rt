//! A law of machines as texts, proved.

ghost use Rattle.std.specs.Prelude.{◌≡◌, ℕ, List, Ok};
ghost use Rattle.std.specs.List.{AllByRecursion};
ghost use Rattle.hex.specs.Hex.{IsBytes};
ghost use Rattle.pg_machine.specs.declared.machine.MachineRow.{MachineRow};
ghost use Rattle.pg_machine.specs.MachineTexts.{said_in};
ghost use Rattle.pg_machine.specs.Written.{IsWritten, text_of, written};

/// A startup, a refusal and rows are read as they were written, where each row's frame may be answered.
pub fn what_is_written_is_read()
    ensures { (startup refusal : List ℕ) (rows : List MachineRow) → IsBytes startup → IsBytes refusal → AllByRecursion IsWritten rows →
        said_in (text_of startup refusal rows) ≡ Ok (written startup refusal rows) }
{}
