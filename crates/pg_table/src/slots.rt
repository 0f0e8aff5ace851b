//! What a script keeps between its commands: its prepared statements, by the numbers of their slots.

ghost use Rattle.std.specs.Prelude.{◌≡◌, [], MatchResult, option_map};
ghost use Rattle.pg_table.specs.Slots.{statement_in, with_statement, without};

use pg_desk::Statement;
use pg_types::OutOfMemory;
use std::alloc::Global;
use std::marker::Model;

/// A statement in a slot of its script.
#[derive(Drop)]
pub struct Slot {
    number: u64,
    statement: Statement,
}

/// The slots of a script that hold a statement, seen as their list.
#[derive(Drop)]
pub struct Slots {
    slots: Vec<Slot>,
}

impl Model for Slots {
    ghost use Rattle.std.specs.Prelude.{List as Items};
    ghost use Rattle.pg_table.specs.declared.slots.Slot.{Slot};
    ghost use Rattle.pg_types.specs.contracts.pg_type.PgType as pg_type;
    ghost use Rattle.std.specs.Coded.{codes};

    ghost Value = { Items Slot };

    ghost coded = { Prim.hlevel (codes, pg_type.the_row.coded) };

    ghost view = { λ s. s.slots.items };
}

impl Slots {
    /// No slot holds a statement. It takes no memory.
    pub fn new(alloc: Global) -> Slots
        ensures { result ≡ [] }
    {
        Slots {
            slots: Vec::new(alloc),
        }
    }

    /// The statement in the slot of this number.
    pub fn get(&self, number: u64) -> Option<&Statement>
        ensures { option_map (λ s. s.now) result ≡ statement_in self.now number }
    {
        statement_at(self.slots.as_slice(), number)
    }

    /// Empties the slot of this number.
    pub fn empty(&mut self, number: u64)
        ensures { self.new ≡ without self.old number }
    {
        forget(&mut self.slots, number)
    }

    /// Puts a statement into a slot. A former one is forgotten, also where memory lacks.
    pub fn put(&mut self, number: u64, statement: Statement) -> Result<(), OutOfMemory>
        ensures { MatchResult result (λ _. self.new ≡ with_statement self.old number statement) (λ _. self.new ≡ without self.old number) }
    {
        forget(&mut self.slots, number);
        match self.slots.push(Slot { number, statement }) {
            Ok(()) => Ok(()),
            Err(_) => Err(OutOfMemory),
        }
    }
}

/// The statement in the slot of this number.
fn statement_at(slots: &[Slot], number: u64) -> Option<&Statement>
    ensures { option_map (λ s. s.now) result ≡ statement_in slots.now number }
{
    for slot in slots {
        if slot.number == number {
            return Some(&slot.statement);
        }
    }
    None
}

/// Empties the slot of this number.
fn forget(slots: &mut Vec<Slot>, number: u64)
    ensures { slots.new.items ≡ without slots.old.items number }
{
    slots.retain(|slot| slot.number != number);
}
