//! The levels of a transaction that are open in a script, and the texts that open and end them.

ghost use Rattle.std.specs.Prelude.{◌≡◌, [], ◌∷◌, ◌++◌, length, string_bytes, option_map, IfOk, OnOk};
ghost use Rattle.pg_steps.specs.Transactions.{commits_by, opens_by, rolls_back_by};
ghost use Rattle.pg_table.specs.Levels.{innermost, level_name, new_level, new_name, outer};
ghost use Rattle.pg_table.specs.declared.levels.Level.TheVariants as a_level;

use pg_types::{OutOfMemory, Text};
use std::alloc::{AllocError, Global};
use std::marker::Model;

/// A level that is open.
#[derive(Drop)]
pub enum Level {
    /// The transaction itself.
    Transaction,
    /// A savepoint of this name, as it is spelled in a statement.
    Named(Text),
    /// A savepoint that was given no name: how many were open with it.
    AtDepth(u32),
}

/// The levels that are open, seen as their list, each within the one before it.
#[derive(Drop)]
pub struct Levels {
    /// Names are copied by it.
    alloc: Global,
    levels: Vec<Level>,
}

impl Model for Levels {
    ghost use Rattle.std.specs.Prelude.{List as Items};
    ghost use Rattle.pg_table.specs.declared.levels.Level.{Level};

    ghost Value = { Items Level };

    ghost view = { λ l. l.levels.items };
}

impl Levels {
    /// None is open. It takes no memory.
    pub fn new(alloc: Global) -> Levels
        ensures { result ≡ [] }
    {
        Levels {
            alloc,
            levels: Vec::new(alloc),
        }
    }

    /// The level that was opened last of those that are open.
    pub(crate) fn innermost(&self) -> Option<&Level>
        ensures { option_map (λ level. level.now) result ≡ innermost self.now }
    {
        self.levels.as_slice().last()
    }

    /// How many savepoints are open with the next one.
    pub(crate) fn depth(&self) -> Result<u32, OutOfMemory>
        ensures { IfOk result (λ depth. depth ≡ length self.now) }
    {
        match u32::try_from(self.levels.len()) {
            Ok(depth) => Ok(depth),
            Err(_) => Err(OutOfMemory),
        }
    }

    /// The transaction alone is open.
    pub(crate) fn begin(&mut self) -> Result<(), OutOfMemory>
        ensures { OnOk result (self.new ≡ a_level.Transaction ∷ []) }
    {
        self.levels.clear();
        self.levels.push(Level::Transaction)?;
        Ok(())
    }

    /// A savepoint is opened within those that are open.
    pub(crate) fn open_savepoint(&mut self, name: &Option<Text>) -> Result<(), OutOfMemory>
        ensures { OnOk result (self.new ≡ self.old ++ new_level self.old name.now ∷ []) }
    {
        let level = self.new_level(name)?;
        self.levels.push(level)?;
        Ok(())
    }

    /// A savepoint within those that are open.
    fn new_level(&self, name: &Option<Text>) -> Result<Level, OutOfMemory>
        ensures { IfOk result (λ level. level ≡ new_level self.now name.now) }
    {
        match name {
            Some(name) => Ok(Level::Named(name.copy(self.alloc)?)),
            None => Ok(Level::AtDepth(self.depth()?)),
        }
    }

    /// The innermost is ended.
    pub(crate) fn end(&mut self)
        ensures { self.new ≡ outer self.old }
    {
        drop(self.levels.pop());
    }
}

/// The text that opens a savepoint within the levels that are open.
pub(crate) fn savepoint_text(
    alloc: Global,
    levels: &Levels,
    name: &Option<Text>,
) -> Result<Text, OutOfMemory>
    ensures { IfOk result (λ text. text ≡ opens_by (new_name levels.now name.now)) }
{
    match name {
        Some(name) => {
            let name = name.as_str();
            Ok(Text::new(format!(in alloc; "SAVEPOINT {name}")?))
        }
        None => {
            let depth = levels.depth()?;
            Ok(Text::new(format!(in alloc; "SAVEPOINT sp_{depth}")?))
        }
    }
}

/// The text that ends a level and keeps what was done in it.
pub(crate) fn commit_text(alloc: Global, level: &Level) -> Result<Text, OutOfMemory>
    ensures { IfOk result (λ text. text ≡ commits_by (level_name level.now)) }
{
    Ok(Text::new(commit_string(alloc, level)?))
}

fn commit_string(alloc: Global, level: &Level) -> Result<String, AllocError>
    ensures { IfOk result (λ text. string_bytes text ≡ commits_by (level_name level.now)) }
{
    match level {
        Level::Transaction => String::from_str(alloc, "COMMIT"),
        Level::Named(name) => {
            let name = name.as_str();
            format!(in alloc; "RELEASE {name}")
        }
        Level::AtDepth(depth) => format!(in alloc; "RELEASE sp_{depth}"),
    }
}

/// The text that undoes what was done in a level.
pub(crate) fn rollback_text(alloc: Global, level: &Level) -> Result<Text, OutOfMemory>
    ensures { IfOk result (λ text. text ≡ rolls_back_by (level_name level.now)) }
{
    Ok(Text::new(rollback_string(alloc, level)?))
}

fn rollback_string(alloc: Global, level: &Level) -> Result<String, AllocError>
    ensures { IfOk result (λ text. string_bytes text ≡ rolls_back_by (level_name level.now)) }
{
    match level {
        Level::Transaction => String::from_str(alloc, "ROLLBACK"),
        Level::Named(name) => {
            let name = name.as_str();
            format!(in alloc; "ROLLBACK TO {name}")
        }
        Level::AtDepth(depth) => format!(in alloc; "ROLLBACK TO sp_{depth}"),
    }
}
