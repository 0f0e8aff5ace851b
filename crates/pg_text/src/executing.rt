//! The lines of commands that execute something with values.

ghost use Rattle.std.specs.Prelude.{◌++◌, ◌∷◌, [], ℕ, List, IfOk, IfSome, OnOk, option_map};
ghost use Rattle.pg_types.specs.declared.value.Value as given;
ghost use Rattle.pg_text.specs.declared.line.Keyword.TheVariants as first;
ghost use Rattle.pg_text.specs.Drafts.{HasCut};
ghost use Rattle.pg_text.specs.Lines.{ReadsRest};
ghost use Rattle.pg_text.specs.Pairs.{AllPairs, ArePairs};
ghost use Rattle.pg_text.specs.SessionText.{IsPair, IsValue};
ghost use Rattle.pg_text.specs.Words.{AllWords, Takes};

use crate::command::{Command, TypedText};
use crate::execution::{Execution, TypedExecution};
use crate::given::{next_target, next_value};
use crate::line::{Line, next_take, utf8_text};
use crate::word::Words;
use pg_types::{List, Oid, OutOfMemory, Value};
use std::alloc::Global;

/// `TARGET VALUE ..`.
pub(crate) fn execution_line(
    alloc: Global,
    execution: Execution,
    words: &mut Words,
) -> Result<Option<Line>, OutOfMemory>
    ensures line { IfOk result (λ found. ReadsRest (first.Executes execution) words.old found) }
    ensures cut { IfOk result (λ found. IfSome found HasCut) }
{
    let Some(target) = next_target(alloc, words)? else {
        return Ok(None);
    };
    let Some(values) = all_values(alloc, words)? else {
        return Ok(None);
    };
    Ok(Some(Line::Command(execution.command(target, List::new(values)))))
}

/// `TARGET take N VALUE ..`.
pub(crate) fn raw_line(alloc: Global, words: &mut Words) -> Result<Option<Line>, OutOfMemory>
    ensures line { IfOk result (λ found. ReadsRest first.QueryRaw words.old found) }
    ensures cut { IfOk result (λ found. IfSome found HasCut) }
{
    let Some(target) = next_target(alloc, words)? else {
        return Ok(None);
    };
    let Some(take) = next_take(words) else {
        return Ok(None);
    };
    let Some(values) = all_values(alloc, words)? else {
        return Ok(None);
    };
    Ok(Some(Line::Command(Command::QueryRaw {
        target,
        take,
        values: List::new(values),
    })))
}

/// `TEXT TYPE VALUE ..`.
pub(crate) fn typed_line(
    alloc: Global,
    execution: TypedExecution,
    words: &mut Words,
) -> Result<Option<Line>, OutOfMemory>
    ensures line { IfOk result (λ found. ReadsRest (first.ExecutesTyped execution) words.old found) }
    ensures cut { IfOk result (λ found. IfSome found HasCut) }
{
    let Some(text) = utf8_text(alloc, words)? else {
        return Ok(None);
    };
    let Some(pairs) = all_pairs(alloc, words)? else {
        return Ok(None);
    };
    let Pairs { types, values } = pairs;
    let typed = TypedText {
        text,
        types,
        values,
    };
    Ok(Some(Line::Command(execution.command(typed))))
}

/// Values, up to the end.
fn all_values(alloc: Global, words: &mut Words) -> Result<Option<Vec<Value>>, OutOfMemory>
    ensures { IfOk result (λ found. AllWords IsValue words.old (option_map (λ values. values.items) found)) }
{
    let mut values = Vec::new(alloc);
    while !words.is_done() {
        match next_value(alloc, words)? {
            Some(value) => values.push(value)?,
            None => return Ok(None),
        }
    }
    Ok(Some(values))
}

/// Types and values that stand there by turns.
#[derive(Drop)]
pub(crate) struct Pairs {
    types: List<Oid>,
    values: List<Value>,
}

impl Pairs {
    /// None.
    fn new(alloc: Global) -> Pairs
        ensures { ArePairs [] result }
    {
        Pairs {
            types: List::empty(alloc),
            values: List::empty(alloc),
        }
    }

    /// One more.
    fn push(&mut self, oid: Oid, value: Value) -> Result<(), OutOfMemory>
        ensures { (pairs : List (ℕ × given.Value)) → ArePairs pairs self.old → OnOk result (ArePairs (pairs ++ (oid, value) ∷ []) self.new) }
    {
        self.types.push(oid)?;
        self.values.push(value)?;
        Ok(())
    }
}

/// Takes the name of a type, and a value.
fn next_pair(alloc: Global, words: &mut Words) -> Result<Option<(Oid, Value)>, OutOfMemory>
    ensures { IfOk result (λ found. Takes IsPair words.old found words.new) }
{
    match words.type_name() {
        Some(oid) => match next_value(alloc, words)? {
            Some(value) => Ok(Some((oid, value))),
            None => Ok(None),
        },
        None => Ok(None),
    }
}

/// Names of types and values by turns, up to the end.
fn all_pairs(alloc: Global, words: &mut Words) -> Result<Option<Pairs>, OutOfMemory>
    ensures { IfOk result (λ found. AllPairs words.old found) }
{
    let mut pairs = Pairs::new(alloc);
    while !words.is_done() {
        match next_pair(alloc, words)? {
            Some((oid, value)) => pairs.push(oid, value)?,
            None => return Ok(None),
        }
    }
    Ok(Some(pairs))
}
