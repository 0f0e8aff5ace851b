//! Targets and values, as words of a line.

ghost use Rattle.std.specs.Prelude.{◌≡◌, ◌≤◌, IfOk};
ghost use Rattle.pg_text.specs.SessionText.{IsInt, IsSlot, IsTarget, IsValue, minus};
ghost use Rattle.pg_text.specs.Words.{IsBareTarget, IsBareValue, Means, Takes};

use crate::command::CommandTarget;
use crate::line::utf8_text;
use crate::word::{Words, hex_of, number_of};
use pg_types::{Blob, OutOfMemory, Value};
use std::alloc::Global;

/// The number of the smallest integer without its sign.
const MOST_BELOW: u64 = 9_223_372_036_854_775_808;

/// Takes the number of a slot behind `@`.
pub(crate) fn next_slot(words: &mut Words) -> Option<u64>
    ensures { Takes IsSlot words.old result words.new }
{
    match words.word() {
        Some(word) => slot_of(word),
        None => None,
    }
}

/// The number of a slot behind `@`.
fn slot_of(word: &[u8]) -> Option<u64>
    ensures { Means IsSlot word.now result }
{
    match word {
        [b'@', digits @ ..] => number_of(digits, u64::MAX),
        _ => None,
    }
}

/// Takes a target: the number of a slot behind `@`, or a text in quotes that is UTF-8.
pub(crate) fn next_target(
    alloc: Global,
    words: &mut Words,
) -> Result<Option<CommandTarget>, OutOfMemory>
    ensures { IfOk result (λ found. Takes IsTarget words.old found words.new) }
{
    if words.is_at_quote() {
        match utf8_text(alloc, words)? {
            Some(text) => Ok(Some(CommandTarget::Text(text))),
            None => Ok(None),
        }
    } else {
        Ok(bare_target(words))
    }
}

/// Takes a target that isn't a text.
fn bare_target(words: &mut Words) -> Option<CommandTarget>
    ensures { Takes IsBareTarget words.old result words.new }
{
    match next_slot(words) {
        Some(number) => Some(CommandTarget::Slot(number)),
        None => None,
    }
}

/// Takes a value: a text in quotes that is UTF-8, or a word.
pub(crate) fn next_value(alloc: Global, words: &mut Words) -> Result<Option<Value>, OutOfMemory>
    ensures { IfOk result (λ found. Takes IsValue words.old found words.new) }
{
    if words.is_at_quote() {
        match utf8_text(alloc, words)? {
            Some(text) => Ok(Some(Value::Text(text))),
            None => Ok(None),
        }
    } else {
        let found = bare_value(alloc, words)?;
        Ok(found)
    }
}

/// Takes a value that isn't a text.
fn bare_value(alloc: Global, words: &mut Words) -> Result<Option<Value>, OutOfMemory>
    ensures { IfOk result (λ found. Takes IsBareValue words.old found words.new) }
{
    match words.word() {
        Some(word) => {
            let found = value_of(alloc, word)?;
            Ok(found)
        }
        None => Ok(None),
    }
}

/// The value that a word is: null, a bool, an integer, or `x` and bytes in hex.
fn value_of(alloc: Global, word: &[u8]) -> Result<Option<Value>, OutOfMemory>
    ensures { IfOk result (λ found. Means IsBareValue word.now found) }
{
    if word == b"null".as_slice() {
        return Ok(Some(Value::Null));
    }
    if word == b"true".as_slice() {
        return Ok(Some(Value::Bool(true)));
    }
    if word == b"false".as_slice() {
        return Ok(Some(Value::Bool(false)));
    }
    match word {
        [b'x', digits @ ..] => match hex_of(alloc, digits)? {
            Some(bytes) => Ok(Some(Value::Bytes(Blob::new(bytes)))),
            None => Ok(None),
        },
        _ => match int_of(word) {
            Some(int) => Ok(Some(Value::Int(int))),
            None => Ok(None),
        },
    }
}

/// The integer that decimal digits spell, behind a minus where it is negative.
fn int_of(word: &[u8]) -> Option<i64>
    ensures { Means IsInt word.now result }
{
    match word {
        [b'-', digits @ ..] => match number_of(digits, MOST_BELOW) {
            Some(number) => Some(below(number)),
            None => None,
        },
        _ => match number_of(word, i64::MAX as u64) {
            Some(number) => Some(number as i64),
            None => None,
        },
    }
}

/// As far below 0 as this is above it.
fn below(number: u64) -> i64
    requires { number ≤ 9223372036854775808 }
    ensures { result ≡ minus number }
{
    if number == MOST_BELOW {
        return i64::MIN;
    }
    -(number as i64)
}
