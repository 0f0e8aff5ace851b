//! The lines of commands that open and end the levels of a transaction.

ghost use Rattle.std.specs.Prelude.{IfOk, IfSome};
ghost use Rattle.pg_text.specs.declared.line.Keyword.TheVariants as first;
ghost use Rattle.pg_text.specs.Drafts.{HasCut};
ghost use Rattle.pg_text.specs.Executions.{FirstWordOf};
ghost use Rattle.pg_text.specs.Lines.{ReadsRest};
ghost use Rattle.pg_text.specs.Modes.{access_word, deferral_word, level_word};
ghost use Rattle.pg_text.specs.Words.{TakesIfThere};

use crate::command::Command;
use crate::line::{Line, only_text};
use crate::word::Words;
use pg_steps::{IsolationLevel, Modes};
use pg_types::OutOfMemory;
use std::alloc::Global;

/// `[LEVEL] [ro|rw] [def|notdef]`.
pub(crate) fn begin_line(words: &mut Words) -> Option<Line>
    ensures line { ReadsRest first.Begin words.old result }
    ensures cut { IfSome result HasCut }
{
    let isolation_level = next_level(words);
    let read_only = next_access(words);
    let deferrable = next_deferral(words);
    if words.is_done() {
        Some(Line::Command(Command::Begin(Modes {
            isolation_level,
            read_only,
            deferrable,
        })))
    } else {
        None
    }
}

/// Nothing, or `TEXT`.
pub(crate) fn savepoint_line(alloc: Global, words: &mut Words) -> Result<Option<Line>, OutOfMemory>
    ensures line { IfOk result (λ found. ReadsRest first.Savepoint words.old found) }
    ensures cut { IfOk result (λ found. IfSome found HasCut) }
{
    if words.is_done() {
        return Ok(Some(Line::Command(Command::Savepoint { name: None })));
    }
    match only_text(alloc, words)? {
        Some(name) => Ok(Some(Line::Command(Command::Savepoint { name: Some(name) }))),
        None => Ok(None),
    }
}

pub(crate) fn commit_line(words: &Words) -> Option<Line>
    ensures line { ReadsRest first.Commit words.now result }
    ensures cut { IfSome result HasCut }
{
    if words.is_done() {
        Some(Line::Command(Command::Commit))
    } else {
        None
    }
}

pub(crate) fn rollback_line(words: &Words) -> Option<Line>
    ensures line { ReadsRest first.Rollback words.now result }
    ensures cut { IfSome result HasCut }
{
    if words.is_done() {
        Some(Line::Command(Command::Rollback))
    } else {
        None
    }
}

pub(crate) fn abandon_line(words: &Words) -> Option<Line>
    ensures line { ReadsRest first.Abandon words.now result }
    ensures cut { IfSome result HasCut }
{
    if words.is_done() {
        Some(Line::Command(Command::Abandon))
    } else {
        None
    }
}

/// Takes the word of a level of isolation, if it stands there.
fn next_level(words: &mut Words) -> Option<IsolationLevel>
    ensures { TakesIfThere level_word words.old result words.new }
{
    let mut ahead = words.copy();
    let Some(word) = ahead.word() else {
        return None;
    };
    let Some(level) = level_of(word) else {
        return None;
    };
    *words = ahead;
    Some(level)
}

/// Takes `ro` or `rw`, if it stands there.
fn next_access(words: &mut Words) -> Option<bool>
    ensures { TakesIfThere access_word words.old result words.new }
{
    let mut ahead = words.copy();
    let Some(word) = ahead.word() else {
        return None;
    };
    let Some(read_only) = access_of(word) else {
        return None;
    };
    *words = ahead;
    Some(read_only)
}

/// Takes `def` or `notdef`, if it stands there.
fn next_deferral(words: &mut Words) -> Option<bool>
    ensures { TakesIfThere deferral_word words.old result words.new }
{
    let mut ahead = words.copy();
    let Some(word) = ahead.word() else {
        return None;
    };
    let Some(deferrable) = deferral_of(word) else {
        return None;
    };
    *words = ahead;
    Some(deferrable)
}

/// The level of isolation that this word asks for.
fn level_of(word: &[u8]) -> Option<IsolationLevel>
    ensures { FirstWordOf level_word word.now result }
{
    if word == b"uncommitted".as_slice() {
        return Some(IsolationLevel::ReadUncommitted);
    }
    if word == b"committed".as_slice() {
        return Some(IsolationLevel::ReadCommitted);
    }
    if word == b"repeatable".as_slice() {
        return Some(IsolationLevel::RepeatableRead);
    }
    if word == b"serializable".as_slice() {
        return Some(IsolationLevel::Serializable);
    }
    None
}

/// Whether this word asks for a transaction that reads only, or for one that writes too.
fn access_of(word: &[u8]) -> Option<bool>
    ensures { FirstWordOf access_word word.now result }
{
    if word == b"ro".as_slice() {
        return Some(true);
    }
    if word == b"rw".as_slice() {
        return Some(false);
    }
    None
}

/// Whether this word asks for a transaction that may wait at its begin, or for one that may not.
fn deferral_of(word: &[u8]) -> Option<bool>
    ensures { FirstWordOf deferral_word word.now result }
{
    if word == b"def".as_slice() {
        return Some(true);
    }
    if word == b"notdef".as_slice() {
        return Some(false);
    }
    None
}
