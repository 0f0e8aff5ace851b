//! The lines of a session text.

ghost use Rattle.std.specs.Prelude.{◌<◌, IfOk, IfSome, option_map};
ghost use Rattle.pg_spec.specs.SessionText.{IsNumber, IsQuoted};
ghost use Rattle.pg_text.specs.declared.line.Keyword.TheVariants as first;
ghost use Rattle.pg_text.specs.Drafts.{HasCut};
ghost use Rattle.pg_text.specs.SessionText.{IsSlot, IsTypeName};
ghost use Rattle.pg_text.specs.Lines.{FirstWord, FirstWordAmong, ReadsLine, ReadsRest, SaysSomething, command_keywords, level_keywords, session_keywords};
ghost use Rattle.pg_text.specs.Words.{AllBytes, AllWords, IsTake, IsTextOf, IsUtf8Quoted, OneWord, Takes};

use crate::command::Command;
use crate::executing::{execution_line, raw_line, typed_line};
use crate::execution::{Execution, TypedExecution, execution_of, typed_execution_of};
use crate::given::next_slot;
use crate::levels::{abandon_line, begin_line, commit_line, rollback_line, savepoint_line};
use crate::word::Words;
use pg_types::{Blob, List, Oid, OutOfMemory, Text};
use std::alloc::Global;

/// What a line says.
#[derive(Drop)]
pub(crate) enum Line {
    /// It is empty or a comment.
    Nothing,
    Config(Text),
    Nonce(Blob),
    Limit(u64),
    Turns(Vec<u32>),
    Handle,
    Step(Vec<u8>),
    Cut(u64),
    End,
    Command(Command),
}

/// The largest limit, in bytes.
const MOST_BYTES: u64 = 9_223_372_036_854_775_807;

/// Reads a line. None: it breaks the rules.
pub(crate) fn read_line(alloc: Global, line: &[u8]) -> Result<Option<Line>, OutOfMemory>
    ensures line { IfOk result (λ found. ReadsLine line.now found) }
    ensures cut { IfOk result (λ found. IfSome found HasCut) }
{
    match line {
        [] | [b'#', ..] => Ok(Some(Line::Nothing)),
        _ => read_words(alloc, line),
    }
}

/// Reads a line that says something.
fn read_words(alloc: Global, line: &[u8]) -> Result<Option<Line>, OutOfMemory>
    requires { SaysSomething line.now }
    ensures line { IfOk result (λ found. ReadsLine line.now found) }
    ensures cut { IfOk result (λ found. IfSome found HasCut) }
{
    let mut words = Words::new(line);
    match words.word() {
        Some(word) => match keyword_of(word) {
            Some(keyword) => {
                let read = read_rest(alloc, keyword, &mut words)?;
                Ok(read)
            }
            None => Ok(None),
        },
        None => Ok(None),
    }
}

/// How a line begins.
#[derive(Clone, Copy, Drop)]
enum Keyword {
    Config,
    Nonce,
    Limit,
    Turns,
    Handle,
    Step,
    Cut,
    End,
    Simple,
    Batch,
    Check,
    Prepare,
    Clear,
    Executes(Execution),
    QueryRaw,
    ExecutesTyped(TypedExecution),
    Close,
    Begin,
    Savepoint,
    Commit,
    Rollback,
    Abandon,
}

/// What line begins with this word.
fn keyword_of(word: &[u8]) -> Option<Keyword>
    ensures { FirstWord word.now result }
{
    if let Some(keyword) = session_keyword_of(word) {
        return Some(keyword);
    }
    if let Some(keyword) = command_keyword_of(word) {
        return Some(keyword);
    }
    if let Some(keyword) = level_keyword_of(word) {
        return Some(keyword);
    }
    if let Some(execution) = execution_of(word) {
        return Some(Keyword::Executes(execution));
    }
    match typed_execution_of(word) {
        Some(execution) => Some(Keyword::ExecutesTyped(execution)),
        None => None,
    }
}

/// What line that is no command begins with this word.
fn session_keyword_of(word: &[u8]) -> Option<Keyword>
    ensures { FirstWordAmong session_keywords word.now result }
{
    if word == b"config".as_slice() {
        return Some(Keyword::Config);
    }
    if word == b"nonce".as_slice() {
        return Some(Keyword::Nonce);
    }
    if word == b"limit".as_slice() {
        return Some(Keyword::Limit);
    }
    if word == b"turns".as_slice() {
        return Some(Keyword::Turns);
    }
    if word == b"handle".as_slice() {
        return Some(Keyword::Handle);
    }
    if word == b"step".as_slice() {
        return Some(Keyword::Step);
    }
    if word == b"cut".as_slice() {
        return Some(Keyword::Cut);
    }
    if word == b"end".as_slice() {
        return Some(Keyword::End);
    }
    None
}

/// What command begins with this word, other than those that execute something in one of several forms.
fn command_keyword_of(word: &[u8]) -> Option<Keyword>
    ensures { FirstWordAmong command_keywords word.now result }
{
    if word == b"simple".as_slice() {
        return Some(Keyword::Simple);
    }
    if word == b"batch".as_slice() {
        return Some(Keyword::Batch);
    }
    if word == b"check".as_slice() {
        return Some(Keyword::Check);
    }
    if word == b"prepare".as_slice() {
        return Some(Keyword::Prepare);
    }
    if word == b"clear".as_slice() {
        return Some(Keyword::Clear);
    }
    if word == b"query_raw".as_slice() {
        return Some(Keyword::QueryRaw);
    }
    if word == b"close".as_slice() {
        return Some(Keyword::Close);
    }
    None
}

/// What command that opens or ends a level of a transaction begins with this word.
fn level_keyword_of(word: &[u8]) -> Option<Keyword>
    ensures { FirstWordAmong level_keywords word.now result }
{
    if word == b"begin".as_slice() {
        return Some(Keyword::Begin);
    }
    if word == b"savepoint".as_slice() {
        return Some(Keyword::Savepoint);
    }
    if word == b"commit".as_slice() {
        return Some(Keyword::Commit);
    }
    if word == b"rollback".as_slice() {
        return Some(Keyword::Rollback);
    }
    if word == b"abandon".as_slice() {
        return Some(Keyword::Abandon);
    }
    None
}

/// Reads what stands behind the first word.
fn read_rest(
    alloc: Global,
    keyword: Keyword,
    words: &mut Words,
) -> Result<Option<Line>, OutOfMemory>
    ensures line { IfOk result (λ found. ReadsRest keyword words.old found) }
    ensures cut { IfOk result (λ found. IfSome found HasCut) }
{
    match keyword {
        Keyword::Config => config_line(alloc, words),
        Keyword::Nonce => nonce_line(alloc, words),
        Keyword::Limit => Ok(limit_line(words)),
        Keyword::Turns => turns_line(alloc, words),
        Keyword::Handle => Ok(handle_line(words)),
        Keyword::Step => step_line(alloc, words),
        Keyword::Cut => Ok(cut_line(words)),
        Keyword::End => Ok(end_line(words)),
        Keyword::Simple => simple_line(alloc, words),
        Keyword::Batch => batch_line(alloc, words),
        Keyword::Check => Ok(check_line(words)),
        Keyword::Prepare => prepare_line(alloc, words),
        Keyword::Clear => Ok(clear_line(words)),
        Keyword::Executes(execution) => execution_line(alloc, execution, words),
        Keyword::QueryRaw => raw_line(alloc, words),
        Keyword::ExecutesTyped(execution) => typed_line(alloc, execution, words),
        Keyword::Close => Ok(close_line(words)),
        Keyword::Begin => Ok(begin_line(words)),
        Keyword::Savepoint => savepoint_line(alloc, words),
        Keyword::Commit => Ok(commit_line(words)),
        Keyword::Rollback => Ok(rollback_line(words)),
        Keyword::Abandon => Ok(abandon_line(words)),
    }
}

fn config_line(alloc: Global, words: &mut Words) -> Result<Option<Line>, OutOfMemory>
    ensures line { IfOk result (λ found. ReadsRest first.Config words.old found) }
    ensures cut { IfOk result (λ found. IfSome found HasCut) }
{
    match only_text(alloc, words)? {
        Some(text) => Ok(Some(Line::Config(text))),
        None => Ok(None),
    }
}

/// A nonce, of any bytes: whether it is in form the session says.
fn nonce_line(alloc: Global, words: &mut Words) -> Result<Option<Line>, OutOfMemory>
    ensures line { IfOk result (λ found. ReadsRest first.Nonce words.old found) }
    ensures cut { IfOk result (λ found. IfSome found HasCut) }
{
    let Some(nonce) = only_quoted(alloc, words)? else {
        return Ok(None);
    };
    Ok(Some(Line::Nonce(Blob::new(nonce))))
}

fn limit_line(words: &mut Words) -> Option<Line>
    ensures line { ReadsRest first.Limit words.old result }
    ensures cut { IfSome result HasCut }
{
    match only_number(words, MOST_BYTES) {
        Some(limit) => Some(Line::Limit(limit)),
        None => None,
    }
}

fn turns_line(alloc: Global, words: &mut Words) -> Result<Option<Line>, OutOfMemory>
    ensures line { IfOk result (λ found. ReadsRest first.Turns words.old found) }
    ensures cut { IfOk result (λ found. IfSome found HasCut) }
{
    match all_numbers(alloc, words)? {
        Some(turns) => Ok(Some(Line::Turns(turns))),
        None => Ok(None),
    }
}

fn handle_line(words: &Words) -> Option<Line>
    ensures line { ReadsRest first.Handle words.now result }
    ensures cut { IfSome result HasCut }
{
    if words.is_done() {
        Some(Line::Handle)
    } else {
        None
    }
}

fn step_line(alloc: Global, words: &mut Words) -> Result<Option<Line>, OutOfMemory>
    ensures line { IfOk result (λ found. ReadsRest first.Step words.old found) }
    ensures cut { IfOk result (λ found. IfSome found HasCut) }
{
    match all_bytes(alloc, words)? {
        Some(entry) => Ok(Some(Line::Step(entry))),
        None => Ok(None),
    }
}

fn cut_line(words: &mut Words) -> Option<Line>
    ensures line { ReadsRest first.Cut words.old result }
    ensures cut { IfSome result HasCut }
{
    match only_number(words, u64::MAX) {
        Some(cut) if cut > 0 => Some(Line::Cut(cut)),
        _ => None,
    }
}

fn end_line(words: &Words) -> Option<Line>
    ensures line { ReadsRest first.End words.now result }
    ensures cut { IfSome result HasCut }
{
    if words.is_done() {
        Some(Line::End)
    } else {
        None
    }
}

/// `TEXT`, or `TEXT take N`.
fn simple_line(alloc: Global, words: &mut Words) -> Result<Option<Line>, OutOfMemory>
    ensures line { IfOk result (λ found. ReadsRest first.Simple words.old found) }
    ensures cut { IfOk result (λ found. IfSome found HasCut) }
{
    match utf8_text(alloc, words)? {
        Some(text) => {
            if words.is_done() {
                return Ok(Some(Line::Command(Command::Simple { text, take: None })));
            }
            match take_number(words) {
                Some(take) => Ok(Some(Line::Command(Command::Simple {
                    text,
                    take: Some(take),
                }))),
                None => Ok(None),
            }
        }
        None => Ok(None),
    }
}

fn batch_line(alloc: Global, words: &mut Words) -> Result<Option<Line>, OutOfMemory>
    ensures line { IfOk result (λ found. ReadsRest first.Batch words.old found) }
    ensures cut { IfOk result (λ found. IfSome found HasCut) }
{
    match only_text(alloc, words)? {
        Some(text) => Ok(Some(Line::Command(Command::Batch { text }))),
        None => Ok(None),
    }
}

fn check_line(words: &Words) -> Option<Line>
    ensures line { ReadsRest first.Check words.now result }
    ensures cut { IfSome result HasCut }
{
    if words.is_done() {
        Some(Line::Command(Command::Check))
    } else {
        None
    }
}

/// `SLOT TEXT TYPE ..`.
fn prepare_line(alloc: Global, words: &mut Words) -> Result<Option<Line>, OutOfMemory>
    ensures line { IfOk result (λ found. ReadsRest first.Prepare words.old found) }
    ensures cut { IfOk result (λ found. IfSome found HasCut) }
{
    let Some(slot) = words.number(u64::MAX) else {
        return Ok(None);
    };
    let Some(text) = utf8_text(alloc, words)? else {
        return Ok(None);
    };
    let Some(types) = all_types(alloc, words)? else {
        return Ok(None);
    };
    Ok(Some(Line::Command(Command::Prepare {
        slot,
        text,
        types: List::new(types),
    })))
}

fn clear_line(words: &Words) -> Option<Line>
    ensures line { ReadsRest first.Clear words.now result }
    ensures cut { IfSome result HasCut }
{
    if words.is_done() {
        Some(Line::Command(Command::Clear))
    } else {
        None
    }
}

/// `@SLOT`.
fn close_line(words: &mut Words) -> Option<Line>
    ensures line { ReadsRest first.Close words.old result }
    ensures cut { IfSome result HasCut }
{
    match only_slot(words) {
        Some(slot) => Some(Line::Command(Command::Close { slot })),
        None => None,
    }
}

/// `@` and the number of a slot, and nothing behind it.
fn only_slot(words: &mut Words) -> Option<u64>
    ensures { OneWord IsSlot words.old result }
{
    let number = next_slot(words);
    if words.is_done() { number } else { None }
}

/// `take N`, and nothing behind it.
fn take_number(words: &mut Words) -> Option<u64>
    ensures { OneWord IsTake words.old result }
{
    let number = next_take(words);
    if words.is_done() { number } else { None }
}

/// Takes `take N`.
pub(crate) fn next_take(words: &mut Words) -> Option<u64>
    ensures { Takes IsTake words.old result words.new }
{
    match words.word() {
        Some(word) => {
            if word == b"take".as_slice() {
                words.number(u64::MAX)
            } else {
                None
            }
        }
        None => None,
    }
}

/// A number, and nothing behind it.
fn only_number(words: &mut Words, most: u64) -> Option<u64>
    ensures { OneWord (IsNumber most) words.old result }
{
    let number = words.number(most);
    if words.is_done() { number } else { None }
}

/// A text in quotes, of any bytes, and nothing behind it.
fn only_quoted(alloc: Global, words: &mut Words) -> Result<Option<Vec<u8>>, OutOfMemory>
    ensures { IfOk result (λ found. OneWord IsQuoted words.old (option_map (λ bytes. bytes.items) found)) }
{
    let Some(bytes) = words.text(alloc)? else {
        return Ok(None);
    };
    if words.is_done() {
        Ok(Some(bytes))
    } else {
        Ok(None)
    }
}

/// A text in quotes that is UTF-8, and nothing behind it.
pub(crate) fn only_text(alloc: Global, words: &mut Words) -> Result<Option<Text>, OutOfMemory>
    ensures { IfOk result (λ found. OneWord IsUtf8Quoted words.old found) }
{
    match utf8_text(alloc, words)? {
        Some(text) => {
            if words.is_done() {
                Ok(Some(text))
            } else {
                Ok(None)
            }
        }
        None => Ok(None),
    }
}

/// A text in quotes that is UTF-8.
pub(crate) fn utf8_text(alloc: Global, words: &mut Words) -> Result<Option<Text>, OutOfMemory>
    ensures { IfOk result (λ found. Takes IsUtf8Quoted words.old found words.new) }
{
    match words.text(alloc)? {
        Some(bytes) => Ok(text_of(bytes)),
        None => Ok(None),
    }
}

/// The text of these bytes, if they are UTF-8.
fn text_of(bytes: Vec<u8>) -> Option<Text>
    ensures { IsTextOf bytes.items result }
{
    match String::from_utf8(bytes) {
        Ok(string) => Some(Text::new(string)),
        Err(_) => None,
    }
}

/// Numbers, up to the end.
fn all_numbers(alloc: Global, words: &mut Words) -> Result<Option<Vec<u32>>, OutOfMemory>
    ensures { IfOk result (λ found. AllWords (IsNumber 4294967295) words.old (option_map (λ turns. turns.items) found)) }
{
    let mut turns = Vec::new(alloc);
    while !words.is_done() {
        match words.number(u32::MAX as u64) {
            Some(turn) => turns.push(turn as u32)?,
            None => return Ok(None),
        }
    }
    Ok(Some(turns))
}

/// Names of types, up to the end.
fn all_types(alloc: Global, words: &mut Words) -> Result<Option<Vec<Oid>>, OutOfMemory>
    ensures { IfOk result (λ found. AllWords IsTypeName words.old (option_map (λ types. types.items) found)) }
{
    let mut types = Vec::new(alloc);
    while !words.is_done() {
        match words.type_name() {
            Some(oid) => types.push(oid)?,
            None => return Ok(None),
        }
    }
    Ok(Some(types))
}

/// Bytes, up to the end, joined.
fn all_bytes(alloc: Global, words: &mut Words) -> Result<Option<Vec<u8>>, OutOfMemory>
    ensures { IfOk result (λ found. AllBytes words.old (option_map (λ entry. entry.items) found)) }
{
    let mut entry = Vec::new(alloc);
    while !words.is_done() {
        match words.bytes(alloc)? {
            Some(bytes) => entry.extend_from_slice(bytes.as_slice())?,
            None => return Ok(None),
        }
    }
    Ok(Some(entry))
}
