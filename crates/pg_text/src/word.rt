//! The words of a line, which single spaces separate.

ghost use Rattle.std.specs.Prelude.{◌≡◌, ◌≢◌, ◌<◌, ◌↔◌, ℕ, length, slice_index, EachIndex, IfOk, MatchOption, IsTrue, is_none, option_map};
ghost use Rattle.std.specs.Int.{IsInRange};
ghost use Rattle.pg_spec.specs.SessionText.{IsBytes, IsHex, IsNumber, IsQuoted};
ghost use Rattle.pg_text.specs.SessionText.{IsTypeName};
ghost use Rattle.pg_text.specs.Words.{BeginsWithQuote, IsHexWord, IsWord, LeavesBehind, Means, Takes};

use crate::quoted::{Quoted, read_quoted};
use crate::type_name::oid_named;
use memchr::memchr;
use pg_types::{Oid, OutOfMemory};
use std::alloc::Global;
use std::marker::Model;

/// The words of a line that aren't read yet.
#[derive(Drop)]
pub(crate) struct Words<'a> {
    rest: Option<&'a [u8]>,
}

impl<'a> Model for Words<'a> {
    ghost use Rattle.std.specs.Prelude.{List, ℕ, Option, option_map};

    ghost Value = { Option (List ℕ) };

    ghost view = { λ w. option_map (λ rest. rest.now) w.rest };
}

impl<'a> Words<'a> {
    /// The words of a line.
    pub(crate) fn new(line: &'a [u8]) -> Words<'a>
        ensures { result ≡ Some line.now }
    {
        Words { rest: Some(line) }
    }

    /// The same words.
    pub(crate) fn copy(&self) -> Words<'a>
        ensures { result ≡ self.now }
    {
        Words { rest: self.rest }
    }

    /// All words were read.
    pub(crate) fn is_done(&self) -> bool
        ensures { result ≡ is_none self.now }
    {
        self.rest.is_none()
    }

    /// Takes the bytes up to the next space or the end.
    pub(crate) fn word(&mut self) -> Option<&'a [u8]>
        ensures { Takes IsWord self.old (option_map (λ word. word.now) result) self.new }
    {
        match self.rest {
            Some(rest) => {
                let (word, left) = split_word(rest);
                self.rest = left;
                Some(word)
            }
            None => None,
        }
    }

    /// Takes a number in decimal digits, of at most `most`.
    pub(crate) fn number(&mut self, most: u64) -> Option<u64>
        ensures { Takes (IsNumber most) self.old result self.new }
    {
        match self.word() {
            Some(digits) => number_of(digits, most),
            None => None,
        }
    }

    /// Takes the name of a built-in type.
    pub(crate) fn type_name(&mut self) -> Option<Oid>
        ensures { Takes IsTypeName self.old result self.new }
    {
        match self.word() {
            Some(name) => oid_named(name),
            None => None,
        }
    }

    /// Takes a text in quotes.
    pub(crate) fn text(&mut self, alloc: Global) -> Result<Option<Vec<u8>>, OutOfMemory>
        ensures { IfOk result (λ found. Takes IsQuoted self.old (option_map (λ bytes. bytes.items) found) self.new) }
    {
        let Some(rest) = self.rest else {
            return Ok(None);
        };
        match read_quoted(alloc, rest)? {
            Some(quoted) => {
                let Quoted { bytes, used } = quoted;
                if self.step_to(&rest[used..]) {
                    Ok(Some(bytes))
                } else {
                    Ok(None)
                }
            }
            None => Ok(None),
        }
    }

    /// Takes bytes as hex, of which there is at least one, or as a text in quotes.
    pub(crate) fn bytes(&mut self, alloc: Global) -> Result<Option<Vec<u8>>, OutOfMemory>
        ensures { IfOk result (λ found. Takes IsBytes self.old (option_map (λ bytes. bytes.items) found) self.new) }
    {
        if self.is_at_quote() {
            let found = self.text(alloc)?;
            return Ok(found);
        }
        let found = self.hex(alloc)?;
        Ok(found)
    }

    /// The next word begins with a quote.
    pub(crate) fn is_at_quote(&self) -> bool
        ensures { IsTrue result ↔ BeginsWithQuote self.now }
    {
        match self.rest {
            Some([b'"', ..]) => true,
            _ => false,
        }
    }

    /// Takes bytes as hex, of which there is at least one.
    fn hex(&mut self, alloc: Global) -> Result<Option<Vec<u8>>, OutOfMemory>
        ensures { IfOk result (λ found. Takes IsHexWord self.old (option_map (λ bytes. bytes.items) found) self.new) }
    {
        match self.word() {
            Some(digits) => {
                let found = hex_bytes(alloc, digits)?;
                Ok(found)
            }
            None => Ok(None),
        }
    }

    /// Goes on where a word has ended, which the end or a space must follow.
    fn step_to(&mut self, behind: &'a [u8]) -> bool
        ensures { LeavesBehind behind.now result self.new }
    {
        match behind {
            [] => {
                self.rest = None;
                true
            }
            [b' ', words @ ..] => {
                self.rest = Some(words);
                true
            }
            _ => false,
        }
    }
}

/// The bytes up to the first space, and what stands behind it.
fn split_word(bytes: &[u8]) -> (&[u8], Option<&[u8]>)
    ensures { Takes IsWord (Some bytes.now) (Some result.0.now) (option_map (λ left. left.now) result.1) }
{
    match space_in(bytes) {
        Some(at) => (&bytes[..at], Some(&bytes[at + 1..])),
        None => (bytes, None),
    }
}

/// Where the first space is.
fn space_in(bytes: &[u8]) -> Option<usize>
    ensures { MatchOption result
        (EachIndex bytes.now (λ k. slice_index bytes.now k ≢ 32))
        (λ at. (at < length bytes.now) × (slice_index bytes.now at ≡ 32) × ((k : ℕ) → k < at → slice_index bytes.now k ≢ 32)) }
{
    memchr(b' ', bytes)
}

/// The number that decimal digits spell, where it is at most `most`. None for anything else, a larger number too.
pub fn number_of(digits: &[u8], most: u64) -> Option<u64>
    ensures { Means (IsNumber most) digits.now result }
{
    if !are_digits(digits) {
        return None;
    }
    let Ok(text) = str::from_utf8(digits) else {
        return None;
    };
    match text.parse::<u64>() {
        Ok(number) if number <= most => Some(number),
        _ => None,
    }
}

fn are_digits(bytes: &[u8]) -> bool
    ensures { IsTrue result ↔ EachIndex bytes.now (λ k. IsInRange 48 57 (slice_index bytes.now k)) }
{
    bytes.iter().all(|byte| byte.is_ascii_digit())
}

/// The bytes that hex digits of either case spell, at least one.
fn hex_bytes(alloc: Global, digits: &[u8]) -> Result<Option<Vec<u8>>, OutOfMemory>
    ensures { IfOk result (λ found. Means IsHexWord digits.now (option_map (λ bytes. bytes.items) found)) }
{
    if digits.is_empty() {
        return Ok(None);
    }
    hex_of(alloc, digits)
}

/// The bytes that hex digits of either case spell, which may be none.
pub(crate) fn hex_of(alloc: Global, digits: &[u8]) -> Result<Option<Vec<u8>>, OutOfMemory>
    ensures { IfOk result (λ found. Means IsHex digits.now (option_map (λ bytes. bytes.items) found)) }
{
    match hex::decode(alloc, digits) {
        Ok(bytes) => Ok(Some(bytes)),
        Err(fault) => match fault {
            hex::FromHexError::OutOfMemory => Err(OutOfMemory),
            _ => Ok(None),
        },
    }
}
