//! The key-value form of connection strings (PostgreSQL documentation, "Keyword/Value Connection
//! Strings").

ghost use Rattle.std.specs.Prelude.{◌≡◌, ◌++◌, ◌+◌, ◌<◌, ◌≤◌, length, true, false, drop, IfOk, MatchOption, Result, string_bytes, if◌then◌else◌, []};
ghost use Rattle.std.specs.Char.{encode_utf8};
ghost use Rattle.std.specs.Str.{byte, encode_utf8_all};
ghost use Rattle.pg_config.specs.Fronts.{IsValueAt, LeavesBelow, escapes, front_view};
ghost use Rattle.pg_config.specs.KeyValueReading.{KeyValuesSay, behind_while, front_of, front_while, is_in_run, keyed, valued};
ghost use Rattle.pg_config.specs.KeyValue as spec;
ghost use Rattle.pg_config.specs.Numbers.{begins_with};
ghost use Rattle.pg_config.specs.Outcomes.{IsAnswered};

use crate::config::Config;
use pg_types::{Cause, Error, OutOfMemory};
use std::alloc::Global;

/// What a text begins with.
#[derive(Drop)]
pub(crate) enum Front<'a> {
    /// No key: the end.
    Done,
    /// A key, but no value.
    Broken,
    Parameter {
        key: String,
        value: String,
        rest: &'a [char],
    },
}

/// A value, and how many characters it takes in its text.
#[derive(Drop)]
struct Value {
    text: String,
    used: usize,
}

/// The settings that the characters of a text say.
pub(crate) fn read_key_values(alloc: Global, text: &[char]) -> Result<Config, Error>
    ensures { (said : Result Config Cause) → KeyValuesSay text.now said → IsAnswered said result }
{
    let mut config = Config::new(alloc);
    let mut rest = text;
    'parameters: loop {
        match read_front(alloc, rest)? {
            Front::Parameter {
                key,
                value,
                rest: behind,
            } => {
                config.param(alloc, key.as_str(), value.as_str())?;
                rest = behind;
            }
            Front::Done => return Ok(config),
            Front::Broken => return Err(Error::ConfigParse(Cause::Syntax)),
        }
    }
}

/// White space, a key, white space, `=`, white space and a value.
fn read_front(alloc: Global, text: &[char]) -> Result<Front<'_>, OutOfMemory>
    ensures front { IfOk result (λ front. front_view front ≡ front_of text.now) }
    ensures shorter { IfOk result (LeavesBelow (length text.now)) }
{
    let (_, text) = cut_run(text, false);
    let (key, behind) = cut_run(text, true);
    let (_, behind) = cut_run(behind, false);
    read_keyed(alloc, key, behind)
}

/// What stands behind a key.
fn read_keyed<'a>(alloc: Global, key: &[char], text: &'a [char]) -> Result<Front<'a>, OutOfMemory>
    ensures front { IfOk result (λ front. front_view front ≡ keyed key.now text.now) }
    ensures shorter { IfOk result (LeavesBelow (length text.now)) }
{
    if key.is_empty() {
        return Ok(Front::Done);
    }
    match behind_equals(text) {
        Some(behind) => {
            let key = text_of(alloc, key)?;
            let (_, value) = cut_run(behind, false);
            read_valued(alloc, key, value)
        }
        None => Ok(Front::Broken),
    }
}

/// What stands behind the `=` in front.
fn behind_equals(text: &[char]) -> Option<&[char]>
    ensures { MatchOption result (begins_with (byte "=") text.now ≡ false) (λ behind. (begins_with (byte "=") text.now ≡ true) × (behind.now ≡ drop 1 text.now)
        × (length behind.now < length text.now)) }
{
    match text {
        ['=', behind @ ..] => Some(behind),
        _ => None,
    }
}

/// The value of a key.
fn read_valued(alloc: Global, key: String, text: &[char]) -> Result<Front<'_>, OutOfMemory>
    ensures front { IfOk result (λ front. front_view front ≡ valued (string_bytes key) text.now) }
    ensures shorter { IfOk result (LeavesBelow (length text.now + 1)) }
{
    match text {
        ['\'', inner @ ..] => {
            let Value { text: value, used } = read_value(alloc, inner, true)?;
            match &inner[used..] {
                ['\'', rest @ ..] => Ok(Front::Parameter { key, value, rest }),
                _ => Ok(Front::Broken),
            }
        }
        _ => {
            let Value { text: value, used } = read_value(alloc, text, false)?;
            if value.is_empty() {
                return Ok(Front::Broken);
            }
            Ok(Front::Parameter {
                key,
                value,
                rest: &text[used..],
            })
        }
    }
}

/// The longest front of white space, or of a key, and what stands behind it.
fn cut_run(text: &[char], key: bool) -> (&[char], &[char])
    ensures front { result.0.now ≡ front_while (is_in_run key) text.now }
    ensures behind { result.1.now ≡ behind_while (is_in_run key) text.now }
    ensures shorter { length result.1.now ≤ length text.now }
{
    for at in 0..text.len() {
        if !is_run_character(key, text[at]) {
            return (&text[..at], &text[at..]);
        }
    }
    (text, &text[text.len()..])
}

fn is_run_character(key: bool, c: char) -> bool
    ensures { result ≡ is_in_run key c }
{
    if key {
        !c.is_whitespace() && c != '='
    } else {
        c.is_whitespace()
    }
}

/// The bytes of these characters.
fn text_of(alloc: Global, characters: &[char]) -> Result<String, OutOfMemory>
    ensures { IfOk result (λ text. string_bytes text ≡ encode_utf8_all characters.now) }
{
    let mut text = String::new(alloc);
    for c in characters {
        text.push(*c)?;
    }
    Ok(text)
}

/// A value, up to a quote or up to white space.
fn read_value(alloc: Global, text: &[char], quoted: bool) -> Result<Value, OutOfMemory>
    ensures { IfOk result (IsValueAt quoted text.now) }
{
    let mut value = String::new(alloc);
    let mut escaped = false;
    for at in 0..text.len() {
        if !escaped && ends_value(quoted, text[at]) {
            return Ok(Value {
                text: value,
                used: at,
            });
        }
        escaped = take_character(&mut value, escaped, text[at])?;
    }
    Ok(Value {
        text: value,
        used: text.len(),
    })
}

/// A quote ends a value in quotes, and white space any other.
fn ends_value(quoted: bool, c: char) -> bool
    ensures { result ≡ spec.ends_value quoted c }
{
    if quoted { c == '\'' } else { c.is_whitespace() }
}

/// Takes a character of a value: a backslash takes the next one as it is.
fn take_character(value: &mut String, escaped: bool, c: char) -> Result<bool, OutOfMemory>
    ensures next { IfOk result (λ next. next ≡ escapes escaped c) }
    ensures bytes { IfOk result (λ next. string_bytes value.new ≡ string_bytes value.old ++ (if escapes escaped c then [] else encode_utf8 c)) }
{
    if !escaped && c == '\\' {
        return Ok(true);
    }
    value.push(c)?;
    Ok(false)
}
