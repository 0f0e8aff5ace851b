//! What a case hands in.

use pg_cases::words::text;
use std::alloc::{AllocError, Global};
use tokio_postgres::types::{Oid, Text, Type, Value};

/// The words before and behind the first one that is this.
pub fn split<'a>(words: &'a [Vec<u8>], at: &str) -> (&'a [Vec<u8>], &'a [Vec<u8>]) {
    for place in 0..words.len() {
        if text(words[place].as_slice()) == at {
            return (&words[..place], &words[place + 1..]);
        }
    }
    (words, &[])
}

/// What a case hands in. Types that aren't built in are left out.
pub struct Given {
    pub values: Vec<Value>,
    pub types: Vec<Type>,
}

impl Drop for Given {
    fn drop(self) {
        let Given {
            values: _,
            types: _,
        } = self;
    }
}

impl Given {
    /// What these words hand in: values, and oids of types.
    pub fn read(alloc: Global, values: &[Vec<u8>], types: &[Vec<u8>]) -> Result<Given, AllocError> {
        Ok(Given {
            values: values_of(alloc, values)?,
            types: types_of(alloc, types)?,
        })
    }
}

/// The value that a word is: `null`, a number, or else a text.
fn value_of(alloc: Global, word: &[u8]) -> Result<Value, AllocError> {
    let word = text(word);
    if word == "null" {
        return Ok(Value::Null);
    }
    if let Ok(n) = word.parse::<i64>() {
        return Ok(Value::Int(n));
    }
    match Text::from_str(alloc, word) {
        Ok(text) => Ok(Value::Text(text)),
        Err(_) => Err(AllocError),
    }
}

/// The values that these words are.
fn values_of(alloc: Global, words: &[Vec<u8>]) -> Result<Vec<Value>, AllocError> {
    let mut values = Vec::new(alloc);
    for word in words {
        values.push(value_of(alloc, word.as_slice())?)?;
    }
    Ok(values)
}

/// The oid that a word is.
fn oid_of(word: &[u8]) -> Oid {
    text(word).parse::<u32>().unwrap_or(0)
}

/// The built-in types of the oids that these words are.
fn types_of(alloc: Global, words: &[Vec<u8>]) -> Result<Vec<Type>, AllocError> {
    let mut types = Vec::new(alloc);
    for word in words {
        match Type::from_oid(alloc, oid_of(word.as_slice())) {
            Ok(Some(ty)) => types.push(ty)?,
            Ok(None) => {}
            Err(_) => return Err(AllocError),
        }
    }
    Ok(types)
}
