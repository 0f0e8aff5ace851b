//! Types, written as words: a number is a built-in or a simple type, `enum=NUMBER:LABEL,..` and `row=NUMBER:NUMBER,..` are an enum
//! and a composite, and `array=NUMBER.`, `range=NUMBER.` and `domain=NUMBER.` stand before the type that they hold.

use pg_types::{Field, Kind, List, OutOfMemory, Text, Type};
use std::alloc::Global;

/// A type of this number and kind.
fn typed(alloc: Global, oid: u32, kind: Kind) -> Result<Type, OutOfMemory> {
    let name = Text::from_str(alloc, "t")?;
    let schema = Text::from_str(alloc, "s")?;
    Type::new(alloc, name, oid, kind, schema)
}

/// The built-in or the simple type of this number.
fn simple(alloc: Global, oid: u32) -> Result<Type, OutOfMemory> {
    match Type::from_oid(alloc, oid)? {
        Some(ty) => Ok(ty),
        None => typed(alloc, oid, Kind::Simple),
    }
}

/// Labels, parted by commas.
fn labels(alloc: Global, words: &str) -> Result<List<Text>, OutOfMemory> {
    let mut labels = List::empty(alloc);
    for word in words.split(',') {
        if labels.push(Text::from_str(alloc, word)?).is_err() {
            return Err(OutOfMemory);
        }
    }
    Ok(labels)
}

/// Fields of simple types, their numbers parted by commas.
fn fields(alloc: Global, words: &str) -> Result<List<Field>, OutOfMemory> {
    let mut fields = List::empty(alloc);
    for word in words.split(',') {
        let ty = simple(alloc, word.parse::<u32>().unwrap_or(0))?;
        let field = Field::new(Text::from_str(alloc, "f")?, ty);
        if fields.push(field).is_err() {
            return Err(OutOfMemory);
        }
    }
    Ok(fields)
}

/// A type that holds no other in its word.
fn leaf(alloc: Global, word: &str) -> Result<Type, OutOfMemory> {
    let (head, words) = word.split_once(':').unwrap_or((word, ""));
    let (name, number) = head.split_once('=').unwrap_or(("", head));
    let oid = number.parse::<u32>().unwrap_or(0);
    match name {
        "enum" => typed(alloc, oid, Kind::Enum(labels(alloc, words)?)),
        "row" => typed(alloc, oid, Kind::Composite(fields(alloc, words)?)),
        "pseudo" => typed(alloc, oid, Kind::Pseudo),
        _ => simple(alloc, oid),
    }
}

/// A type that holds another.
fn holding(alloc: Global, word: &str, held: Type) -> Result<Type, OutOfMemory> {
    let (name, number) = word.split_once('=').unwrap_or((word, ""));
    let oid = number.parse::<u32>().unwrap_or(0);
    match name {
        "range" => typed(alloc, oid, Kind::Range(held)),
        "domain" => typed(alloc, oid, Kind::Domain(held)),
        _ => typed(alloc, oid, Kind::Array(held)),
    }
}

/// The type that the words, parted by dots, say.
pub fn type_of(alloc: Global, words: &str) -> Result<Type, OutOfMemory> {
    let (holders, last) = words.rsplit_once('.').unwrap_or(("", words));
    let mut ty = leaf(alloc, last)?;
    for word in holders.rsplit('.') {
        if !word.is_empty() {
            ty = holding(alloc, word, ty)?;
        }
    }
    Ok(ty)
}
