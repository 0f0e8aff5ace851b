//! Types of the server.

use pg_types::{Field, Kind, List, OutOfMemory, Text, Type};
use std::alloc::{AllocError, Global};

fn word_of(kind: &Kind) -> &'static str {
    match kind {
        Kind::Simple => " simple",
        Kind::Pseudo => " pseudo",
        Kind::Enum(_) => " enum",
        Kind::Array(_) => " array",
        Kind::Range(_) => " range",
        Kind::Domain(_) => " domain",
        Kind::Composite(_) => " composite",
    }
}

/// The type that a kind is over.
fn base_of(kind: &Kind) -> Option<&Type> {
    match kind {
        Kind::Array(of) => Some(of),
        Kind::Range(of) => Some(of),
        Kind::Domain(of) => Some(of),
        _ => None,
    }
}

/// How many labels or fields a kind has.
fn count_of(kind: &Kind) -> usize {
    match kind {
        Kind::Enum(labels) => labels.as_slice().len(),
        Kind::Composite(fields) => fields.as_slice().len(),
        _ => 0,
    }
}

fn tell_base(base: Option<&Type>, out: &mut String) -> Result<(), AllocError> {
    match base {
        Some(of) => write!(out, " of {}.{}", of.schema(), of.name()),
        None => Ok(()),
    }
}

fn tell_count(count: usize, out: &mut String) -> Result<(), AllocError> {
    match count {
        0 => Ok(()),
        _ => write!(out, " of {count}"),
    }
}

fn tell_kind(kind: &Kind, out: &mut String) -> Result<(), AllocError> {
    out.push_str(word_of(kind))?;
    tell_base(base_of(kind), out)?;
    tell_count(count_of(kind), out)
}

fn tell_type(ty: &Type, out: &mut String) -> Result<(), AllocError> {
    write!(out, " {} {}.{}", ty.oid(), ty.schema(), ty.name())?;
    tell_kind(ty.kind(), out)
}

/// A type, and whether it is equal to another.
fn tell_equal(copy: &Type, ty: &Type, out: &mut String) -> Result<(), AllocError> {
    tell_type(copy, out)?;
    write!(out, " equal {}", copy == ty)
}

fn tell_copied(
    copy: &Result<Type, OutOfMemory>,
    ty: &Type,
    out: &mut String,
) -> Result<(), AllocError> {
    match copy {
        Ok(copy) => tell_equal(copy, ty, out),
        Err(OutOfMemory) => Err(AllocError),
    }
}

/// The type, by its copy, and whether both are equal.
fn tell_copy(alloc: Global, ty: &Type, out: &mut String) -> Result<(), AllocError> {
    let copy = ty.copy(alloc);
    tell_copied(&copy, ty, out)
}

/// The built-in type of an oid.
pub(crate) fn tell(alloc: Global, oid: u32, out: &mut String) -> Result<(), AllocError> {
    match Type::from_oid(alloc, oid) {
        Ok(Some(ty)) => tell_copy(alloc, &ty, out),
        Ok(None) => out.push_str(" none"),
        Err(OutOfMemory) => Err(AllocError),
    }
}

/// A name, and the schema `public`.
fn names(alloc: Global, name: &str) -> Result<(Text, Text), OutOfMemory> {
    let name = Text::from_str(alloc, name)?;
    let schema = Text::from_str(alloc, "public")?;
    Ok((name, schema))
}

fn labels(alloc: Global) -> Result<List<Text>, OutOfMemory> {
    let label = Text::from_str(alloc, "happy")?;
    let mut labels = List::empty(alloc);
    labels.push(label)?;
    Ok(labels)
}

/// An enumeration of one label.
fn mood(alloc: Global) -> Result<Type, OutOfMemory> {
    let labels = labels(alloc)?;
    let (name, schema) = names(alloc, "mood")?;
    Type::new(alloc, name, 90000, Kind::Enum(labels), schema)
}

/// A field of the enumeration.
fn feels(alloc: Global) -> Result<Field, OutOfMemory> {
    let name = Text::from_str(alloc, "feels")?;
    let mood = mood(alloc)?;
    Ok(Field::new(name, mood))
}

fn fields(alloc: Global) -> Result<List<Field>, OutOfMemory> {
    let field = feels(alloc)?;
    let mut fields = List::empty(alloc);
    fields.push(field)?;
    Ok(fields)
}

/// A composite type with a field of the enumeration.
fn composite(alloc: Global) -> Result<Type, OutOfMemory> {
    let fields = fields(alloc)?;
    let (name, schema) = names(alloc, "row")?;
    Type::new(alloc, name, 90001, Kind::Composite(fields), schema)
}

fn range(alloc: Global) -> Result<Type, OutOfMemory> {
    let mood = mood(alloc)?;
    let (name, schema) = names(alloc, "t")?;
    Type::new(alloc, name, 90002, Kind::Range(mood), schema)
}

fn domain(alloc: Global) -> Result<Type, OutOfMemory> {
    let mood = mood(alloc)?;
    let (name, schema) = names(alloc, "t")?;
    Type::new(alloc, name, 90002, Kind::Domain(mood), schema)
}

/// A type that isn't built-in, by the name of its kind.
fn made(alloc: Global, kind: &str) -> Result<Type, OutOfMemory> {
    match kind {
        "enum" => mood(alloc),
        "composite" => composite(alloc),
        "range" => range(alloc),
        _ => domain(alloc),
    }
}

/// A type that isn't built-in, by its copy.
pub(crate) fn tell_made(alloc: Global, kind: &str, out: &mut String) -> Result<(), AllocError> {
    match made(alloc, kind) {
        Ok(ty) => tell_copy(alloc, &ty, out),
        Err(OutOfMemory) => Err(AllocError),
    }
}

fn tell_field(copy: &Field, out: &mut String) -> Result<(), AllocError> {
    write!(out, " {}", copy.name())?;
    tell_type(copy.type_(), out)
}

/// A field, by its copy.
fn tell_field_copy(alloc: Global, field: &Field, out: &mut String) -> Result<(), AllocError> {
    match field.copy(alloc) {
        Ok(copy) => tell_field(&copy, out),
        Err(OutOfMemory) => Err(AllocError),
    }
}

fn tell_fields_of(alloc: Global, kind: &Kind, out: &mut String) -> Result<(), AllocError> {
    if let Kind::Composite(fields) = kind {
        for field in fields.as_slice() {
            tell_field_copy(alloc, field, out)?;
        }
    }
    Ok(())
}

/// The fields of the composite type.
pub(crate) fn tell_fields(alloc: Global, out: &mut String) -> Result<(), AllocError> {
    match composite(alloc) {
        Ok(ty) => tell_fields_of(alloc, ty.kind(), out),
        Err(OutOfMemory) => Err(AllocError),
    }
}

fn is_domain(alloc: Global, range: &Type) -> Result<bool, OutOfMemory> {
    let domain = domain(alloc)?;
    Ok(domain == *range)
}

fn are_equal(alloc: Global) -> Result<bool, OutOfMemory> {
    let range = range(alloc)?;
    is_domain(alloc, &range)
}

/// Whether the range and the domain of one name and oid are equal.
pub(crate) fn tell_unequal(alloc: Global, out: &mut String) -> Result<(), AllocError> {
    match are_equal(alloc) {
        Ok(equal) => write!(out, " {equal}"),
        Err(OutOfMemory) => Err(AllocError),
    }
}
