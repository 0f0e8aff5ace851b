//! Types of the server.

ghost use Rattle.std.specs.Prelude.{◌≡◌, IfOk};
ghost use Rattle.pg_types.specs.BuiltIns.{built_in_type};

use crate::held::Held;
use crate::{List, Oid, OutOfMemory, Text, built_ins};
use std::alloc::Global;

/// A type of the server.
pub type Type = PgType;

/// A type of the server.
#[derive(Debug, Drop, PartialEq, Eq)]
#[cycle(types)]
pub struct PgType {
    name: Text,
    oid: Oid,
    kind: Held<Kind>,
    schema: Text,
}

/// What sort of type it is (PostgreSQL documentation, "pg_type", column typtype).
#[derive(Debug, Drop, PartialEq, Eq)]
#[cycle(types)]
pub enum Kind {
    /// A base type.
    Simple,
    /// An enumeration, with its labels in order.
    Enum(List<Text>),
    /// A type that no column has.
    Pseudo,
    /// An array of values of this type.
    Array(PgType),
    /// A range over values of this type.
    Range(PgType),
    /// A domain over this type.
    Domain(PgType),
    /// A composite type, with its fields in order.
    Composite(List<Field>),
}

/// A field of a composite type.
#[derive(Debug, Drop, PartialEq, Eq)]
#[cycle(types)]
pub struct Field {
    name: Text,
    type_: PgType,
}

impl PgType {
    /// A type of this name in this schema. Where memory lacks, what was handed in is dropped.
    pub fn new(
        alloc: Global,
        name: Text,
        oid: Oid,
        kind: Kind,
        schema: Text,
    ) -> Result<Type, OutOfMemory>
        ensures { IfOk result (λ t. t ≡ record { name = name; oid = oid; kind = kind; schema = schema }) }
    {
        let kind = Held::new(alloc, kind)?;
        Ok(PgType {
            name,
            oid,
            kind,
            schema,
        })
    }

    /// The built-in type with this oid. None: it isn't built-in, and the server has to be asked.
    pub fn from_oid(alloc: Global, oid: Oid) -> Result<Option<Type>, OutOfMemory>
        ensures { IfOk result (λ found. found ≡ built_in_type oid) }
    {
        built_ins::built_in(alloc, oid)
    }

    /// The name of the type.
    pub fn name(&self) -> &str
        ensures { result.now ≡ self.now.name }
    {
        self.name.as_str()
    }

    /// The object identifier of the type.
    pub fn oid(&self) -> Oid
        ensures { result ≡ self.now.oid }
    {
        self.oid
    }

    /// What kind of type it is.
    pub fn kind(&self) -> &Kind
        ensures { result.now ≡ self.now.kind }
    {
        self.kind.get()
    }

    /// An equal type.
    #[cycle(copy)]
    pub fn copy(&self, alloc: Global) -> Result<Type, OutOfMemory>
        ensures { IfOk result (λ t. t ≡ self.now) }
    {
        let name = self.name.copy(alloc)?;
        let schema = self.schema.copy(alloc)?;
        let kind = Held::new(alloc, copy_kind(self.kind.get(), alloc)?)?;
        Ok(PgType {
            name,
            oid: self.oid,
            kind,
            schema,
        })
    }

    /// The schema that the type stands in.
    pub fn schema(&self) -> &str
        ensures { result.now ≡ self.now.schema }
    {
        self.schema.as_str()
    }
}

/// An equal kind.
#[cycle(copy)]
fn copy_kind(kind: &Kind, alloc: Global) -> Result<Kind, OutOfMemory>
    ensures { IfOk result (λ k. k ≡ kind.now) }
{
    match kind {
        Kind::Simple => Ok(Kind::Simple),
        Kind::Enum(labels) => Ok(Kind::Enum(copy_texts(labels.as_slice(), alloc)?)),
        Kind::Pseudo => Ok(Kind::Pseudo),
        Kind::Array(element) => Ok(Kind::Array(element.copy(alloc)?)),
        Kind::Range(element) => Ok(Kind::Range(element.copy(alloc)?)),
        Kind::Domain(base) => Ok(Kind::Domain(base.copy(alloc)?)),
        Kind::Composite(fields) => Ok(Kind::Composite(copy_fields(fields.as_slice(), alloc)?)),
    }
}

/// Equal texts.
fn copy_texts(texts: &[Text], alloc: Global) -> Result<List<Text>, OutOfMemory>
    ensures { IfOk result (λ copies. copies ≡ texts.now) }
{
    let mut copies = List::empty(alloc);
    for text in texts {
        copies.push(text.copy(alloc)?)?;
    }
    Ok(copies)
}

/// Equal fields.
#[cycle(copy)]
fn copy_fields(fields: &[Field], alloc: Global) -> Result<List<Field>, OutOfMemory>
    ensures { IfOk result (λ copies. copies ≡ fields.now) }
{
    let mut copies = List::empty(alloc);
    for field in fields {
        copies.push(field.copy(alloc)?)?;
    }
    Ok(copies)
}

impl Field {
    /// A field of a composite type.
    pub fn new(name: Text, type_: Type) -> Field
        ensures { result ≡ record { name = name; type_ = type_ } }
    {
        Field { name, type_ }
    }

    /// The name of the field.
    pub fn name(&self) -> &str
        ensures { result.now ≡ self.now.name }
    {
        self.name.as_str()
    }

    /// The type of the field.
    pub fn type_(&self) -> &Type
        ensures { result.now ≡ self.now.type_ }
    {
        &self.type_
    }

    /// An equal field.
    #[cycle(copy)]
    pub fn copy(&self, alloc: Global) -> Result<Field, OutOfMemory>
        ensures { IfOk result (λ f. f ≡ self.now) }
    {
        let name = self.name.copy(alloc)?;
        Ok(Field {
            name,
            type_: self.type_.copy(alloc)?,
        })
    }
}
