//! The table of built-in types.

ghost use Rattle.std.specs.Prelude.{◌≡◌, option_map, IfOk};
ghost use Rattle.pg_types.specs.BuiltIns.{row_of, array_kind, kind_of, built_in_type, pg_catalog};

use crate::pg_type::{Kind, PgType};
use crate::{Oid, OutOfMemory, Text, oid};
use std::alloc::Global;

/// What sort of type a row of the table names.
#[derive(Clone, Copy, Drop)]
pub(crate) enum Sort {
    /// A base type.
    Base,
    /// A type that no column has.
    Pseudo,
    /// The array of the base type with this oid.
    ArrayOf(Oid),
}

/// The name and the sort of the built-in type with this oid.
fn row(oid: Oid) -> Option<(&'static str, Sort)>
    ensures name { option_map (λ r. r.0.now) result ≡ option_map (λ r. r.name) (row_of oid) }
    ensures sort { option_map (λ r. r.1) result ≡ option_map (λ r. r.sort) (row_of oid) }
{
    match oid {
        oid::BOOL => Some(("bool", Sort::Base)),
        oid::BYTEA => Some(("bytea", Sort::Base)),
        oid::CHAR => Some(("char", Sort::Base)),
        oid::NAME => Some(("name", Sort::Base)),
        oid::INT8 => Some(("int8", Sort::Base)),
        oid::INT2 => Some(("int2", Sort::Base)),
        oid::INT4 => Some(("int4", Sort::Base)),
        oid::TEXT => Some(("text", Sort::Base)),
        oid::OID => Some(("oid", Sort::Base)),
        oid::UNKNOWN => Some(("unknown", Sort::Base)),
        oid::BPCHAR => Some(("bpchar", Sort::Base)),
        oid::VARCHAR => Some(("varchar", Sort::Base)),
        oid::VOID => Some(("void", Sort::Pseudo)),
        oid::BOOL_ARRAY => Some(("_bool", Sort::ArrayOf(oid::BOOL))),
        oid::BYTEA_ARRAY => Some(("_bytea", Sort::ArrayOf(oid::BYTEA))),
        oid::INT2_ARRAY => Some(("_int2", Sort::ArrayOf(oid::INT2))),
        oid::INT4_ARRAY => Some(("_int4", Sort::ArrayOf(oid::INT4))),
        oid::TEXT_ARRAY => Some(("_text", Sort::ArrayOf(oid::TEXT))),
        oid::VARCHAR_ARRAY => Some(("_varchar", Sort::ArrayOf(oid::VARCHAR))),
        oid::INT8_ARRAY => Some(("_int8", Sort::ArrayOf(oid::INT8))),
        oid::OID_ARRAY => Some(("_oid", Sort::ArrayOf(oid::OID))),
        _ => None,
    }
}

/// The kind of an array of the built-in base type with this oid.
fn array_of(alloc: Global, element: Oid) -> Result<Kind, OutOfMemory>
    ensures { IfOk result (λ kind. kind ≡ array_kind (row_of element)) }
{
    match row(element) {
        Some((name, _)) => Ok(Kind::Array(in_catalog(alloc, name, element, Kind::Simple)?)),
        None => Ok(Kind::Simple),
    }
}

/// The kind of a type of this sort.
fn kind(alloc: Global, sort: Sort) -> Result<Kind, OutOfMemory>
    ensures { IfOk result (λ kind. kind ≡ kind_of sort) }
{
    match sort {
        Sort::Base => Ok(Kind::Simple),
        Sort::Pseudo => Ok(Kind::Pseudo),
        Sort::ArrayOf(element) => array_of(alloc, element),
    }
}

/// A type of the schema `pg_catalog`.
fn in_catalog(alloc: Global, name: &str, oid: Oid, kind: Kind) -> Result<PgType, OutOfMemory>
    ensures { IfOk result (λ t. t ≡ record { name = name.now; oid = oid; kind = kind; schema = pg_catalog }) }
{
    let name = Text::from_str(alloc, name)?;
    let schema = Text::from_str(alloc, "pg_catalog")?;
    PgType::new(alloc, name, oid, kind, schema)
}

/// The built-in type with this oid.
pub(crate) fn built_in(alloc: Global, oid: Oid) -> Result<Option<PgType>, OutOfMemory>
    ensures { IfOk result (λ found. found ≡ built_in_type oid) }
{
    match row(oid) {
        Some((name, sort)) => {
            let kind = kind(alloc, sort)?;
            Ok(Some(in_catalog(alloc, name, oid, kind)?))
        }
        None => Ok(None),
    }
}
