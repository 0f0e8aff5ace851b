//! Which types have values here.

ghost use Rattle.std.specs.Prelude.{◌≡◌};
ghost use Rattle.pg_values.specs.Supported.{is_supported, is_scalar, are_supported};
ghost use Rattle.pg_types.proofs.KindLaws.{row_of};
ghost use Rattle.pg_types.specs.Values.{type_fault};
ghost use Rattle.pg_types.specs.declared.fault.RustType.TheVariants as rust_type;

use pg_types::{Field, FromSql, Kind, RustType, Type, Value, WrongType};

/// Whether a type without parts has values here.
fn is_scalar(ty: &Type) -> bool
    ensures { result ≡ is_scalar ty.now.oid }
{
    <Value as FromSql>::accepts(ty) || matches!(ty.oid(), 1700 | 1082 | 1114 | 1184 | 2950)
}

/// Whether a type has values here.
#[cycle(supported)]
pub(crate) fn is_supported(ty: &Type) -> bool
    ensures { result ≡ is_supported ty.now }
{
    match ty.kind() {
        Kind::Simple => is_scalar(ty),
        Kind::Enum(_) => true,
        Kind::Pseudo => false,
        Kind::Array(element) => is_supported(element),
        Kind::Range(element) => is_supported(element),
        Kind::Domain(base) => is_supported(base),
        Kind::Composite(fields) => are_supported(fields.as_slice()),
    }
}

/// Whether the types of all fields have values here.
#[cycle(supported)]
fn are_supported(fields: &[Field]) -> bool
    ensures { result ≡ are_supported (row_of fields.now) }
{
    for field in fields {
        if !is_supported(field.type_()) {
            return false;
        }
    }
    true
}

/// The fault of a type that isn't supported.
pub(crate) fn type_fault(ty: &Type) -> Option<WrongType>
    ensures { result ≡ type_fault (is_supported ty.now) ty.now.oid rust_type.Other }
{
    if is_supported(ty) {
        None
    } else {
        Some(WrongType {
            postgres: ty.oid(),
            rust: RustType::Other,
        })
    }
}
