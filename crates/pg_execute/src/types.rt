//! The types of values that are given.
//! A line of a session text tells them by oids, which a state borrows and makes into types in its first step: it
//! takes no memory before, and couldn't borrow types that it makes itself.

ghost use Rattle.std.specs.Prelude.{◌≡◌, ◌++◌, ◌∷◌, ℕ, List as Numbers, OnOk, IfOk};
ghost use Rattle.pg_execute.specs.Types as spec;

use pg_types::{List, Oid, Type};
use std::alloc::{AllocError, Global};

/// The types of values.
#[derive(Drop)]
pub enum Types<'a> {
    Given(&'a [Type]),
    /// The built-in types of these oids.
    BuiltIn(&'a [Oid]),
    /// Where nothing can be borrowed for so long.
    Owned(List<Type>),
}

/// Adds the built-in type of an oid.
fn push_built_in(alloc: Global, oid: Oid, types: &mut Vec<Type>) -> Result<(), AllocError>
    ensures { (oids : Numbers ℕ) → OnOk result (types.new.items ++ spec.built_in_types oids ≡ types.old.items ++ spec.built_in_types (oid ∷ oids)) }
{
    match Type::from_oid(alloc, oid) {
        Ok(Some(ty)) => {
            types.push(ty)?;
            Ok(())
        }
        Ok(None) => Ok(()),
        Err(_) => Err(AllocError),
    }
}

/// The built-in types of these oids.
pub(crate) fn built_in_types(alloc: Global, oids: &[Oid]) -> Result<Vec<Type>, AllocError>
    ensures { IfOk result (λ types. types.items ≡ spec.built_in_types oids.now) }
{
    let mut types = Vec::new(alloc);
    for oid in oids {
        push_built_in(alloc, *oid, &mut types)?;
    }
    Ok(types)
}
