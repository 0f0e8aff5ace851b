//! The types of a text's first parameters, as they are told.

ghost use Rattle.std.specs.Prelude.{◌≡◌, map, IfOk};
ghost use Rattle.pg_core.specs.ParamTypes.{param_oids};

use pg_types::{List, Oid, Type};
use std::alloc::{AllocError, Global};

/// The types of a text's first parameters. The server finds those of any further ones.
pub enum ParamTypes<'a> {
    /// The types of these oids.
    Oids(&'a [Oid]),
    Types(&'a [Type]),
    /// Types that are owned, where nothing can be borrowed for so long.
    Owned(List<Type>),
}

impl<'a> Drop for ParamTypes<'a> {
    fn drop(self) {
        match self {
            ParamTypes::Oids(_oids) => {}
            ParamTypes::Types(_types) => {}
            ParamTypes::Owned(types) => drop(types),
        }
    }
}

/// The oids of types. Its error is want of memory.
pub(crate) fn oids_of(alloc: Global, types: &[Type]) -> Result<Vec<Oid>, AllocError>
    ensures { IfOk result (λ oids. oids.items ≡ map (λ ty. ty.oid) types.now) }
{
    let mut oids = Vec::new(alloc);
    for ty in types {
        oids.push(ty.oid())?;
    }
    Ok(oids)
}
