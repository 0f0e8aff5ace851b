//! The columns of rows, once their types are known.

ghost use Rattle.std.specs.Prelude.{◌≡◌, length, IfOk, MatchResult};
ghost use Rattle.pg_execute.specs.Typed as spec;
ghost use Rattle.pg_streams.specs.TypedRaw.{oids_of};

use pg_core::{NewColumn, columns_of};
use pg_desk::Statement;
use pg_errors::Error;
use pg_types::{List, Oid, Text, Type};
use std::alloc::{AllocError, Global};
use std::collections::VecDeque;

/// The oids of the types of columns.
pub(crate) fn type_oids(alloc: Global, columns: &[NewColumn]) -> Result<VecDeque<Oid>, AllocError>
    ensures { IfOk result (λ oids. oids.items ≡ oids_of columns.now) }
{
    let mut oids = VecDeque::new(alloc);
    for column in columns {
        oids.push_back(column.type_oid())?;
    }
    Ok(oids)
}

/// What the rows are rows of: a statement without a name. Each column has its type.
pub(crate) fn unnamed(
    alloc: Global,
    columns: List<NewColumn>,
    types: List<Type>,
) -> Result<Statement, Error>
    ensures as_many { MatchResult result (λ s. length types ≡ length columns) (λ e. e ≡ Error.OutOfMemory) }
    ensures is { IfOk result (λ s. s ≡ spec.unnamed columns types) }
{
    if types.as_slice().len() != columns.as_slice().len() {
        return Err(Error::OutOfMemory);
    }
    let Ok(columns) = columns_of(alloc, columns, types.into_vec()) else {
        return Err(Error::OutOfMemory);
    };
    let Ok(name) = Text::from_str(alloc, "") else {
        return Err(Error::OutOfMemory);
    };
    match Statement::new(alloc, name, List::empty(alloc), columns) {
        Ok(statement) => Ok(statement),
        Err(_) => Err(Error::OutOfMemory),
    }
}
