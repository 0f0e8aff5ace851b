//! A statement, made of what the server said of it and of the types that were found.

ghost use Rattle.std.specs.Prelude.{◌≡◌, take, drop, IfOk};
ghost use Rattle.pg_core.specs.Prepares as spec;

use crate::description::{Description, NewColumn, NewStatement};
use pg_desk::{Column, Statement};
use pg_types::{List, OutOfMemory, Text, Type};
use std::alloc::Global;
use std::collections::VecDeque;

/// The name of a statement: an s and its number.
pub(crate) fn statement_name(alloc: Global, number: u32) -> Result<Text, OutOfMemory>
    ensures { IfOk result (λ name. name ≡ spec.statement_name number) }
{
    Ok(Text::new(format!(in alloc; "s{number}")?))
}

/// The statement, with the types of its oids.
pub(crate) fn statement_of(
    alloc: Global,
    new: NewStatement,
    types: List<Type>,
) -> Result<Statement, OutOfMemory>
    ensures { IfOk result (λ s. s ≡ spec.statement_of new types) }
{
    let NewStatement { number, described } = new;
    let Description { params, columns } = described;
    let name = statement_name(alloc, number)?;
    let mut types = types.into_vec();
    let others = split_off(alloc, &mut types, params.as_slice().len())?;
    let columns = columns_of(alloc, columns, others)?;
    Statement::new(alloc, name, List::new(types), columns)
}

/// Keeps the first types, and gives the others.
fn split_off(alloc: Global, types: &mut Vec<Type>, count: usize) -> Result<Vec<Type>, OutOfMemory>
    ensures kept { IfOk result (λ _. types.new.items ≡ take count types.old.items) }
    ensures others { IfOk result (λ others. others.items ≡ drop count types.old.items) }
{
    if types.len() <= count {
        return Ok(Vec::new(alloc));
    }
    Ok(types.split_off(count)?)
}

/// The columns, each of its type.
pub fn columns_of(
    alloc: Global,
    columns: List<NewColumn>,
    types: Vec<Type>,
) -> Result<List<Column>, OutOfMemory>
    ensures { IfOk result (λ made. made ≡ spec.columns_of columns types.items) }
{
    let mut columns = VecDeque::from(columns.into_vec());
    let mut types = VecDeque::from(types);
    let mut made = List::empty(alloc);
    loop {
        let Some(column) = columns.pop_front() else {
            return Ok(made);
        };
        let Some(type_) = types.pop_front() else {
            return Ok(made);
        };
        made.push(column.of_type(type_))?;
    }
}
