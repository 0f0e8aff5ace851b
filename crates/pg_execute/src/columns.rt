//! The columns of rows, and what is made of rows once the types of their columns are known.

ghost use Rattle.std.specs.Prelude.{◌≡◌, ◌≤◌, false, map, IfOk};
ghost use Rattle.pg_query.specs.Reading.{reads};
ghost use Rattle.pg_execute.specs.Typed as spec;
ghost use Rattle.pg_execute.specs.Typing.{made};

use crate::{Got, HowMany, Make, ReadsOn, ResultSet, RowsReading, WholeRows};
use pg_core::{Finder, NewColumn, columns_of};
use pg_desk::Statement;
use pg_errors::Error;
use pg_query::Script;
use pg_types::{List, Oid, Text, Type};
use std::alloc::{AllocError, Global};
use std::collections::VecDeque;

/// Rows that are read on.
pub type ReadRows = ReadsOn<RowsReading<WholeRows>>;

/// The oids of the types of columns.
pub(crate) fn type_oids(alloc: Global, columns: &[NewColumn]) -> Result<VecDeque<Oid>, AllocError>
    ensures { IfOk result (λ oids. oids.items ≡ map (λ f. f.type_oid) columns.now) }
{
    let mut oids = VecDeque::new(alloc);
    for column in columns {
        oids.push_back(column.type_oid())?;
    }
    Ok(oids)
}

/// The search for the types of columns.
pub(crate) fn search_for<F: Finder>(
    alloc: Global,
    columns: &[NewColumn],
    finder: F,
) -> Result<F::Search, AllocError>
    ensures finds { IfOk result (λ search. F.Search.dialogue search ≡ F.finds finder (map (λ f. f.type_oid) columns.now)) }
    ensures most { IfOk result (λ search. F.Search.steps search ≤ F.most finder) }
{
    let oids = type_oids(alloc, columns)?;
    finder.find(alloc, oids)
}

/// What the rows are rows of: a statement without a name.
fn unnamed(
    alloc: Global,
    columns: List<NewColumn>,
    types: List<Type>,
) -> Result<Statement, AllocError>
    ensures { IfOk result (λ s. s ≡ spec.unnamed columns types) }
{
    let Ok(columns) = columns_of(alloc, columns, types.into_vec()) else {
        return Err(AllocError);
    };
    let Ok(name) = Text::from_str(alloc, "") else {
        return Err(AllocError);
    };
    match Statement::new(alloc, name, List::empty(alloc), columns) {
        Ok(statement) => Ok(statement),
        Err(_) => Err(AllocError),
    }
}

/// Reads rows on, whose columns have these types.
pub(crate) fn read_rows(
    alloc: Global,
    how_many: HowMany,
    columns: List<NewColumn>,
    types: List<Type>,
) -> Result<ReadRows, AllocError>
    ensures { IfOk result (λ rows. ⟦<ReadRows as Script>⟧.dialogue rows ≡ reads false (spec.typed_rows how_many columns types)) }
{
    if types.as_slice().len() != columns.as_slice().len() {
        // Each column has its type.
        return Err(AllocError);
    }
    let statement = unnamed(alloc, columns, types)?;
    let reading = RowsReading::behind_columns(alloc, statement, how_many, WholeRows);
    Ok(ReadsOn::new(reading))
}

/// What is answered of rows that were taken, once the types of their columns are found.
pub(crate) fn rows_made(
    alloc: Global,
    columns: List<NewColumn>,
    types: List<Type>,
    told: Result<Got, Error>,
) -> Result<Result<ResultSet, Error>, AllocError>
    ensures { IfOk result (λ rows. rows ≡ made columns types told) }
{
    match told {
        Ok(got) => {
            let statement = unnamed(alloc, columns, types)?;
            WholeRows.make(alloc, &statement, got)
        }
        Err(error) => Ok(Err(error)),
    }
}
