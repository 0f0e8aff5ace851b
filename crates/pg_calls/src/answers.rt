//! What the calls of a client make of rows and values.

ghost use Rattle.std.specs.Prelude.{◌≡◌};
ghost use Rattle.pg_calls.specs.Answers as spec;

use crate::answered::{Answered, Make};
use pg_errors::Error;
use pg_execute::ResultSet;
use pg_rows::Row;
use pg_states::{ExecutedTyped, QueriedTyped, QueryScalarState};
use pg_types::List;
use std::alloc::Global;
use std::collections::VecDeque;
use std::marker::PhantomData;

/// The only one of these. RowCount comes where there is none, or a second one.
fn one_of<T: Drop>(items: List<T>) -> Result<T, Error>
    ensures { result ≡ spec.one_of items }
{
    let mut items = VecDeque::from(items.into_vec());
    let Some(first) = items.pop_front() else {
        return Err(Error::RowCount);
    };
    if !items.is_empty() {
        return Err(Error::RowCount);
    }
    Ok(first)
}

/// The only one of these, where there is one. RowCount comes where there is a second one.
fn at_most_one<T: Drop>(items: List<T>) -> Result<Option<T>, Error>
    ensures { result ≡ spec.at_most_one items }
{
    let mut items = VecDeque::from(items.into_vec());
    let first = items.pop_front();
    if !items.is_empty() {
        return Err(Error::RowCount);
    }
    Ok(first)
}

/// All rows.
#[derive(Clone, Copy, Drop)]
pub struct AllRows;

impl Make for AllRows {
    ghost use Rattle.pg_calls.specs.Answers.{rows_of};

    type Input = ResultSet;

    type Output = List<Row>;

    ghost makes = { λ _. rows_of };

    fn make(&self, alloc: Global, set: ResultSet) -> Result<List<Row>, Error> {
        set.into_rows(alloc)
    }
}

/// The only row.
#[derive(Clone, Copy, Drop)]
pub struct OneRow;

impl Make for OneRow {
    ghost use Rattle.pg_calls.specs.Answers.{one_row};

    type Input = ResultSet;

    type Output = Row;

    ghost makes = { λ _. one_row };

    fn make(&self, alloc: Global, set: ResultSet) -> Result<Row, Error> {
        match set.into_rows(alloc) {
            Ok(rows) => one_of(rows),
            Err(error) => Err(error),
        }
    }
}

/// The only row, where there is one.
#[derive(Clone, Copy, Drop)]
pub struct MaybeRow;

impl Make for MaybeRow {
    ghost use Rattle.pg_calls.specs.Answers.{maybe_row};

    type Input = ResultSet;

    type Output = Option<Row>;

    ghost makes = { λ _. maybe_row };

    fn make(&self, alloc: Global, set: ResultSet) -> Result<Option<Row>, Error> {
        match set.into_rows(alloc) {
            Ok(rows) => at_most_one(rows),
            Err(error) => Err(error),
        }
    }
}

/// The only value.
#[derive(Clone, Copy, Drop)]
pub struct OneOf<R> {
    of: PhantomData<R>,
}

impl<R> OneOf<R> {
    /// Of these values.
    pub fn new() -> OneOf<R> {
        OneOf { of: PhantomData }
    }
}

impl<R: Drop> Make for OneOf<R> {
    ghost use Rattle.pg_calls.specs.Answers.{one_of};

    type Input = List<R>;

    type Output = R;

    ghost makes = { λ _. one_of };

    fn make(&self, alloc: Global, values: List<R>) -> Result<R, Error> {
        one_of(values)
    }
}

/// The only value, where there is one.
#[derive(Clone, Copy, Drop)]
pub struct MaybeOf<R> {
    of: PhantomData<R>,
}

impl<R> MaybeOf<R> {
    /// Of these values.
    pub fn new() -> MaybeOf<R> {
        MaybeOf { of: PhantomData }
    }
}

impl<R: Drop> Make for MaybeOf<R> {
    ghost use Rattle.pg_calls.specs.Answers.{at_most_one};

    type Input = List<R>;

    type Output = Option<R>;

    ghost makes = { λ _. at_most_one };

    fn make(&self, alloc: Global, values: List<R>) -> Result<Option<R>, Error> {
        at_most_one(values)
    }
}

/// The state of `query`.
pub type QueryState<'a, P> = Answered<pg_states::QueryState<'a, P>, AllRows>;

/// The state of `query_one`.
pub type QueryOneState<'a, P> = Answered<pg_states::QueryState<'a, P>, OneRow>;

/// The state of `query_opt`.
pub type QueryOptState<'a, P> = Answered<pg_states::QueryState<'a, P>, MaybeRow>;

/// The state of `query_one_scalar`.
pub type QueryOneScalarState<'a, R, P> = Answered<QueryScalarState<'a, R, P>, OneOf<R>>;

/// The state of `query_opt_scalar`.
pub type QueryOptScalarState<'a, R, P> = Answered<QueryScalarState<'a, R, P>, MaybeOf<R>>;

/// The state of `query_typed`.
pub type QueryTypedState<'a, P> = Answered<QueriedTyped<'a, P>, AllRows>;

/// The state of `query_typed_one`.
pub type QueryTypedOneState<'a, P> = Answered<QueriedTyped<'a, P>, OneRow>;

/// The state of `query_typed_opt`.
pub type QueryTypedOptState<'a, P> = Answered<QueriedTyped<'a, P>, MaybeRow>;

/// The state of `query_portal`, and of `query_portal_owned`.
pub type QueryPortalState<'a> = Answered<pg_portals::QueryPortalState<'a>, AllRows>;

/// The state of `execute_typed`.
pub type ExecuteTypedState<'a, P> = ExecutedTyped<'a, P>;
