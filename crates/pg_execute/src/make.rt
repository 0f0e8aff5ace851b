//! What is made of the rows of a reply.

ghost use Rattle.std.specs.Prelude.{◌≡◌, Result, IfOk};
ghost use Rattle.pg_types.specs.declared.error.Error.{Error};
ghost use Rattle.pg_desk.specs.declared.statement.Described.{Described};
ghost use Rattle.pg_execute.specs.declared.got.Got as got;

use crate::got::Got;
use crate::result_set::ResultSet;
use crate::scalar::Scalar;
use crate::values::column_values;
use pg_desk::Statement;
use pg_errors::Error;
use pg_types::List;
use std::alloc::{AllocError, Global};
use std::marker::PhantomData;

/// Makes something of the rows that a statement gave.
pub trait Make: Drop {
    type Output: Drop;

    ghost makes: { Self → Described → got.Got → Result Self.Output Error };

    /// What is made of them. Its error is want of memory.
    fn make(
        &self,
        alloc: Global,
        statement: &Statement,
        got: Got,
    ) -> Result<Result<Self::Output, Error>, AllocError>
        ensures { IfOk result (λ made. made ≡ makes self.now statement.now got) };
}

/// The rows themselves.
#[derive(Clone, Copy, Drop)]
pub struct WholeRows;

impl Make for WholeRows {
    ghost use Rattle.pg_execute.specs.Executes.{whole_rows};

    type Output = ResultSet;

    ghost makes = { λ _. whole_rows };

    fn make(
        &self,
        alloc: Global,
        statement: &Statement,
        got: Got,
    ) -> Result<Result<ResultSet, Error>, AllocError> {
        let Got {
            bound: _,
            rows,
            affected,
        } = got;
        match statement.copy() {
            Ok(statement) => Ok(Ok(ResultSet {
                statement,
                rows,
                affected,
            })),
            Err(_) => Err(AllocError),
        }
    }
}

/// The values of their one column, as a Rust type.
#[derive(Clone, Copy, Drop)]
pub struct Scalars<R> {
    of: PhantomData<R>,
}

impl<R> Scalars<R> {
    /// As this type.
    pub fn new() -> Scalars<R> {
        Scalars { of: PhantomData }
    }
}

impl<R: Scalar> Make for Scalars<R> {
    ghost use Rattle.pg_execute.specs.Executes.{scalars};

    type Output = List<R>;

    ghost makes = { λ _. scalars R.reads };

    fn make(
        &self,
        alloc: Global,
        statement: &Statement,
        got: Got,
    ) -> Result<Result<List<R>, Error>, AllocError> {
        column_values(alloc, statement.columns(), got.rows.as_slice())
    }
}
