//! Codes of SQL states.

ghost use Rattle.std.specs.Prelude.{◌≡◌, IfOk};

use crate::{OutOfMemory, Text};
use std::alloc::Global;

/// A code that says what kind of error it is (PostgreSQL documentation, "PostgreSQL Error Codes").
#[derive(Debug, Drop, PartialEq, Eq)]
pub struct SqlState {
    code: Text,
}

impl SqlState {
    /// `undefined_table`.
    pub const UNDEFINED_TABLE: &'static str = "42P01";

    /// `undefined_column`.
    pub const UNDEFINED_COLUMN: &'static str = "42703";

    /// The state of a code that is owned.
    pub fn new(code: Text) -> SqlState
        ensures { result.code ≡ code }
    {
        SqlState { code }
    }

    /// The state of a code.
    pub fn from_code(alloc: Global, code: &str) -> Result<SqlState, OutOfMemory>
        ensures { IfOk result (λ state. state.code ≡ code.now) }
    {
        Ok(SqlState {
            code: Text::from_str(alloc, code)?,
        })
    }

    /// The code as the server spells it.
    pub fn code(&self) -> &str
        ensures { result.now ≡ self.now.code }
    {
        self.code.as_str()
    }

    /// An equal state.
    pub fn copy(&self, alloc: Global) -> Result<SqlState, OutOfMemory>
        ensures { IfOk result (λ state. state ≡ self.now) }
    {
        Ok(SqlState {
            code: self.code.copy(alloc)?,
        })
    }
}
