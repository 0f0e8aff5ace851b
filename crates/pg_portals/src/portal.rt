//! Portals.

ghost use Rattle.std.specs.Prelude.{◌≡◌, IfOk};
ghost use Rattle.pg_portals.specs.Requests.{portal_name};

use pg_desk::{Column, Statement};
use pg_types::{OutOfMemory, Text};
use std::alloc::Global;

/// A statement that was bound to values at the server (PostgreSQL documentation, "Extended Query"). It stands until it is closed or its
/// transaction ends. Copies stand for the same portal, and closing one closes all.
pub struct Portal {
    pub(crate) number: u32,
    pub(crate) statement: Statement,
    /// It was bound from a text, whose statement is closed with it.
    pub(crate) closes: bool,
}

impl Drop for Portal {
    fn drop(self) {
        let Portal {
            number: _,
            statement,
            closes: _,
        } = self;
        drop(statement);
    }
}

impl Portal {
    /// The name at the server: a p and its number. OutOfMemory comes where there is no room for it.
    pub fn name(&self, alloc: Global) -> Result<Text, OutOfMemory>
        ensures { IfOk result (λ name. name ≡ portal_name self.now.number) }
    {
        let number = self.number;
        Ok(Text::new(format!(in alloc; "p{number}")?))
    }

    /// The statement that was bound.
    pub fn statement(&self) -> &Statement
        ensures { result.now ≡ self.now.statement }
    {
        &self.statement
    }

    /// The columns of its rows, in order; none where it gives no rows.
    pub fn columns(&self) -> &[Column]
        ensures { result.now ≡ self.now.statement.columns }
    {
        self.statement.columns()
    }

    /// An equal portal, which stands for the same one at the server. It takes no memory; OutOfMemory comes where it has been copied too
    /// often to be counted.
    pub fn copy(&self) -> Result<Portal, OutOfMemory>
        ensures { IfOk result (λ portal. portal ≡ self.now) }
    {
        let statement = self.statement.copy()?;
        Ok(Portal {
            number: self.number,
            statement,
            closes: self.closes,
        })
    }
}
