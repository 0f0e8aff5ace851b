//! What the hub keeps of the server's catalog.

ghost use Rattle.std.specs.Prelude.{◌≡◌, [], IsSome, MatchResult};
ghost use Rattle.pg_desk.specs.Catalog as kept;

use pg_desk::{FoundType, Lookup, Statement};
use pg_types::{Oid, OutOfMemory, Type};
use std::alloc::Global;
use std::marker::Model;

/// The types that were found, and the statements that look types up.
#[derive(Drop)]
pub(crate) struct Catalog {
    types: Vec<FoundType>,
    info: Option<Statement>,
    enum_: Option<Statement>,
    composite: Option<Statement>,
}

impl Model for Catalog {
    ghost use Rattle.pg_desk.specs.Catalog as seen;
    ghost use Rattle.pg_types.specs.contracts.pg_type.PgType as pg_type;
    ghost use Rattle.std.specs.Coded.{codes};

    ghost Value = { seen.Catalog };

    ghost coded = { Prim.hlevel (codes, pg_type.the_row.coded) };

    ghost view = { λ c. record { types = c.types.items; info = c.info; enum_ = c.enum_; composite = c.composite } };
}

impl Catalog {
    /// Nothing is kept. It takes no memory.
    pub(crate) fn new(alloc: Global) -> Catalog
        ensures { result ≡ kept.nothing_kept }
    {
        Catalog {
            types: Vec::new(alloc),
            info: None,
            enum_: None,
            composite: None,
        }
    }

    /// A copy of the type of an oid.
    pub(crate) fn type_of(&self, alloc: Global, oid: Oid) -> Result<Option<Type>, OutOfMemory>
        ensures { MatchResult result (λ found. found ≡ kept.type_kept self.now oid) (λ _. IsSome (kept.type_kept self.now oid)) }
    {
        type_in(alloc, &self.types, oid)
    }

    /// Keeps the type of an oid.
    pub(crate) fn set_type(&mut self, alloc: Global, oid: Oid, ty: &Type) -> Result<(), OutOfMemory>
        ensures { MatchResult result (λ _. self.new ≡ kept.keeps_type self.old oid ty.now) (λ _. self.new ≡ self.old) }
    {
        let type_ = ty.copy(alloc)?;
        match self.types.push(FoundType { oid, type_ }) {
            Ok(()) => Ok(()),
            Err(_) => Err(OutOfMemory),
        }
    }

    /// Drops the types.
    pub(crate) fn clear_types(&mut self)
        ensures { self.new ≡ record self.old { types = [] } }
    {
        self.types.clear();
    }

    /// A copy of the statement that looks this up.
    pub(crate) fn statement(&self, which: Lookup) -> Result<Option<Statement>, OutOfMemory>
        ensures { MatchResult result (λ found. found ≡ kept.statement_kept self.now which) (λ _. IsSome (kept.statement_kept self.now which)) }
    {
        match which {
            Lookup::Info => copied(&self.info),
            Lookup::Enum => copied(&self.enum_),
            Lookup::Composite => copied(&self.composite),
        }
    }

    /// Keeps a statement to look this up.
    pub(crate) fn set_statement(
        &mut self,
        which: Lookup,
        statement: &Statement,
    ) -> Result<(), OutOfMemory>
        ensures { MatchResult result (λ _. self.new ≡ kept.keeps_statement self.old which statement.now) (λ _. self.new ≡ self.old) }
    {
        let statement = statement.copy()?;
        match which {
            Lookup::Info => self.info = Some(statement),
            Lookup::Enum => self.enum_ = Some(statement),
            Lookup::Composite => self.composite = Some(statement),
        }
        Ok(())
    }
}

/// A copy of a statement, where there is one.
fn copied(statement: &Option<Statement>) -> Result<Option<Statement>, OutOfMemory>
    ensures { MatchResult result (λ found. found ≡ statement.now) (λ _. IsSome statement.now) }
{
    match statement {
        None => Ok(None),
        Some(statement) => Ok(Some(statement.copy()?)),
    }
}

/// A copy of the last type of an oid.
fn type_in(alloc: Global, types: &[FoundType], oid: Oid) -> Result<Option<Type>, OutOfMemory>
    ensures { MatchResult result (λ found. found ≡ kept.last_of oid types.now) (λ _. IsSome (kept.last_of oid types.now)) }
{
    let mut i = types.len();
    while i > 0 {
        i -= 1;
        if types[i].oid == oid {
            return match types[i].type_.copy(alloc) {
                Ok(ty) => Ok(Some(ty)),
                Err(_) => Err(OutOfMemory),
            };
        }
    }
    Ok(None)
}
