//! A text that is prepared: a statement, whose types are found.

ghost use Rattle.std.specs.Prelude.{◌≡◌, ◌≤◌, ◌+◌, IfOk};
ghost use Rattle.pg_types.specs.Texts.{sql_text};
ghost use Rattle.pg_core.specs.ParamTypes.{param_oids};
ghost use Rattle.pg_core.specs.Prepares as spec;

use crate::describes::{Describes, describes_text};
use crate::description::NewStatement;
use crate::finder::Finder;
use crate::making::statement_of;
use crate::param_types::ParamTypes;
use crate::ready::{Answered, Ready};
use crate::{Go, Maybe, OrAnswer, Then};
use pg_desk::Statement;
use pg_errors::Error;
use pg_query::{Cleanup, Reply, Script, Want};
use pg_types::{List, Sql, Type};
use pg_wire::{Message, WireFault};
use std::alloc::{AllocError, Global};
use std::collections::VecDeque;

/// Makes the statement of the types that were found.
#[derive(Drop)]
pub struct Makes {
    new: NewStatement,
}

impl Go for Makes {
    ghost use Rattle.std.specs.Prelude.{Ok};
    ghost use Rattle.pg_query.specs.Dialogue.{Answer};
    ghost use Rattle.pg_core.specs.Prepares.{statement_of};

    type Input = List<Type>;

    type Next = Answered<Statement>;

    ghost to = { λ k types. Answer (Ok (statement_of k.new types)) };

    ghost most = { λ _. 0 };

    fn go(self, alloc: Global, types: List<Type>) -> Result<Answered<Statement>, AllocError> {
        match statement_of(alloc, self.new, types) {
            Ok(statement) => Ok(Maybe::Goes(Ready::new(statement))),
            Err(_) => Err(AllocError),
        }
    }
}

/// Finds the types of a statement that the server described, and makes it of them.
pub type MakesStatement<S> = Then<S, OrAnswer<Makes>, Maybe<Statement, Answered<Statement>>>;

/// Begins to find the types of a statement that the server described.
#[derive(Drop)]
pub struct FindsTypes<F> {
    finder: F,
}

impl<F: Finder> Go for FindsTypes<F> {
    ghost use Rattle.pg_core.specs.Descriptions.{oids_in};
    ghost use Rattle.pg_core.specs.Making.{makes};

    type Input = NewStatement;

    type Next = MakesStatement<F::Search>;

    ghost to = { λ k new. makes new (F.finds k.finder (oids_in new.described)) };

    ghost most = { λ k. F.most k.finder };

    fn go(self, alloc: Global, new: NewStatement) -> Result<MakesStatement<F::Search>, AllocError> {
        let oids = new.described.oids(alloc)?;
        let search = self.finder.find(alloc, oids)?;
        let go = Makes { new };
        Ok(Then::First(search, OrAnswer { go }))
    }
}

type PreparesThen<'a, F, S> = Then<
    Describes<'a>,
    OrAnswer<FindsTypes<F>>,
    Maybe<Statement, MakesStatement<S>>,
>;

/// Prepares a text, whose types are found by `F`. `S` is the search that it makes.
pub struct Prepares<'a, F, S> {
    script: PreparesThen<'a, F, S>,
}

impl<'a, F: Drop, S: Drop> Drop for Prepares<'a, F, S> {
    fn drop(self) {
        let Prepares { script } = self;
        drop(script);
    }
}

impl<'a, F: Finder> Prepares<'a, F, F::Search> {
    /// This text, with the types of its first parameters. It takes no memory.
    pub fn new(text: Sql<'a>, types: ParamTypes<'a>, finder: F) -> Prepares<'a, F, F::Search>
        ensures dialogue { ⟦<Prepares<'a, F, F::Search> as Script>⟧.dialogue result ≡ spec.prepares (F.finds finder) (sql_text text.entry) (param_oids types.entry) }
        ensures steps { ⟦<Prepares<'a, F, F::Search> as Script>⟧.steps result ≤ 3 + F.most finder }
    {
        let go = FindsTypes { finder };
        Prepares {
            script: Then::First(describes_text(text, types), OrAnswer { go }),
        }
    }
}

impl<'a, F: Finder> Script for Prepares<'a, F, F::Search> {
    type Output = Statement;

    ghost dialogue = { λ s. ⟦<PreparesThen<'a, F, F::Search> as Script>⟧.dialogue s.script };

    ghost refuses = { λ s. ⟦<PreparesThen<'a, F, F::Search> as Script>⟧.refuses s.script };

    ghost waits = { λ s. ⟦<PreparesThen<'a, F, F::Search> as Script>⟧.waits s.script };

    ghost steps = { λ s. ⟦<PreparesThen<'a, F, F::Search> as Script>⟧.steps s.script };

    fn next(&mut self, alloc: Global) -> Result<Want<Statement>, AllocError> {
        self.script.next(alloc)
    }

    fn message(
        &mut self,
        alloc: Global,
        message: &Result<Message, WireFault>,
    ) -> Result<Want<Statement>, AllocError> {
        self.script.message(alloc, message)
    }

    fn reply(&mut self, alloc: Global, reply: Reply) -> Result<Want<Statement>, AllocError> {
        self.script.reply(alloc, reply)
    }

    fn refused(&mut self, alloc: Global, error: Error) -> Result<Want<Statement>, AllocError> {
        self.script.refused(alloc, error)
    }

    fn cleanup(&self, alloc: Global) -> Result<VecDeque<Cleanup>, AllocError> {
        self.script.cleanup(alloc)
    }
}
