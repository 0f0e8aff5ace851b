//! Types are searched for in the server's catalog.

ghost use Rattle.std.specs.Prelude.{◌≡◌, ◌≤◌, IfOk};

use crate::asks::{LabelsOf, RowOf};
use crate::asks_fields::FieldsOf;
use crate::catalog::Catalog;
use crate::search::SearchBy;
use pg_core::Finder;
use pg_errors::Error;
use pg_query::{Cleanup, Reply, Script, Want};
use pg_types::{List, Oid, Type};
use pg_wire::{Message, WireFault};
use std::alloc::{AllocError, Global};
use std::collections::VecDeque;

type Searched = SearchBy<Catalog, RowOf, LabelsOf, FieldsOf>;

/// The search for types in the server's catalog. It is a type of its own, so that what holds one doesn't spell out all of it.
pub struct Search {
    search: Searched,
}

impl Drop for Search {
    fn drop(self) {
        let Search { search } = self;
        drop(search);
    }
}

impl Script for Search {
    type Output = List<Type>;

    ghost dialogue = { λ s. ⟦<Searched as Script>⟧.dialogue s.search };

    ghost refuses = { λ s. ⟦<Searched as Script>⟧.refuses s.search };

    ghost waits = { λ s. ⟦<Searched as Script>⟧.waits s.search };

    ghost steps = { λ s. ⟦<Searched as Script>⟧.steps s.search };

    fn next(&mut self, alloc: Global) -> Result<Want<List<Type>>, AllocError> {
        self.search.next(alloc)
    }

    fn message(
        &mut self,
        alloc: Global,
        message: &Result<Message, WireFault>,
    ) -> Result<Want<List<Type>>, AllocError> {
        self.search.message(alloc, message)
    }

    fn reply(&mut self, alloc: Global, reply: Reply) -> Result<Want<List<Type>>, AllocError> {
        self.search.reply(alloc, reply)
    }

    fn refused(&mut self, alloc: Global, error: Error) -> Result<Want<List<Type>>, AllocError> {
        self.search.refused(alloc, error)
    }

    fn cleanup(&self, alloc: Global) -> Result<VecDeque<Cleanup>, AllocError> {
        self.search.cleanup(alloc)
    }
}

/// Finds types in the server's catalog.
#[derive(Drop)]
pub struct Finds {}

impl Finder for Finds {
    ghost use Rattle.pg_core.specs.Lookups.{find_all};
    ghost use Rattle.pg_search.specs.Finding.{most_steps};

    type Search = Search;

    ghost finds = { λ _ oids. find_all oids };

    ghost most = { λ _. most_steps };

    fn find(self, alloc: Global, oids: VecDeque<Oid>) -> Result<Search, AllocError> {
        // The length fits a `usize`, which bounds the steps.
        let _count = oids.len();
        Ok(Search {
            search: SearchBy::new(alloc, Catalog {}, oids),
        })
    }
}
