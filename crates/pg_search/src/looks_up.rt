//! What is asked of the statement that looks something up, behind that statement.

ghost use Rattle.std.specs.Prelude.{◌≡◌, ◌≤◌, ◌+◌, IfOk};
ghost use Rattle.pg_core.specs.Lookups.{lookup_statement};
ghost use Rattle.pg_core.specs.Sequences.{then_do};
ghost use Rattle.pg_search.specs.Asking.{lookup_steps};

use crate::lookup_statement::LookupStatement;
use pg_core::{Go, Maybe, OrAnswer, Then};
use pg_desk::{Lookup, Statement};
use pg_errors::Error;
use pg_query::{Cleanup, Reply, Script, Want};
use pg_wire::{Message, WireFault};
use std::alloc::{AllocError, Global};
use std::collections::VecDeque;

type LooksUpThen<G, N, T> = Then<LookupStatement, OrAnswer<G>, Maybe<T, N>>;

/// The statement that looks something up, and what it is asked: `G` goes on with it by `N`, which answers `T`. It stands
/// on the heap, and is a type of its own, so that what holds one doesn't spell out all of it.
pub struct LooksUp<G, N, T> {
    script: Box<LooksUpThen<G, N, T>>,
}

impl<G: Drop, N: Drop, T: Drop> Drop for LooksUp<G, N, T> {
    fn drop(self) {
        let LooksUp { script } = self;
        drop(script);
    }
}

impl<G: Go<Input = Statement>> LooksUp<G, G::Next, <G::Next as Script>::Output> {
    /// Looks this up, and goes on with the statement. Its error is want of memory.
    pub(crate) fn new(
        alloc: Global,
        which: Lookup,
        go: G,
    ) -> Result<LooksUp<G, G::Next, <G::Next as Script>::Output>, AllocError>
        ensures dialogue { IfOk result (λ s. ⟦<LooksUp<G, G::Next, <G::Next as Script>::Output> as Script>⟧.dialogue s ≡ then_do (lookup_statement which) (G.to go)) }
        ensures steps { IfOk result (λ s. ⟦<LooksUp<G, G::Next, <G::Next as Script>::Output> as Script>⟧.steps s ≤ lookup_steps + G.most go) }
    {
        match Box::new(alloc, looks_up_then(which, go)) {
            Ok(script) => Ok(LooksUp { script }),
            Err(_) => Err(AllocError),
        }
    }
}

fn looks_up_then<G: Go<Input = Statement>>(
    which: Lookup,
    go: G,
) -> LooksUpThen<G, G::Next, <G::Next as Script>::Output>
    ensures dialogue { ⟦<LooksUpThen<G, G::Next, <G::Next as Script>::Output> as Script>⟧.dialogue result ≡ then_do (lookup_statement which) (G.to go) }
    ensures steps { ⟦<LooksUpThen<G, G::Next, <G::Next as Script>::Output> as Script>⟧.steps result ≤ lookup_steps + G.most go }
{
    Then::First(LookupStatement::new(which), OrAnswer { go })
}

impl<G: Go<Input = Statement>> Script for LooksUp<G, G::Next, <G::Next as Script>::Output> {
    type Output = <G::Next as Script>::Output;

    ghost dialogue = { λ s. ⟦<LooksUpThen<G, G::Next, <G::Next as Script>::Output> as Script>⟧.dialogue s.script.value };

    ghost refuses = { λ s. ⟦<LooksUpThen<G, G::Next, <G::Next as Script>::Output> as Script>⟧.refuses s.script.value };

    ghost waits = { λ s. ⟦<LooksUpThen<G, G::Next, <G::Next as Script>::Output> as Script>⟧.waits s.script.value };

    ghost steps = { λ s. ⟦<LooksUpThen<G, G::Next, <G::Next as Script>::Output> as Script>⟧.steps s.script.value };

    fn next(&mut self, alloc: Global) -> Result<Want<<G::Next as Script>::Output>, AllocError> {
        self.script.next(alloc)
    }

    fn message(
        &mut self,
        alloc: Global,
        message: &Result<Message, WireFault>,
    ) -> Result<Want<<G::Next as Script>::Output>, AllocError> {
        self.script.message(alloc, message)
    }

    fn reply(
        &mut self,
        alloc: Global,
        reply: Reply,
    ) -> Result<Want<<G::Next as Script>::Output>, AllocError> {
        self.script.reply(alloc, reply)
    }

    fn refused(
        &mut self,
        alloc: Global,
        error: Error,
    ) -> Result<Want<<G::Next as Script>::Output>, AllocError> {
        self.script.refused(alloc, error)
    }

    fn cleanup(&self, alloc: Global) -> Result<VecDeque<Cleanup>, AllocError> {
        self.script.cleanup(alloc)
    }
}
