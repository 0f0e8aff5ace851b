//! What comes behind the answer of a script.

ghost use Rattle.std.specs.Prelude.{◌≡◌, ◌≤◌, ◌++◌, ℕ, List, Result, IfOk};
ghost use Rattle.pg_types.specs.declared.error.Error.{Error};
ghost use Rattle.pg_query.specs.declared.desk_call.Cleanup.{Cleanup};
ghost use Rattle.pg_query.specs.Dialogue.{Dialogue};

use crate::maybe::Maybe;
use pg_errors::Error;
use pg_query::{Cleanup, Script};
use std::alloc::{AllocError, Global};
use std::collections::VecDeque;

/// What comes behind each answer of a script.
pub trait Follow: Drop {
    type Input: Drop;

    type Next: Script;

    ghost goes: { Self → Result Self.Input Error → Dialogue Self.Next.Output };

    /// What is left to do behind the first script's own, where that is given up.
    ghost extra: { Self → List Cleanup };

    /// The steps of what follows are at most these.
    ghost most: { Self → ℕ };

    /// The script that goes on with this answer. Its error is want of memory.
    fn follow(
        self,
        alloc: Global,
        answer: Result<Self::Input, Error>,
    ) -> Result<Self::Next, AllocError>
        ensures goes { IfOk result (λ next. Self.Next.dialogue next ≡ goes self answer) }
        ensures most { IfOk result (λ next. Self.Next.steps next ≤ most self) };

    /// Appends what is left to do. Its error is want of memory.
    fn leave(&self, alloc: Global, left: &mut VecDeque<Cleanup>) -> Result<(), AllocError>
        ensures { IfOk result (λ _. left.new.items ≡ left.old.items ++ extra self.now) };
}

/// What comes behind a script's value. Its error is the whole answer.
pub trait Go: Drop {
    type Input: Drop;

    type Next: Script;

    ghost to: { Self → Self.Input → Dialogue Self.Next.Output };

    /// The steps of what follows are at most these.
    ghost most: { Self → ℕ };

    /// The script that goes on with this value. Its error is want of memory.
    fn go(self, alloc: Global, value: Self::Input) -> Result<Self::Next, AllocError>
        ensures goes { IfOk result (λ next. Self.Next.dialogue next ≡ to self value) }
        ensures most { IfOk result (λ next. Self.Next.steps next ≤ most self) };
}

/// Goes on with a value, and hands an error on.
#[derive(Drop)]
pub struct OrAnswer<G> {
    pub go: G,
}

impl<G: Go> Follow for OrAnswer<G> {
    ghost use Rattle.std.specs.Prelude.{[]};
    ghost use Rattle.pg_core.specs.Sequences.{or_answer};
    ghost use Rattle.pg_core.specs.Maybes.{maybe_dialogue, maybe_steps};

    type Input = G::Input;

    type Next = Maybe<<G::Next as Script>::Output, G::Next>;

    ghost goes = { λ k. or_answer (G.to k.go) };

    ghost extra = { λ _. [] };

    ghost most = { λ k. G.most k.go };

    fn follow(
        self,
        alloc: Global,
        answer: Result<G::Input, Error>,
    ) -> Result<Maybe<<G::Next as Script>::Output, G::Next>, AllocError>
        ensures goes { IfOk result (λ next. maybe_dialogue G.Next.dialogue next ≡ or_answer (G.to self.go) answer) }
        ensures most { IfOk result (λ next. maybe_steps G.Next.steps next ≤ G.most self.go) }
    {
        match answer {
            Ok(value) => {
                let next = self.go.go(alloc, value)?;
                Ok(Maybe::Goes(next))
            }
            Err(error) => Ok(Maybe::Answers(Err(error))),
        }
    }

    fn leave(&self, alloc: Global, left: &mut VecDeque<Cleanup>) -> Result<(), AllocError> {
        Ok(())
    }
}
