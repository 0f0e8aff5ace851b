//! What something is done with: a statement, or a text.

ghost use Rattle.std.specs.Prelude.{◌≡◌, ◌+◌, [], ℕ, IfOk};
ghost use Rattle.pg_types.specs.Texts.{sql_text};
ghost use Rattle.pg_desk.specs.declared.statement.Described.{Described};
ghost use Rattle.pg_query.specs.Dialogue.{Dialogue};
ghost use Rattle.pg_query.specs.Scripts.{GoesOn, Falls};
ghost use Rattle.pg_core.specs.Prepares.{prepares};
ghost use Rattle.pg_core.specs.Sequences.{then_do};
ghost use Rattle.pg_execute.specs.Closings.{closed_as};
ghost use Rattle.pg_execute.specs.Targets as spec;
ghost use Rattle.pg_execute.specs.Targets.{closing_body, targeted_dialogue, targeted_refuses, targeted_waits, targeted_steps};

use crate::closes::{Closes, Closing};
use crate::passing::ends;
use crate::request::close_bytes;
use bytes::Bytes;
use pg_core::{Finder, Go, ParamTypes, Prepares};
use pg_desk::Statement;
use pg_errors::Error;
use pg_query::{Cleanup, Reply, Script, Want};
use pg_types::{Sql, Text};
use pg_wire::{Message, WireFault};
use std::alloc::{AllocError, Global};
use std::collections::VecDeque;
use std::mem;

/// What something is done with.
#[derive(Drop)]
pub enum Target<'a> {
    /// A text, which is prepared before and closed behind.
    Query(&'a str),
    /// The same of a text that is owned.
    OwnedQuery(Text),
    Statement(&'a Statement),
    /// The same, where the statement can't be borrowed for so long.
    Owned(Statement),
}

/// Something that is done with a statement, or with a text that is prepared. `A` prepares it, `G` begins the body `B`, and `T`
/// is its answer.
#[derive(Drop)]
pub enum Targeted<'a, A, G, B, T> {
    /// It is copied when the body begins.
    Borrowed(&'a Statement, G),
    Owned(Statement, G),
    Prepares(A, Closing, G),
    Runs(Closes<B, T>),
    /// It answered, or memory lacked.
    Spent,
}

/// The same of a text whose types are found by `F`.
pub type OnTarget<'a, F, G> = Targeted<
    'a,
    Prepares<'a, F, <F as Finder>::Search>,
    G,
    <G as Go>::Next,
    <<G as Go>::Next as Script>::Output,
>;

impl<'a, A: Script<Output = Statement>, G: Go<Input = Statement>> Targeted<
    'a,
    A,
    G,
    G::Next,
    <G::Next as Script>::Output,
> {
    /// Begins the body with this statement.
    fn begins(
        &mut self,
        alloc: Global,
        statement: Statement,
        closing: Closing,
        part: Option<Bytes>,
        go: G,
    ) -> Result<Want<<G::Next as Script>::Output>, AllocError>
        ensures goes_on { IfOk result (λ w. GoesOn (targeted_dialogue A.dialogue G.to G.Next.dialogue) (targeted_refuses A.refuses G.to G.Next.refuses) (targeted_waits A.dialogue A.waits G.to G.Next.dialogue G.Next.waits)
            (closed_as closing part (G.to go statement)) w self.new) }
        ensures falls { IfOk result (λ w. Falls w (G.most go + 1) (targeted_steps A.steps G.most G.Next.steps self.new)) }
    {
        let body = go.go(alloc, statement)?;
        let mut runs = Closes::new(body, closing, part);
        let want = runs.next(alloc)?;
        *self = Targeted::Runs(runs);
        Ok(want)
    }

    /// What prepares the text wants this, and where it answers the body begins.
    fn prepared(
        &mut self,
        alloc: Global,
        script: A,
        closing: Closing,
        go: G,
        want: Want<Statement>,
    ) -> Result<Want<<G::Next as Script>::Output>, AllocError>
        ensures goes_on { (d : Dialogue Described) → GoesOn A.dialogue A.refuses A.waits d want script →
            IfOk result (λ w. GoesOn (targeted_dialogue A.dialogue G.to G.Next.dialogue) (targeted_refuses A.refuses G.to G.Next.refuses) (targeted_waits A.dialogue A.waits G.to G.Next.dialogue G.Next.waits)
            (then_do d (closing_body closing (G.to go))) w self.new) }
        ensures falls { (n : ℕ) → Falls want n (A.steps script) → IfOk result (λ w. Falls w (n + (G.most go + 1)) (targeted_steps A.steps G.most G.Next.steps self.new)) }
    {
        match want {
            Want::Answer(Ok(statement)) => {
                drop(script);
                let part = close_bytes(alloc, statement.name())?;
                self.begins(alloc, statement, closing, part, go)
            }
            Want::Answer(Err(error)) => Ok(Want::Answer(Err(error))),
            Want::Act(action) => {
                *self = Targeted::Prepares(script, closing, go);
                Ok(Want::Act(action))
            }
            Want::Read => {
                *self = Targeted::Prepares(script, closing, go);
                Ok(Want::Read)
            }
        }
    }
}

/// A copy. Its error is want of memory.
fn copied(statement: &Statement) -> Result<Statement, AllocError>
    ensures { IfOk result (λ s. s ≡ statement.now) }
{
    match statement.copy() {
        Ok(statement) => Ok(statement),
        Err(_) => Err(AllocError),
    }
}

impl<'a, A: Script<Output = Statement>, G: Go<Input = Statement>> Script
    for Targeted<'a, A, G, G::Next, <G::Next as Script>::Output> {
    ghost use Rattle.pg_execute.specs.Targets.{targeted_dialogue, targeted_refuses, targeted_waits, targeted_steps};

    type Output = <G::Next as Script>::Output;

    ghost dialogue = { targeted_dialogue A.dialogue G.to G.Next.dialogue };

    ghost refuses = { targeted_refuses A.refuses G.to G.Next.refuses };

    ghost waits = { targeted_waits A.dialogue A.waits G.to G.Next.dialogue G.Next.waits };

    ghost steps = { targeted_steps A.steps G.most G.Next.steps };

    fn next(&mut self, alloc: Global) -> Result<Want<<G::Next as Script>::Output>, AllocError> {
        if let Targeted::Runs(runs) = self {
            return runs.next(alloc);
        }
        match mem::replace(self, Targeted::Spent) {
            Targeted::Borrowed(statement, go) => {
                let statement = copied(statement)?;
                self.begins(alloc, statement, Closing::Behind, None, go)
            }
            Targeted::Owned(statement, go) => {
                self.begins(alloc, statement, Closing::Behind, None, go)
            }
            Targeted::Prepares(mut script, closing, go) => {
                let want = script.next(alloc)?;
                self.prepared(alloc, script, closing, go, want)
            }
            other => {
                drop(other);
                Err(AllocError)
            }
        }
    }

    fn message(
        &mut self,
        alloc: Global,
        message: &Result<Message, WireFault>,
    ) -> Result<Want<<G::Next as Script>::Output>, AllocError> {
        if let Targeted::Runs(runs) = self {
            return runs.message(alloc, message);
        }
        match mem::replace(self, Targeted::Spent) {
            Targeted::Prepares(mut script, closing, go) => {
                let want = script.message(alloc, message)?;
                let want = self.prepared(alloc, script, closing, go, want)?;
                if message.is_err() && !ends(&want) {
                    // Nothing is read behind a malformed message, so nothing else is begun.
                    return Err(AllocError);
                }
                Ok(want)
            }
            // It reads nothing.
            other => {
                drop(other);
                Err(AllocError)
            }
        }
    }

    fn reply(
        &mut self,
        alloc: Global,
        reply: Reply,
    ) -> Result<Want<<G::Next as Script>::Output>, AllocError> {
        if let Targeted::Runs(runs) = self {
            return runs.reply(alloc, reply);
        }
        match mem::replace(self, Targeted::Spent) {
            Targeted::Prepares(mut script, closing, go) => {
                let want = script.reply(alloc, reply)?;
                self.prepared(alloc, script, closing, go, want)
            }
            // It asks nothing.
            other => {
                drop(other);
                Err(AllocError)
            }
        }
    }

    fn refused(
        &mut self,
        alloc: Global,
        error: Error,
    ) -> Result<Want<<G::Next as Script>::Output>, AllocError> {
        if let Targeted::Runs(runs) = self {
            return runs.refused(alloc, error);
        }
        match mem::replace(self, Targeted::Spent) {
            Targeted::Prepares(mut script, closing, go) => {
                let want = script.refused(alloc, error)?;
                self.prepared(alloc, script, closing, go, want)
            }
            // It asks nothing.
            other => {
                drop(other);
                Err(AllocError)
            }
        }
    }

    fn cleanup(&self, alloc: Global) -> Result<VecDeque<Cleanup>, AllocError> {
        match self {
            Targeted::Runs(runs) => runs.cleanup(alloc),
            Targeted::Prepares(script, _, _) => script.cleanup(alloc),
            // It reads nothing.
            _ => Err(AllocError),
        }
    }
}

/// Does this with a text, which is prepared before. It takes no memory.
fn on_text<'a, F: Finder, G: Go<Input = Statement>>(
    closing: Closing,
    text: Sql<'a>,
    finder: F,
    go: G,
) -> OnTarget<'a, F, G>
    ensures dialogue { ⟦<OnTarget<'a, F, G> as Script>⟧.dialogue result ≡ then_do (prepares (F.finds finder) (sql_text text.entry) []) (closing_body closing (G.to go)) }
{
    let script = Prepares::new(text, ParamTypes::Oids(&[]), finder);
    Targeted::Prepares(script, closing, go)
}

/// Does this with a target. A text is closed behind the answer, or at an error alone. It takes no memory.
pub fn on_closing<'a, F: Finder, G: Go<Input = Statement>>(
    closing: Closing,
    target: Target<'a>,
    finder: F,
    go: G,
) -> OnTarget<'a, F, G>
    ensures dialogue { ⟦<OnTarget<'a, F, G> as Script>⟧.dialogue result ≡ spec.on_closing closing (λ text. prepares (F.finds finder) text []) (G.to go) target.entry }
{
    match target {
        Target::Query(text) => on_text(closing, Sql::Borrowed(text), finder, go),
        Target::OwnedQuery(text) => on_text(closing, Sql::Owned(text), finder, go),
        Target::Statement(statement) => Targeted::Borrowed(statement, go),
        Target::Owned(statement) => Targeted::Owned(statement, go),
    }
}

/// Does this with a target. A text is closed behind the answer. It takes no memory.
pub fn on_target<'a, F: Finder, G: Go<Input = Statement>>(
    target: Target<'a>,
    finder: F,
    go: G,
) -> OnTarget<'a, F, G>
    ensures dialogue { ⟦<OnTarget<'a, F, G> as Script>⟧.dialogue result ≡ spec.on_target (λ text. prepares (F.finds finder) text []) (G.to go) target.entry }
{
    on_closing(Closing::Behind, target, finder, go)
}
