//! The statement that looks something up in the server's catalog: kept, or prepared by its first or its second text.

ghost use Rattle.std.specs.Prelude.{◌≡◌, ◌≤◌, [], true, IfOk};
ghost use Rattle.pg_core.specs.Behind.{behind};
ghost use Rattle.pg_core.specs.Sequences.{then_do};
ghost use Rattle.pg_core.specs.Lookups as spec;
ghost use Rattle.pg_search.specs.Asking.{first_steps, lookup_steps, prepare_steps, second_steps};

use crate::{Keeps, Kept, is_unknown, lookup_text};
use pg_core::{Follow, Go, Known, KnownTypes, Maybe, OrAnswer, ParamTypes, Prepares, Then};
use pg_desk::{Lookup, Statement};
use pg_errors::Error;
use pg_query::{Cleanup, Reply, Script, Want};
use pg_types::Sql;
use pg_wire::{Message, WireFault};
use std::alloc::{AllocError, Global};
use std::collections::VecDeque;

/// A lookup text that is prepared.
pub type PreparesText = Prepares<'static, Known, KnownTypes>;

/// Prepares a text, all of whose types must be known.
fn prepares_text(which: Lookup, first: bool) -> PreparesText
    ensures dialogue { ⟦<PreparesText as Script>⟧.dialogue result ≡ spec.prepared which first }
    ensures steps { ⟦<PreparesText as Script>⟧.steps result ≤ prepare_steps }
{
    let text = Sql::Borrowed(lookup_text(which, first));
    Prepares::new(text, ParamTypes::Oids(&[]), Known {})
}

/// Goes on with a prepared statement, which the desk is to keep.
#[derive(Drop)]
pub struct KeepsIt {
    which: Lookup,
}

impl Go for KeepsIt {
    ghost use Rattle.pg_core.specs.Lookups.{keeps_statement};

    type Input = Statement;

    type Next = Keeps;

    ghost to = { λ k s. keeps_statement k.which s };

    ghost most = { λ _. 1 };

    fn go(self, alloc: Global, value: Statement) -> Result<Keeps, AllocError> {
        Ok(Keeps::new(self.which, value))
    }
}

type SecondThen = Then<Maybe<Statement, PreparesText>, OrAnswer<KeepsIt>, Maybe<Statement, Keeps>>;

/// What comes behind the first text: its answer, or what the second text gives; a statement is kept.
pub struct SecondText {
    script: Box<SecondThen>,
}

impl Drop for SecondText {
    fn drop(self) {
        let SecondText { script } = self;
        drop(script);
    }
}

impl SecondText {
    /// Behind this answer of the first text. Its error is want of memory.
    fn new(
        alloc: Global,
        which: Lookup,
        answer: Result<Statement, Error>,
    ) -> Result<SecondText, AllocError>
        ensures dialogue { IfOk result (λ s. ⟦<SecondText as Script>⟧.dialogue s ≡ spec.or_second which answer) }
        ensures steps { IfOk result (λ s. ⟦<SecondText as Script>⟧.steps s ≤ second_steps) }
    {
        match Box::new(alloc, second_then(which, answer)) {
            Ok(script) => Ok(SecondText { script }),
            Err(_) => Err(AllocError),
        }
    }
}

fn second_then(which: Lookup, answer: Result<Statement, Error>) -> SecondThen
    ensures dialogue { ⟦<SecondThen as Script>⟧.dialogue result ≡ spec.or_second which answer }
    ensures steps { ⟦<SecondThen as Script>⟧.steps result ≤ second_steps }
{
    let go = KeepsIt { which };
    Then::First(or_prepares(which, answer), OrAnswer { go })
}

/// The answer of the first text, or the second text where the server doesn't know all of the first.
fn or_prepares(which: Lookup, answer: Result<Statement, Error>) -> Maybe<Statement, PreparesText>
    ensures dialogue { then_do (⟦<Maybe<Statement, PreparesText> as Script>⟧.dialogue result) (spec.keeps_statement which) ≡ spec.or_second which answer }
    ensures steps { ⟦<Maybe<Statement, PreparesText> as Script>⟧.steps result ≤ prepare_steps }
{
    match answer {
        Ok(statement) => Maybe::Answers(Ok(statement)),
        Err(error) => {
            if is_unknown(which, &error) {
                Maybe::Goes(prepares_text(which, false))
            } else {
                Maybe::Answers(Err(error))
            }
        }
    }
}

impl Script for SecondText {
    type Output = Statement;

    ghost dialogue = { λ s. ⟦<SecondThen as Script>⟧.dialogue s.script.value };

    ghost refuses = { λ s. ⟦<SecondThen as Script>⟧.refuses s.script.value };

    ghost waits = { λ s. ⟦<SecondThen as Script>⟧.waits s.script.value };

    ghost steps = { λ s. ⟦<SecondThen as Script>⟧.steps s.script.value };

    fn next(&mut self, alloc: Global) -> Result<Want<Statement>, AllocError> {
        self.script.next(alloc)
    }

    fn message(
        &mut self,
        alloc: Global,
        message: &Result<Message, WireFault>,
    ) -> Result<Want<Statement>, AllocError> {
        self.script.message(alloc, message)
    }

    fn reply(&mut self, alloc: Global, reply: Reply) -> Result<Want<Statement>, AllocError> {
        self.script.reply(alloc, reply)
    }

    fn refused(&mut self, alloc: Global, error: Error) -> Result<Want<Statement>, AllocError> {
        self.script.refused(alloc, error)
    }

    fn cleanup(&self, alloc: Global) -> Result<VecDeque<Cleanup>, AllocError> {
        self.script.cleanup(alloc)
    }
}

/// Goes on with the answer of the first text.
#[derive(Drop)]
pub struct OrSecond {
    which: Lookup,
}

impl Follow for OrSecond {
    ghost use Rattle.std.specs.Prelude.{[]};
    ghost use Rattle.pg_core.specs.Lookups.{or_second};
    ghost use Rattle.pg_search.specs.Asking.{second_steps};

    type Input = Statement;

    type Next = SecondText;

    ghost goes = { λ k. or_second k.which };

    ghost extra = { λ _. [] };

    ghost most = { λ _. second_steps };

    fn follow(
        self,
        alloc: Global,
        answer: Result<Statement, Error>,
    ) -> Result<SecondText, AllocError>
        ensures goes { IfOk result (λ next. ⟦<SecondText as Script>⟧.dialogue next ≡ or_second self.which answer) }
        ensures most { IfOk result (λ next. ⟦<SecondText as Script>⟧.steps next ≤ second_steps) }
    {
        SecondText::new(alloc, self.which, answer)
    }

    fn leave(&self, alloc: Global, left: &mut VecDeque<Cleanup>) -> Result<(), AllocError> {
        Ok(())
    }
}

type FirstThen = Then<PreparesText, OrSecond, SecondText>;

/// A statement that is prepared, by its first text or its second, and kept.
pub struct FirstText {
    script: Box<FirstThen>,
}

impl Drop for FirstText {
    fn drop(self) {
        let FirstText { script } = self;
        drop(script);
    }
}

impl FirstText {
    fn new(alloc: Global, which: Lookup) -> Result<FirstText, AllocError>
        ensures dialogue { IfOk result (λ s. ⟦<FirstText as Script>⟧.dialogue s ≡ behind [] (spec.prepared which true) (spec.or_second which)) }
        ensures steps { IfOk result (λ s. ⟦<FirstText as Script>⟧.steps s ≤ first_steps) }
    {
        match Box::new(alloc, first_then(which)) {
            Ok(script) => Ok(FirstText { script }),
            Err(_) => Err(AllocError),
        }
    }
}

fn first_then(which: Lookup) -> FirstThen
    ensures dialogue { ⟦<FirstThen as Script>⟧.dialogue result ≡ behind [] (spec.prepared which true) (spec.or_second which) }
    ensures steps { ⟦<FirstThen as Script>⟧.steps result ≤ first_steps }
{
    Then::First(prepares_text(which, true), OrSecond { which })
}

impl Script for FirstText {
    type Output = Statement;

    ghost dialogue = { λ s. ⟦<FirstThen as Script>⟧.dialogue s.script.value };

    ghost refuses = { λ s. ⟦<FirstThen as Script>⟧.refuses s.script.value };

    ghost waits = { λ s. ⟦<FirstThen as Script>⟧.waits s.script.value };

    ghost steps = { λ s. ⟦<FirstThen as Script>⟧.steps s.script.value };

    fn next(&mut self, alloc: Global) -> Result<Want<Statement>, AllocError> {
        self.script.next(alloc)
    }

    fn message(
        &mut self,
        alloc: Global,
        message: &Result<Message, WireFault>,
    ) -> Result<Want<Statement>, AllocError> {
        self.script.message(alloc, message)
    }

    fn reply(&mut self, alloc: Global, reply: Reply) -> Result<Want<Statement>, AllocError> {
        self.script.reply(alloc, reply)
    }

    fn refused(&mut self, alloc: Global, error: Error) -> Result<Want<Statement>, AllocError> {
        self.script.refused(alloc, error)
    }

    fn cleanup(&self, alloc: Global) -> Result<VecDeque<Cleanup>, AllocError> {
        self.script.cleanup(alloc)
    }
}

/// A statement, or what prepares one, in the form in which a `Go` may name it as its `Next`: the toolchain admits no
/// `Maybe` of such types by itself there.
pub type FoundOrFirst = Maybe<Statement, Maybe<Statement, FirstText>>;

/// Goes on with the statement that the desk keeps, or prepares one.
#[derive(Drop)]
pub struct OrFirst {
    which: Lookup,
}

impl Go for OrFirst {
    ghost use Rattle.pg_search.specs.Asking.{first_steps, or_first};

    type Input = Option<Statement>;

    type Next = FoundOrFirst;

    ghost to = { λ k found. or_first k.which found };

    ghost most = { λ _. first_steps };

    fn go(self, alloc: Global, found: Option<Statement>) -> Result<FoundOrFirst, AllocError> {
        match found {
            Some(statement) => Ok(Maybe::Answers(Ok(statement))),
            None => {
                let first = FirstText::new(alloc, self.which)?;
                Ok(Maybe::Goes(Maybe::Goes(first)))
            }
        }
    }
}

type LookupThen = Then<Kept, OrAnswer<OrFirst>, Maybe<Statement, FoundOrFirst>>;

/// The statement that looks something up: the one that the desk keeps, or else one that is prepared, by its first
/// text or its second, and that the desk keeps from then on.
pub struct LookupStatement {
    script: LookupThen,
}

impl Drop for LookupStatement {
    fn drop(self) {
        let LookupStatement { script } = self;
        drop(script);
    }
}

impl LookupStatement {
    /// It takes no memory.
    pub fn new(which: Lookup) -> LookupStatement
        ensures dialogue { ⟦<LookupStatement as Script>⟧.dialogue result ≡ spec.lookup_statement which }
        ensures steps { ⟦<LookupStatement as Script>⟧.steps result ≤ lookup_steps }
    {
        let go = OrFirst { which };
        LookupStatement {
            script: Then::First(Kept::new(which), OrAnswer { go }),
        }
    }
}

impl Script for LookupStatement {
    type Output = Statement;

    ghost dialogue = { λ s. ⟦<LookupThen as Script>⟧.dialogue s.script };

    ghost refuses = { λ s. ⟦<LookupThen as Script>⟧.refuses s.script };

    ghost waits = { λ s. ⟦<LookupThen as Script>⟧.waits s.script };

    ghost steps = { λ s. ⟦<LookupThen as Script>⟧.steps s.script };

    fn next(&mut self, alloc: Global) -> Result<Want<Statement>, AllocError> {
        self.script.next(alloc)
    }

    fn message(
        &mut self,
        alloc: Global,
        message: &Result<Message, WireFault>,
    ) -> Result<Want<Statement>, AllocError> {
        self.script.message(alloc, message)
    }

    fn reply(&mut self, alloc: Global, reply: Reply) -> Result<Want<Statement>, AllocError> {
        self.script.reply(alloc, reply)
    }

    fn refused(&mut self, alloc: Global, error: Error) -> Result<Want<Statement>, AllocError> {
        self.script.refused(alloc, error)
    }

    fn cleanup(&self, alloc: Global) -> Result<VecDeque<Cleanup>, AllocError> {
        self.script.cleanup(alloc)
    }
}
