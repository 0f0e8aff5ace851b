//! A body, and what closes its statement behind it.

ghost use Rattle.std.specs.Prelude.{◌≡◌, ◌+◌, ◌++◌, ℕ, None, IfOk};
ghost use Rattle.pg_query.specs.Dialogue.{Dialogue};
ghost use Rattle.pg_query.specs.Scripts.{GoesOn, Falls};
ghost use Rattle.pg_core.specs.Thens.{IsThrough};
ghost use Rattle.pg_execute.specs.Executes.{posts};
ghost use Rattle.pg_execute.specs.Closings as spec;
ghost use Rattle.pg_execute.specs.Closings.{closed_as, posts_by, closes_dialogue, closes_refuses, closes_waits, closes_steps};

use crate::passing::ends;
use bytes::Bytes;
use pg_errors::Error;
use pg_query::{Action, Cleanup, Offer, Reply, Script, Want};
use pg_wire::{Message, WireFault};
use std::alloc::{AllocError, Global};
use std::collections::VecDeque;
use std::mem;

/// Behind which answers a statement is closed.
#[derive(Clone, Copy, Drop)]
pub enum Closing {
    /// Behind each.
    Behind,
    /// Behind an error alone. Else it goes with the answer.
    AtError,
}

/// A body, and a request that closes its statement before the answer is given, whose reply nobody reads. `T` is the answer.
pub struct Closes<B, T> {
    body: B,
    closing: Closing,
    /// None once the body answered, or where nothing is closed.
    part: Option<Bytes>,
    /// Some once the body answered and the request was sent.
    answer: Option<Result<T, Error>>,
}

impl<B: Drop, T: Drop> Drop for Closes<B, T> {
    fn drop(self) {
        let Closes {
            body,
            closing: _,
            part,
            answer,
        } = self;
        drop(body);
        drop(part);
        drop(answer);
    }
}

/// The request that is sent before this answer.
fn part_for<T>(closing: Closing, answer: &Result<T, Error>, part: Option<Bytes>) -> Option<Bytes>
    ensures { result ≡ spec.part_for closing answer.now part }
{
    match closing {
        Closing::Behind => part,
        Closing::AtError => match answer {
            Ok(_) => None,
            Err(_) => part,
        },
    }
}

impl<B: Script> Closes<B, B::Output> {
    /// This body, behind which this is sent.
    pub(crate) fn new(body: B, closing: Closing, part: Option<Bytes>) -> Closes<B, B::Output>
        ensures dialogue { closes_dialogue B.dialogue result ≡ closed_as closing part (B.dialogue body) }
        ensures steps { closes_steps B.steps result ≡ B.steps body + 1 }
    {
        Closes {
            body,
            closing,
            part,
            answer: None,
        }
    }

    /// Appends what is left to do behind what the body leaves.
    fn leave(&self, left: &mut VecDeque<Cleanup>) -> Result<(), AllocError>
        ensures { IfOk result (λ _. left.new.items ≡ left.old.items ++ posts self.now.part) }
    {
        match &self.part {
            Some(part) => {
                let part = part.clone()?;
                left.push_back(Cleanup::Post(part))?;
                Ok(())
            }
            None => Ok(()),
        }
    }

    /// What the body does, as the whole does it: more is left to do where its part is given up.
    fn act(&self, action: Action) -> Result<Action, AllocError>
        ensures { IfOk result (λ whole. IsThrough (posts self.now.part) action whole) }
    {
        match action {
            Action::Put(offer) => {
                let Offer { part, mut cleanup } = offer;
                self.leave(&mut cleanup)?;
                Ok(Action::Put(Offer { part, cleanup }))
            }
            other => Ok(other),
        }
    }

    /// The body answered this.
    fn answers(&mut self, answer: Result<B::Output, Error>) -> Want<B::Output>
        ensures goes_on { GoesOn (closes_dialogue B.dialogue) (closes_refuses B.refuses) (closes_waits B.dialogue B.waits) (posts_by self.old.closing self.old.part answer) result self.new }
        ensures falls { (n : ℕ) → Falls result (n + 1) (closes_steps B.steps self.new) }
    {
        let part = self.part.take();
        match part_for(self.closing, &answer, part) {
            Some(part) => {
                drop(mem::replace(&mut self.answer, Some(answer)));
                Want::Act(Action::Send(part))
            }
            None => Want::Answer(answer),
        }
    }

    /// The body wants this.
    fn went(&mut self, want: Want<B::Output>) -> Result<Want<B::Output>, AllocError>
        ensures goes_on { (d : Dialogue B.Output) → self.old.answer ≡ None → GoesOn B.dialogue B.refuses B.waits d want self.old.body →
            IfOk result (λ w. GoesOn (closes_dialogue B.dialogue) (closes_refuses B.refuses) (closes_waits B.dialogue B.waits) (closed_as self.old.closing self.old.part d) w self.new) }
        ensures falls { (n : ℕ) → Falls want n (B.steps self.old.body) → IfOk result (λ w. Falls w (n + 1) (closes_steps B.steps self.new)) }
    {
        match want {
            Want::Answer(answer) => Ok(self.answers(answer)),
            Want::Act(action) => {
                let action = self.act(action)?;
                Ok(Want::Act(action))
            }
            Want::Read => Ok(Want::Read),
        }
    }
}

impl<B: Script> Script for Closes<B, B::Output> {
    type Output = B::Output;

    ghost dialogue = { closes_dialogue B.dialogue };

    ghost refuses = { closes_refuses B.refuses };

    ghost waits = { closes_waits B.dialogue B.waits };

    ghost steps = { closes_steps B.steps };

    fn next(&mut self, alloc: Global) -> Result<Want<B::Output>, AllocError> {
        match self.answer.take() {
            Some(answer) => Ok(Want::Answer(answer)),
            None => {
                let want = self.body.next(alloc)?;
                self.went(want)
            }
        }
    }

    fn message(
        &mut self,
        alloc: Global,
        message: &Result<Message, WireFault>,
    ) -> Result<Want<B::Output>, AllocError> {
        let want = self.body.message(alloc, message)?;
        let want = self.went(want)?;
        if message.is_err() && !ends(&want) {
            // Nothing is read behind a malformed message, so nothing else is begun.
            return Err(AllocError);
        }
        Ok(want)
    }

    fn reply(&mut self, alloc: Global, reply: Reply) -> Result<Want<B::Output>, AllocError> {
        let want = self.body.reply(alloc, reply)?;
        self.went(want)
    }

    fn refused(&mut self, alloc: Global, error: Error) -> Result<Want<B::Output>, AllocError> {
        match &self.answer {
            Some(_) => Ok(Want::Answer(Err(error))),
            None => {
                let want = self.body.refused(alloc, error)?;
                self.went(want)
            }
        }
    }

    fn cleanup(&self, alloc: Global) -> Result<VecDeque<Cleanup>, AllocError> {
        let mut left = self.body.cleanup(alloc)?;
        self.leave(&mut left)?;
        Ok(left)
    }
}
