//! The machine that takes the steps of commands.

ghost use Rattle.std.specs.Prelude.{◌≡◌, ◌<◌, ◌+◌, ◌∷◌, ℕ, false, Some, length, IfOk};
ghost use Rattle.pg_query.specs.Scripts.{GoesOn, Falls, IsLast};
ghost use Rattle.pg_query.specs.declared.desk_call.Cleanup.TheVariants.{Release};
ghost use Rattle.pg_steps.specs.Calls.{plan, request_of};
ghost use Rattle.pg_steps.specs.Steps.{asks, behind_reply, dialogue_of, error_once, fails, means, posts, refuses_of, sends, steps_of, waits_of};
ghost use Rattle.pg_steps.specs.Replies.{IsFailure};
ghost use Rattle.pg_steps.specs.Steps.{Takes};
ghost use Rattle.pg_steps.specs.declared.steps.Phase.TheVariants as phase;

use crate::call::Call;
use crate::requests::rollback_frame;
use crate::step::Step;
use pg_client::DoneReading;
use pg_errors::Error;
use pg_query::{Action, Cleanup, Reading, Reply, Script, Want};
use pg_wire::{Message, WireFault};
use std::alloc::{AllocError, Global};
use std::collections::VecDeque;
use std::mem;

/// Where the machine stands.
#[derive(Clone, Copy, Drop)]
pub(crate) enum Phase {
    /// It takes the next step.
    Goes,
    /// It reads a reply.
    Reads,
    /// It hung up, and fails.
    Fails,
    /// It sent what rolls back, and gives its error.
    Ends,
}

/// A command: its call, the steps that are left of it, and whether an error rolls back.
pub struct Steps<'a> {
    pub(crate) call: Call<'a>,
    pub(crate) plan: &'static [Step],
    pub(crate) rolls_back: bool,
    pub(crate) failed: Option<Error>,
    pub(crate) phase: Phase,
}

impl<'a> Drop for Steps<'a> {
    fn drop(self) {
        let Steps {
            call: _,
            plan: _,
            rolls_back: _,
            failed,
            phase: _,
        } = self;
        drop(failed);
    }
}

impl<'a> Steps<'a> {
    /// A call at its begin. It takes no memory.
    pub fn new(call: Call<'a>) -> Steps<'a>
        ensures { dialogue_of result ≡ means (plan call.entry) call.entry false }
    {
        Steps {
            call,
            plan: call.plan(),
            rolls_back: false,
            failed: None,
            phase: Phase::Goes,
        }
    }

    /// Keeps an error.
    fn remember(&mut self, error: Error)
        ensures { self.new ≡ record self.old { failed = Some error } }
    {
        drop(mem::replace(&mut self.failed, Some(error)));
    }

    /// Gives this error, behind what rolls back.
    fn fail(&mut self, alloc: Global, error: Error) -> Result<Want<()>, AllocError>
        ensures goes_on { IfOk result (λ want. GoesOn dialogue_of refuses_of waits_of (fails self.old.rolls_back error) want self.new) }
        ensures falls { (n : ℕ) → 0 < n → IfOk result (λ want. Falls want n (steps_of self.new)) }
    {
        if self.rolls_back {
            let part = rollback_frame(alloc)?;
            self.remember(error);
            self.phase = Phase::Ends;
            return Ok(Want::Act(Action::Send(part)));
        }
        Ok(Want::Answer(Err(error)))
    }

    /// Asks by the request of the call.
    fn ask(&mut self, alloc: Global) -> Result<Want<()>, AllocError>
        requires { self.old.phase ≡ phase.Goes }
        ensures goes_on { IfOk result (λ want. GoesOn dialogue_of refuses_of waits_of (asks self.old.rolls_back (request_of self.old.call) (means self.old.plan.now self.old.call self.old.rolls_back)) want self.new) }
        ensures falls { IfOk result (λ want. Falls want (length self.old.plan.now + 2) (steps_of self.new)) }
    {
        match self.call.request(alloc)? {
            Ok(request) => Ok(Want::Act(Action::Ask(false, request))),
            Err(error) => self.fail(alloc, error),
        }
    }

    /// Sends the request of the call.
    fn send(&mut self, alloc: Global) -> Result<Want<()>, AllocError>
        requires { self.old.phase ≡ phase.Goes }
        ensures goes_on { IfOk result (λ want. GoesOn dialogue_of refuses_of waits_of (sends self.old.rolls_back (request_of self.old.call) (means self.old.plan.now self.old.call self.old.rolls_back)) want self.new) }
        ensures falls { IfOk result (λ want. Falls want (length self.old.plan.now + 2) (steps_of self.new)) }
    {
        match self.call.request(alloc)? {
            Ok(request) => Ok(Want::Act(Action::Send(request))),
            Err(error) => self.fail(alloc, error),
        }
    }

    /// Takes one step. None comes of a step that asks nothing.
    fn take(&mut self, alloc: Global, step: Step) -> Result<Option<Want<()>>, AllocError>
        requires { self.old.phase ≡ phase.Goes }
        ensures { IfOk result (λ want. Takes self.old step want self.new) }
    {
        match step {
            Step::Asks => Ok(Some(self.ask(alloc)?)),
            Step::RollsBack => {
                self.rolls_back = true;
                Ok(None)
            }
            Step::Reads => {
                self.phase = Phase::Reads;
                Ok(Some(Want::Read))
            }
            Step::Sends => Ok(Some(self.send(alloc)?)),
        }
    }

    /// Takes the steps that are left, up to the first that wants something.
    fn go_on(&mut self, alloc: Global) -> Result<Want<()>, AllocError>
        requires { self.old.phase ≡ phase.Goes }
        ensures goes_on { IfOk result (λ want. GoesOn dialogue_of refuses_of waits_of (means self.old.plan.now self.old.call self.old.rolls_back) want self.new) }
        ensures falls { IfOk result (λ want. Falls want (length self.old.plan.now + 1) (steps_of self.new)) }
    {
        while let [step, rest @ ..] = self.plan {
            self.plan = rest;
            if let Some(want) = self.take(alloc, *step)? {
                return Ok(want);
            }
        }
        Ok(Want::Answer(Ok(())))
    }

    /// Goes on with what a reply told.
    fn told(&mut self, alloc: Global, answer: Result<(), Error>) -> Result<Want<()>, AllocError>
        ensures goes_on { IfOk result (λ want. GoesOn dialogue_of refuses_of waits_of (behind_reply self.old (Some answer)) want self.new) }
        ensures last { IsFailure answer → IfOk result (λ want. IsLast want (dialogue_of self.new)) }
    {
        match answer {
            Ok(()) => {
                self.phase = Phase::Goes;
                self.go_on(alloc)
            }
            Err(error) => {
                self.remember(error);
                self.phase = Phase::Fails;
                Ok(Want::Act(Action::HangUp))
            }
        }
    }

    /// The error that was told, once.
    fn error(&mut self) -> Error
        ensures error { result ≡ error_once self.old.failed }
        ensures same { self.new.rolls_back ≡ self.old.rolls_back }
    {
        match self.failed.take() {
            Some(error) => error,
            None => Error::Closed,
        }
    }

    /// What is left to do where a reply is read.
    fn left(&self, alloc: Global) -> Result<VecDeque<Cleanup>, AllocError>
        ensures { IfOk result (λ left. left.items ≡ Release ∷ posts self.now.rolls_back) }
    {
        let mut left = VecDeque::new(alloc);
        left.push_back(Cleanup::Release)?;
        if self.rolls_back {
            let part = rollback_frame(alloc)?;
            left.push_back(Cleanup::Post(part))?;
        }
        Ok(left)
    }
}

impl<'a> Script for Steps<'a> {
    type Output = ();

    ghost dialogue = { dialogue_of };

    ghost refuses = { refuses_of };

    ghost waits = { waits_of };

    ghost steps = { steps_of };

    fn next(&mut self, alloc: Global) -> Result<Want<()>, AllocError> {
        match self.phase {
            Phase::Goes => self.go_on(alloc),
            Phase::Reads => Ok(Want::Read),
            Phase::Fails => {
                let error = self.error();
                self.fail(alloc, error)
            }
            Phase::Ends => Ok(Want::Answer(Err(self.error()))),
        }
    }

    fn message(
        &mut self,
        alloc: Global,
        message: &Result<Message, WireFault>,
    ) -> Result<Want<()>, AllocError> {
        let mut reading = DoneReading::of_batch();
        match reading.message(alloc, message)? {
            // It waited for a message, so it reads, and goes on with that.
            None => Ok(Want::Read),
            Some(answer) => self.told(alloc, answer),
        }
    }

    fn reply(&mut self, alloc: Global, reply: Reply) -> Result<Want<()>, AllocError> {
        // It asks the desk nothing.
        Err(AllocError)
    }

    fn refused(&mut self, alloc: Global, error: Error) -> Result<Want<()>, AllocError> {
        match self.phase {
            Phase::Goes => self.fail(alloc, error),
            _ => Ok(Want::Answer(Err(error))),
        }
    }

    fn cleanup(&self, alloc: Global) -> Result<VecDeque<Cleanup>, AllocError> {
        self.left(alloc)
    }
}
