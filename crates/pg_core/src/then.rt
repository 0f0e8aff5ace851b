//! A script, and another behind its answer.

ghost use Rattle.std.specs.Prelude.{◌≡◌, ◌≤◌, ◌+◌, ℕ, IfOk};
ghost use Rattle.pg_query.specs.Dialogue.{Dialogue};
ghost use Rattle.pg_query.specs.Scripts.{GoesOn, Falls};
ghost use Rattle.pg_core.specs.Behind.{behind};
ghost use Rattle.pg_core.specs.Thens.{then_dialogue, then_refuses, then_waits, then_steps, is_end, IsThrough};

use crate::follow::Follow;
use pg_errors::Error;
use pg_query::{Action, Cleanup, Offer, Reply, Script, Want};
use pg_wire::{Message, WireFault};
use std::alloc::{AllocError, Global};
use std::collections::VecDeque;
use std::mem;

/// A script, and what comes behind its answer; then that.
#[derive(Drop)]
pub enum Then<A, K, B> {
    First(A, K),
    Second(B),
    /// Memory lacked.
    Spent,
}

/// What the first script does, as the whole does it: what is left to do where a part is given up is
/// followed by what is left behind it.
fn through<K: Follow>(alloc: Global, follow: &K, action: Action) -> Result<Action, AllocError>
    ensures { IfOk result (λ whole. IsThrough (K.extra follow.now) action whole) }
{
    match action {
        Action::Put(offer) => {
            let Offer { part, mut cleanup } = offer;
            follow.leave(alloc, &mut cleanup)?;
            Ok(Action::Put(Offer { part, cleanup }))
        }
        other => Ok(other),
    }
}

/// It is an answer, or hangs up.
fn ends<T>(want: &Want<T>) -> bool
    ensures { result ≡ is_end want.now }
{
    matches!(want, Want::Answer(_) | Want::Act(Action::HangUp))
}

impl<A: Script, K: Follow<Input = A::Output>> Then<A, K, K::Next> {
    /// The first script wants this, and where it answers the second begins.
    fn went(
        &mut self,
        alloc: Global,
        first: A,
        follow: K,
        want: Want<A::Output>,
    ) -> Result<Want<<K::Next as Script>::Output>, AllocError>
        ensures goes_on { (d : Dialogue A.Output) → GoesOn A.dialogue A.refuses A.waits d want first →
            IfOk result (λ w. GoesOn (then_dialogue A.dialogue K.extra K.goes K.Next.dialogue) (then_refuses A.refuses K.extra K.goes K.Next.refuses) (then_waits A.dialogue A.waits K.extra K.goes K.Next.dialogue K.Next.waits) (behind (K.extra follow) d (K.goes follow)) w self.new) }
        ensures falls { (n : ℕ) → Falls want n (A.steps first) →
            IfOk result (λ w. Falls w (n + K.most follow) (then_steps A.steps K.most K.Next.steps self.new)) }
    {
        match want {
            Want::Answer(answer) => {
                let mut second = follow.follow(alloc, answer)?;
                let want = second.next(alloc)?;
                *self = Then::Second(second);
                Ok(want)
            }
            Want::Act(action) => {
                let action = through(alloc, &follow, action)?;
                *self = Then::First(first, follow);
                Ok(Want::Act(action))
            }
            Want::Read => {
                *self = Then::First(first, follow);
                Ok(Want::Read)
            }
        }
    }
}

impl<A: Script, K: Follow<Input = A::Output>> Script for Then<A, K, K::Next> {
    type Output = <K::Next as Script>::Output;

    ghost dialogue = { then_dialogue A.dialogue K.extra K.goes K.Next.dialogue };

    ghost refuses = { then_refuses A.refuses K.extra K.goes K.Next.refuses };

    ghost waits = { then_waits A.dialogue A.waits K.extra K.goes K.Next.dialogue K.Next.waits };

    ghost steps = { then_steps A.steps K.most K.Next.steps };

    fn next(&mut self, alloc: Global) -> Result<Want<<K::Next as Script>::Output>, AllocError> {
        match mem::replace(self, Then::Spent) {
            Then::First(mut first, follow) => {
                let want = first.next(alloc)?;
                self.went(alloc, first, follow, want)
            }
            Then::Second(mut second) => {
                let want = second.next(alloc)?;
                *self = Then::Second(second);
                Ok(want)
            }
            Then::Spent => Ok(Want::Answer(Err(Error::Closed))),
        }
    }

    fn message(
        &mut self,
        alloc: Global,
        message: &Result<Message, WireFault>,
    ) -> Result<Want<<K::Next as Script>::Output>, AllocError> {
        match mem::replace(self, Then::Spent) {
            Then::First(mut first, follow) => {
                let want = first.message(alloc, message)?;
                let want = self.went(alloc, first, follow, want)?;
                if message.is_err() && !ends(&want) {
                    // Nothing is read behind a malformed message, so nothing else is begun.
                    return Err(AllocError);
                }
                Ok(want)
            }
            Then::Second(mut second) => {
                let want = second.message(alloc, message)?;
                *self = Then::Second(second);
                Ok(want)
            }
            Then::Spent => Err(AllocError),
        }
    }

    fn reply(
        &mut self,
        alloc: Global,
        reply: Reply,
    ) -> Result<Want<<K::Next as Script>::Output>, AllocError> {
        match mem::replace(self, Then::Spent) {
            Then::First(mut first, follow) => {
                let want = first.reply(alloc, reply)?;
                self.went(alloc, first, follow, want)
            }
            Then::Second(mut second) => {
                let want = second.reply(alloc, reply)?;
                *self = Then::Second(second);
                Ok(want)
            }
            Then::Spent => Err(AllocError),
        }
    }

    fn refused(
        &mut self,
        alloc: Global,
        error: Error,
    ) -> Result<Want<<K::Next as Script>::Output>, AllocError> {
        match mem::replace(self, Then::Spent) {
            Then::First(mut first, follow) => {
                let want = first.refused(alloc, error)?;
                self.went(alloc, first, follow, want)
            }
            Then::Second(mut second) => {
                let want = second.refused(alloc, error)?;
                *self = Then::Second(second);
                Ok(want)
            }
            Then::Spent => Err(AllocError),
        }
    }

    fn cleanup(&self, alloc: Global) -> Result<VecDeque<Cleanup>, AllocError> {
        match self {
            Then::First(first, follow) => {
                let mut left = first.cleanup(alloc)?;
                follow.leave(alloc, &mut left)?;
                Ok(left)
            }
            Then::Second(second) => second.cleanup(alloc),
            Then::Spent => Ok(VecDeque::new(alloc)),
        }
    }
}
