//! A command as a script: what it wants next.

ghost use Rattle.std.specs.Prelude.{◌≡◌, ◌<◌, ℕ, IfOk};
ghost use Rattle.pg_spec.specs.RawMessages.{RawMessage};
ghost use Rattle.pg_types.specs.declared.error.Error.{Error};
ghost use Rattle.pg_query.specs.Dialogue.{Dialogue, feed_one};
ghost use Rattle.pg_query.specs.Messages.{Means};
ghost use Rattle.pg_query.specs.Scripts.{Waiting, IsMessage, IsReply, heard, GoesOn, Stops, Falls, cleanup_of};

use crate::desk_call::{Cleanup, DeskCall, Reply};
use bytes::Bytes;
use pg_errors::Error;
use pg_wire::{Message, WireFault};
use std::alloc::{AllocError, Global};
use std::collections::VecDeque;

/// A part of a copy that is offered to the desk, and what is left to do where the command is given up
/// before the desk took it.
#[derive(Drop)]
pub struct Offer {
    pub part: Bytes,
    pub cleanup: VecDeque<Cleanup>,
}

/// What is done at the desk.
#[derive(Drop)]
pub enum Action {
    /// Books a request, a copy or not, whose messages are read from then on.
    Ask(bool, Bytes),
    /// Books a request and hangs it up.
    Send(Bytes),
    /// Puts a part to the copy that is read, once the desk has room for it.
    Put(Offer),
    /// Ends the copy that is read by its last part, and goes on with its reply.
    Finish(Bytes),
    /// Ends the copy that is read by this part, if it hasn't ended.
    Close(Bytes),
    /// Hangs up the request that is read.
    HangUp,
    /// Asks the desk something. The reply comes by `reply`.
    Call(DeskCall),
}

/// What a script wants next.
#[derive(Drop)]
pub enum Want<T> {
    Answer(Result<T, Error>),
    Act(Action),
    Read,
}

/// A command, step by step. The error of each step is want of memory.
pub trait Script: Drop {
    type Output: Drop;

    /// What it asks and answers from here on. What it wants is handed out, and this is what comes behind
    /// it.
    ghost dialogue: { Self → Dialogue Self.Output };

    /// What it asks and answers from here on where the desk refuses what it sent or asked.
    ghost refuses: { Self → Error → Dialogue Self.Output };

    /// What it waits for.
    ghost waits: { (s : Self) → Waiting (dialogue s) };

    /// Falls in each step that wants another.
    ghost steps: { Self → ℕ };

    /// What it wants at its begin, and behind each action.
    fn next(&mut self, alloc: Global) -> Result<Want<Self::Output>, AllocError>
        ensures goes_on { IfOk result (λ want. GoesOn dialogue refuses waits (dialogue self.old) want self.new) }
        ensures falls { IfOk result (λ want. Falls want (steps self.old) (steps self.new)) };

    /// The next message of the request that is read, or what is wrong with it. Behind a malformed one
    /// nothing is read.
    fn message(
        &mut self,
        alloc: Global,
        message: &Result<Message, WireFault>,
    ) -> Result<Want<Self::Output>, AllocError>
        ensures goes_on { (raw : RawMessage) → Means raw message.now → IsMessage (waits self.old) → IfOk result (λ want. GoesOn dialogue refuses waits (feed_one raw (dialogue self.old)) want self.new) }
        ensures stops { (raw : RawMessage) → Means raw message.now → IsMessage (waits self.old) → IfOk result (λ want. Stops message.now want (dialogue self.new)) };

    /// The reply to what it asked of the desk.
    fn reply(&mut self, alloc: Global, reply: Reply) -> Result<Want<Self::Output>, AllocError>
        ensures goes_on { IsReply (waits self.old) → IfOk result (λ want. GoesOn dialogue refuses waits (heard reply (dialogue self.old)) want self.new) }
        ensures falls { IsReply (waits self.old) → IfOk result (λ want. Falls want (steps self.old) (steps self.new)) };

    /// What it wants where the desk refused what it sent or asked, for this error.
    fn refused(&mut self, alloc: Global, error: Error) -> Result<Want<Self::Output>, AllocError>
        ensures goes_on { IfOk result (λ want. GoesOn dialogue refuses waits (refuses self.old error) want self.new) }
        ensures falls { IfOk result (λ want. Falls want (steps self.old) (steps self.new)) };

    /// What is left to do where the command is given up while it reads.
    fn cleanup(&self, alloc: Global) -> Result<VecDeque<Cleanup>, AllocError>
        ensures { IsMessage (waits self.now) → IfOk result (λ left. left.items ≡ cleanup_of (dialogue self.now)) };
}
