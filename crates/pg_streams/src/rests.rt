//! The rest of a reply, which is taken before a type of its columns is looked up.

ghost use Rattle.std.specs.Prelude.{◌≡◌, [], MatchResult};
ghost use Rattle.pg_wire.specs.Messages.{message_view};
ghost use Rattle.pg_query.specs.Meaning.{MatchPoll};
ghost use Rattle.pg_execute.specs.Typed.{ends_reply, has_ended};
ghost use Rattle.pg_streams.specs.Rests.{Adds, IsRest, RestComes, RestWaits, came};

use crate::taking::{Came, take_batch};
use futures::task::Poll;
use pg_desk::{Desk, Stamp};
use pg_errors::Error;
use pg_query::malformed;
use pg_wire::{BackendMessages, Message};
use std::alloc::Global;
use std::collections::VecDeque;

/// The batches that were taken behind the columns. A reader that left its mailbox full while types are looked up would stop the
/// connection.
#[derive(Drop)]
pub(crate) struct Rest {
    pub(crate) id: u64,
    pub(crate) batches: VecDeque<BackendMessages>,
    /// The reply ends in them: by ReadyForQuery, an error of the server, or what is malformed.
    pub(crate) ended: bool,
}

/// This message ends the reply.
fn ends(message: &Message) -> bool
    ensures { result ≡ ends_reply (message_view message.now) }
{
    match message {
        Message::ErrorResponse(_) | Message::ReadyForQuery(_) => true,
        _ => false,
    }
}

/// The reply ends in these messages.
fn end(batch: &BackendMessages) -> Result<bool, Error>
    ensures { MatchResult result (λ ended. ended ≡ has_ended batch.now) (λ e. e ≡ Error.OutOfMemory) }
{
    let mut left = batch.share()?;
    loop {
        match left.next() {
            Ok(None) => return Ok(false),
            Ok(Some(message)) => {
                if ends(&message) {
                    return Ok(true);
                }
            }
            Err(fault) => match malformed(fault) {
                Some(_) => return Ok(true),
                None => return Err(Error::OutOfMemory),
            },
        }
    }
}

impl Rest {
    /// None was taken of the reply to the request of this number. It takes no memory.
    pub(crate) fn new(alloc: Global, id: u64) -> Rest
        ensures came { came result ≡ [] }
        ensures id { result.id ≡ id }
        ensures is { IsRest result }
    {
        Rest {
            id,
            batches: VecDeque::new(alloc),
            ended: false,
        }
    }

    /// Keeps a batch behind the others.
    pub(crate) fn add(&mut self, batch: BackendMessages) -> Result<(), Error>
        ensures adds { MatchResult result (λ _. Adds self.old batch self.new) (λ e. e ≡ Error.OutOfMemory) }
        ensures id { self.new.id ≡ self.old.id }
    {
        let ended = end(&batch)?;
        self.batches.push_back(batch)?;
        self.ended = self.ended || ended;
        Ok(())
    }

    /// Takes batches up to the end of the reply.
    pub(crate) fn go_on<D: Desk>(&mut self, desk: &mut D, stamp: Stamp) -> Poll<Result<(), Error>>
        requires { IsRest self.old }
        ensures comes { MatchPoll result
            (λ r. RestComes D.becomes stamp desk.old self.old desk.new self.new r)
            (RestWaits D.becomes stamp desk.old self.old desk.new self.new) }
        ensures id { self.new.id ≡ self.old.id }
    {
        loop {
            if self.ended {
                return Poll::Ready(Ok(()));
            }
            match take_batch(desk, self.id) {
                Came::Batch(batch) => match self.add(batch) {
                    Ok(()) => {}
                    Err(error) => return Poll::Ready(Err(error)),
                },
                Came::Nothing => return Poll::Pending,
                Came::Fails(error) => return Poll::Ready(Err(error)),
            }
        }
    }
}
