//! A connection over its hub: it is polled, its messages are kept, and its link is waited for.

ghost use Rattle.std.specs.Prelude.{◌≡◌};
ghost use Rattle.pg_drive.specs.Lines.{LineAdvances, LineSteps, PauseEnds, PollEnds, has_moved, new_line, seen};

use futures::task::Poll;
use pg_connect::Connection;
use pg_desk::Engine;
use pg_errors::{AsyncMessage, Cause, Error};
use pg_wire::{Link, LinkWait};
use std::alloc::Global;

/// For how many polls nothing moved.
#[derive(Clone, Copy, Debug, PartialEq, Eq, Drop)]
pub(crate) enum Lull {
    /// The last poll moved something, or none was made.
    Moved,
    /// The last poll moved nothing.
    Still,
    /// The last two moved nothing, and behind them the link was waited for.
    Waited,
}

/// A connection with its hub, and the messages that no request asked for, in order. Commands book in the hub and take from it, and a
/// step polls the connection. It goes on until it steps into an error: the connection's, which has made the hub fail, and Closed from
/// then on; Io where a wait for the link failed; or Stalled, where two polls in a row moved nothing, and the link was waited for in
/// vain or a third moved nothing either. The numbers of Stalled are how often calls of the link weren't ready, before the last poll and
/// behind it.
#[derive(Drop)]
pub struct Line<L, E> {
    pub connection: Connection<L>,
    pub hub: E,
    pub messages: Vec<AsyncMessage>,
    pub(crate) lull: Lull,
}

impl<L: Link, E: Engine> Line<L, E> {
    /// A line before its first poll. It takes no memory.
    pub fn new(alloc: Global, connection: Connection<L>, hub: E) -> Line<L, E>
        ensures connection { result.connection ≡ connection }
        ensures line { seen L.view result ≡ new_line hub connection.streams (L.view connection.link) }
    {
        Line {
            connection,
            hub,
            messages: Vec::new(alloc),
            lull: Lull::Moved,
        }
    }

    /// Polls the connection once, and waits for its link where two polls in a row moved nothing. Ok: it goes
    /// on.
    pub fn step(&mut self, alloc: Global) -> Result<(), Error>
        ensures { LineSteps E.becomes (seen L.view self.old) (seen L.view self.new) result }
    {
        match self.advance(alloc) {
            Ok(_) => Ok(()),
            Err(error) => Err(error),
        }
    }

    /// A step that says whether the connection has ended: all that was booked went out and was answered, requests are closed, and its
    /// link is shut down.
    pub fn advance(&mut self, alloc: Global) -> Result<bool, Error>
        ensures { LineAdvances E.becomes (seen L.view self.old) (seen L.view self.new) result }
    {
        let before = self.connection.quiet();
        let told = self.poll(alloc)?;
        let after = self.connection.quiet();
        self.lull = self.pause(told, before, after)?;
        Ok(told.is_none())
    }

    /// Polls the connection once. None: it has ended; else whether that moved anything.
    fn poll(&mut self, alloc: Global) -> Result<Option<bool>, Error>
        ensures { PollEnds E.becomes (seen L.view self.old) (seen L.view self.new) result }
    {
        match self.connection.poll_message(alloc, &mut self.hub) {
            Poll::Pending => Ok(Some(self.connection.moved())),
            Poll::Ready(None) => Ok(None),
            Poll::Ready(Some(Err(error))) => Err(error),
            Poll::Ready(Some(Ok(message))) => match self.messages.push(message) {
                Ok(()) => Ok(Some(true)),
                Err(_) => {
                    let _ = self.hub.fail();
                    Err(Error::OutOfMemory)
                }
            },
        }
    }

    /// Behind a poll in which the link's count of calls that weren't ready went from `before` to `after`.
    fn pause(&mut self, told: Option<bool>, before: u64, after: u64) -> Result<Lull, Error>
        ensures end { PauseEnds self.old.lull (has_moved told) before after (L.view self.old.connection.link) (L.view self.new.connection.link) result }
        ensures streams { self.new.connection.streams ≡ self.old.connection.streams }
        ensures same { self.new ≡ record self.old { connection = self.new.connection } }
    {
        if told.unwrap_or(true) {
            return Ok(Lull::Moved);
        }
        match self.lull {
            Lull::Moved => Ok(Lull::Still),
            Lull::Waited => Err(Error::Stalled { before, after }),
            Lull::Still => match self.connection.wait() {
                LinkWait::Ready => Ok(Lull::Waited),
                LinkWait::Idle => Err(Error::Stalled { before, after }),
                LinkWait::Failed => Err(Error::Io(Cause::Link)),
            },
        }
    }
}
