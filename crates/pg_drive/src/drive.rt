//! A drive, which polls a state and its connection in turn.

ghost use Rattle.std.specs.Prelude.{◌≡◌, Some, None, IfSome, option_map};
ghost use Rattle.futures.specs.Poll.{OnPending};
ghost use Rattle.pg_drive.specs.Drives.{GivesAt, HungUp, IsLive, Polls};
ghost use Rattle.pg_drive.specs.Lines.{new_line, seen};

use crate::line::Line;
use futures::Future;
use futures::task::{Context, Poll};
use pg_connect::Connection;
use pg_desk::{Engine, Stamp};
use pg_errors::{AsyncMessage, Error};
use pg_query::Polled;
use pg_types::List;
use pg_wire::Link;
use std::alloc::Global;

/// A command's state with its connection and hub. It ends with the state's answer; or, behind a hanging up of the state, with the
/// connection's error, with Io where a wait for the link failed, or with Stalled: two polls of the connection in a row moved nothing,
/// and the link was waited for in vain, or a third moved nothing either. The numbers of Stalled are how often calls of the link
/// weren't ready, before the last poll and behind it.
#[derive(Drop)]
pub struct Drive<S, L, E> {
    alloc: Global,
    /// None: it answered.
    state: Option<S>,
    stamp: Stamp,
    line: Line<L, E>,
}

impl<S: Polled + Drop, L: Link + Drop, E: Engine + Drop> Drive<S, L, E> {
    /// A drive before its first poll. It takes no memory.
    pub fn new(
        alloc: Global,
        state: S,
        stamp: Stamp,
        connection: Connection<L>,
        hub: E,
    ) -> Drive<S, L, E>
        ensures state { result.state ≡ Some state }
        ensures stamp { result.stamp ≡ stamp }
        ensures connection { result.line.connection ≡ connection }
        ensures line { seen L.view result.line ≡ new_line hub connection.streams (L.view connection.link) }
    {
        Drive {
            alloc,
            state: Some(state),
            stamp,
            line: Line::new(alloc, connection, hub),
        }
    }

    /// Polls the state once, and then, where it waits, the connection. Where it answers, it holds no state any more, and the
    /// connection and the hub may serve another drive.
    pub fn step(&mut self) -> Poll<Result<S::Output, Error>>
        requires { IsLive S.is_live self.old }
        ensures polls { IfSome self.old.state (λ s. Polls E.becomes self.old.stamp (S.place s) (seen L.view self.old.line)
            (option_map S.place self.new.state) (seen L.view self.new.line) result) }
        ensures live { OnPending result (IsLive S.is_live self.new) }
        ensures stamp { self.new.stamp ≡ self.old.stamp }
    {
        let Some(state) = &mut self.state else {
            unreachable!()
        };
        match state.poll(self.alloc, &mut self.line.hub, self.stamp) {
            Poll::Ready(answer) => {
                self.state = None;
                return Poll::Ready(answer);
            }
            Poll::Pending => {}
        }
        match self.line.step(self.alloc) {
            Ok(()) => Poll::Pending,
            Err(error) => {
                self.hang_up();
                Poll::Ready(Err(error))
            }
        }
    }

    /// Gives its state up, and does what that has left to do.
    fn hang_up(&mut self)
        requires { IfSome self.old.state S.is_live }
        ensures hung_up { IfSome self.old.state (λ s. HungUp E.becomes self.old.stamp self.old.line.hub (S.place s) self.new.line.hub) }
        ensures state { self.new.state ≡ None }
        ensures same { self.new ≡ record self.old { state = None; line = record self.old.line { hub = self.new.line.hub } } }
    {
        if let Some(state) = self.state.take() {
            let _ = state.hang_up(self.alloc, &mut self.line.hub, self.stamp);
        }
    }

    /// What it holds: the connection, the hub, and the messages that no request asked for, in order. A state that hasn't answered is
    /// let go and not hung up: its requests stay in the hub.
    pub fn into_parts(self) -> (Connection<L>, E, List<AsyncMessage>)
        ensures connection { result.0 ≡ self.line.connection }
        ensures hub { result.1 ≡ self.line.hub }
        ensures messages { result.2 ≡ self.line.messages.items }
    {
        let Drive {
            alloc: _,
            state: _,
            stamp: _,
            line,
        } = self;
        let Line {
            connection,
            hub,
            messages,
            lull: _,
        } = line;
        (connection, hub, List::new(messages))
    }
}

/// It gives the answer of its state, which stands where polls of its own led it, or what ended the connection.
/// A poll that is pending asks for another.
impl<S: Polled + Drop, L: Link + Drop, E: Engine + Drop> Future for Drive<S, L, E> {
    type Output = Result<S::Output, Error>;

    ghost can_poll = { IsLive S.is_live };

    ghost gives = { GivesAt E.becomes S.place L.view };

    fn poll(&mut self, cx: &mut Context<'_>) -> Poll<Result<S::Output, Error>> {
        match self.step() {
            Poll::Ready(answer) => Poll::Ready(answer),
            Poll::Pending => cx.yield_now(),
        }
    }
}
