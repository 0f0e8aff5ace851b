//! Streams of what calls answer.

use crate::answers::{Told, tell_answer, tell_columns, tell_error};
use futures::task::Poll;
use std::alloc::{AllocError, Global};
use tokio_postgres::{
    Error, Hub, Line, Link, Opens, Row, RowStream, SimpleQueryMessage, SimpleQueryStream, Stamp,
};

/// How often a stream is polled at most.
const READS: u64 = 1 << 32;

/// A stream of what a call answers.
pub trait Parts {
    type Item: Told;

    /// The next item.
    fn next(&mut self, alloc: Global, hub: &mut Hub) -> Poll<Option<Result<Self::Item, Error>>>;

    /// Tells what is known beside the items.
    fn tell(&self, out: &mut String) -> Result<(), AllocError>;

    /// Gives it up.
    fn give_up(self, alloc: Global, hub: &mut Hub) -> Result<(), Error>;
}

impl Parts for RowStream {
    type Item = Row;

    fn next(&mut self, alloc: Global, hub: &mut Hub) -> Poll<Option<Result<Row, Error>>> {
        self.poll_next(alloc, hub, Stamp::new(0, 0, 0))
    }

    fn tell(&self, out: &mut String) -> Result<(), AllocError> {
        tell_columns(self.columns(), out)?;
        write!(out, " affected {:?}", self.rows_affected())
    }

    fn give_up(self, alloc: Global, hub: &mut Hub) -> Result<(), Error> {
        self.hang_up(alloc, hub, Stamp::new(0, 0, 0))
    }
}

impl Parts for SimpleQueryStream {
    type Item = SimpleQueryMessage;

    fn next(
        &mut self,
        alloc: Global,
        hub: &mut Hub,
    ) -> Poll<Option<Result<SimpleQueryMessage, Error>>> {
        self.poll_next(alloc, hub, Stamp::new(0, 0, 0))
    }

    fn tell(&self, out: &mut String) -> Result<(), AllocError> {
        Ok(())
    }

    fn give_up(self, alloc: Global, hub: &mut Hub) -> Result<(), Error> {
        self.hang_up(alloc, hub, Stamp::new(0, 0, 0))
    }
}

/// Reads a stream to its end, or so many items.
fn read<L: Link, P: Parts>(
    alloc: Global,
    parts: &mut P,
    take: u64,
    line: &mut Line<L, Hub>,
    out: &mut String,
) -> Result<(), AllocError> {
    let mut left = take;
    for _ in 0..READS {
        if left == 0 {
            return Ok(());
        }
        match parts.next(alloc, &mut line.hub) {
            Poll::Ready(None) => return out.push_str(" end"),
            Poll::Ready(Some(item)) => {
                left -= 1;
                tell_answer(alloc, item, out)?;
            }
            Poll::Pending => match line.step(alloc) {
                Ok(()) => {}
                Err(error) => return tell_error(&error, out),
            },
        }
    }
    out.push_str(" waits")
}

/// Reads a stream to its end, or so many items, and gives it up.
fn spend<L: Link, P: Parts>(
    alloc: Global,
    parts: P,
    take: u64,
    line: &mut Line<L, Hub>,
    out: &mut String,
) -> Result<(), AllocError> {
    let mut parts = parts;
    let told = read(alloc, &mut parts, take, line, out);
    let known = parts.tell(out);
    let spent = parts.give_up(alloc, &mut line.hub);
    told?;
    known?;
    tell_answer(alloc, spent, out)
}

/// Polls the state of a call, so often at most, until it hands on its stream; reads that, or so many items. A state that hands on none
/// by then is given up.
pub fn stream<L: Link, P: Parts, O: Opens<Stream = P> + Drop>(
    alloc: Global,
    state: O,
    polls: u64,
    take: u64,
    line: &mut Line<L, Hub>,
    out: &mut String,
) -> Result<(), AllocError>
    requires { O.is_live state }
{
    let mut state = state;
    'polls: for _ in 0..polls {
        match state.poll(alloc, &mut line.hub, Stamp::new(0, 0, 0)) {
            Poll::Ready(Ok(parts)) => return spend(alloc, parts, take, line, out),
            Poll::Ready(Err(error)) => return tell_error(&error, out),
            Poll::Pending => match line.step(alloc) {
                Ok(()) => {}
                Err(error) => return tell_error(&error, out),
            },
        }
    }
    out.push_str(" given up")?;
    tell_answer(
        alloc,
        state.hang_up(alloc, &mut line.hub, Stamp::new(0, 0, 0)),
        out,
    )
}
