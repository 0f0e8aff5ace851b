//! A simple query whose reply is given part by part.

ghost use Rattle.std.specs.Prelude.{◌≡◌, None};
ghost use Rattle.pg_types.specs.Texts.{sql_text};
ghost use Rattle.pg_streams.specs.SimpleStreams.{IsFrameOf, simple_query_raw};

use crate::opens::Opens;
use crate::simple_query_stream::SimpleQueryStream;
use bytes::{Bytes, BytesMut};
use futures::task::Poll;
use pg_desk::{Desk, Stamp};
use pg_errors::{Cause, Error};
use pg_query::error_of;
use pg_types::Sql;
use pg_wire::{FrameFault, query};
use std::alloc::Global;

/// The frame of a text, or the error of one that can't be sent.
pub(crate) fn query_frame(alloc: Global, text: &str) -> Result<Bytes, Error>
    ensures { IsFrameOf text.now result }
{
    let mut out = BytesMut::new(alloc);
    match query(text, &mut out) {
        Ok(()) => match out.freeze() {
            Ok(frame) => Ok(frame),
            Err(_) => Err(Error::OutOfMemory),
        },
        Err(FrameFault::OutOfMemory) => Err(Error::OutOfMemory),
        Err(fault) => Err(Error::Encode(Cause::Frame(fault))),
    }
}

/// The state of a simple query whose stream is the answer, in its first poll.
#[derive(Drop)]
pub struct SimpleQueryRawState<'a> {
    /// None once it was polled.
    text: Option<Sql<'a>>,
}

impl<'a> SimpleQueryRawState<'a> {
    /// Makes the state of a simple query of this text. It takes no memory, and books nothing before its first poll. Encode is
    /// the answer exactly where the text holds a zero byte or is too long for its frame; nothing is booked then. Closed comes
    /// where the desk takes no requests any more.
    pub fn new(text: Sql<'a>) -> SimpleQueryRawState<'a>
        ensures live { ⟦<SimpleQueryRawState<'a> as Opens>⟧.is_live result }
        ensures asks { (⟦<SimpleQueryRawState<'a> as Opens>⟧.place result).dialogue ≡ simple_query_raw (sql_text text.entry) }
        ensures first { ⟦<SimpleQueryRawState<'a> as Opens>⟧.first result ≡ (λ _ more. record { told = None; giving = tt; left = more }) }
    {
        SimpleQueryRawState { text: Some(text) }
    }
}

impl<'a> Opens for SimpleQueryRawState<'a> {
    ghost use Rattle.std.specs.Prelude as prelude;
    ghost use Rattle.std.specs.Prelude.{◌≡◌, None, Some, false, option_map};
    ghost use Rattle.pg_types.specs.Texts.{sql_text};
    ghost use Rattle.pg_streams.specs.declared.simple_query_message.SimpleQueryMessage as part;
    ghost use Rattle.pg_streams.specs.Handing.{never_whole, nothing_to_find};
    ghost use Rattle.pg_streams.specs.SimpleStates.{IsNew, asks_text, parts_opened, parts_over, parts_place};

    type Stream = SimpleQueryStream;

    ghost Whole = { prelude.List part.SimpleQueryMessage };

    ghost place = { λ s. record { dialogue = asks_text (option_map sql_text s.text); reads = 0 } };

    ghost Known = { Unit {0} };

    ghost knows = { λ _. Some tt };

    ghost known = { λ _. tt };

    ghost asks = { λ s _. asks_text (option_map sql_text s.text) };

    ghost finding = { λ _. nothing_to_find };

    ghost is_whole = { never_whole };

    ghost first = { λ _ _ more. record { told = None; giving = tt; left = more } };

    ghost stands = { parts_place };

    ghost opened = { parts_opened };

    ghost is_open = { λ s. parts_over s ≡ false };

    ghost is_live = { λ s. IsNew s.text };

    fn poll<D: Desk>(
        &mut self,
        alloc: Global,
        desk: &mut D,
        stamp: Stamp,
    ) -> Poll<Result<SimpleQueryStream, Error>> {
        let Some(text) = self.text.take() else {
            return Poll::Ready(Err(Error::Closed));
        };
        let frame = query_frame(alloc, text.as_str());
        drop(text);
        let frame = match frame {
            Ok(frame) => frame,
            Err(error) => return Poll::Ready(Err(error)),
        };
        match desk.book(alloc, stamp, frame, false) {
            Ok(id) => Poll::Ready(Ok(SimpleQueryStream::new(id))),
            Err(fault) => Poll::Ready(Err(error_of(fault))),
        }
    }

    fn hang_up<D: Desk>(self, alloc: Global, desk: &mut D, stamp: Stamp) -> Result<(), Error> {
        // Nothing was asked yet.
        Ok(())
    }
}
