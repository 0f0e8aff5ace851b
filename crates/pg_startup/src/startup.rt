//! The state of a startup, before its first poll and behind its last.

ghost use Rattle.std.specs.Prelude.{◌≡◌, IfOk, IsTrue, MatchResult, Ok, Err};
ghost use Rattle.pg_spec.specs.Links.{LinkView};
ghost use Rattle.pg_spec.specs.Passwords.{is_nonce};
ghost use Rattle.pg_startup.specs.Stages.{login_of};
ghost use Rattle.pg_startup.specs.Steps.{Made, frame_of};
ghost use Rattle.pg_startup.specs.Startups.{Opening};
ghost use Rattle.pg_startup.specs.StartupPolls.{IsFresh};

use crate::{Dialogue, Login, Transfer, opening_frame};
use bytes::Bytes;
use pg_connect::{Parameters, Streams};
use pg_errors::Error;
use pg_types::OutOfMemory;
use pg_wire::ErrorResponseBody;
use std::alloc::Global;
use std::collections::VecDeque;

/// Where a startup stands behind some messages.
#[derive(Clone, Copy, Debug, PartialEq, Eq, Drop)]
pub enum Heard {
    /// It waits for the next one.
    More,
    /// The last one was ReadyForQuery.
    Done,
}

/// The state of a startup. The link isn't in it.
#[derive(Drop)]
pub struct Startup<'a> {
    /// None where it is over.
    pub dialogue: Option<Dialogue<'a>>,
    /// ReadyForQuery was heard.
    pub done: bool,
    /// What crosses the link.
    pub bytes: Transfer,
    /// The frames written so far, the startup frame first.
    pub opening: Vec<u8>,
    /// Notices, in order.
    pub delayed: VecDeque<ErrorResponseBody>,
    /// The last value of each reported name.
    pub parameters: Parameters,
    /// The last key data; zeros before any.
    pub process_id: i32,
    pub secret_key: i32,
}

impl<'a> Startup<'a> {
    /// A startup before its first poll. `asked`: how many bytes the link gave before it. Encode comes exactly where the
    /// writer of the startup frame refuses it.
    pub fn new(
        alloc: Global,
        login: Login<'a>,
        asked: u64,
        max_bytes: u64,
    ) -> Result<Startup<'a>, Error>
        requires nonce { IsTrue (is_nonce login.nonce.now) }
        ensures made { MatchResult result
            (λ s. Made (frame_of (login_of login.entry).settings) (Ok s.opening.items))
            (λ e. Made (frame_of (login_of login.entry).settings) (Err e)) }
        ensures fresh { (begin : LinkView) → IfOk result (Opening (login_of login.entry) asked begin begin) }
        ensures limit { IfOk result (λ s. (s.bytes.max_bytes ≡ max_bytes) × (s.bytes.given ≡ asked)) }
    {
        let frame = match opening_frame(alloc, login.config) {
            Ok(frame) => frame,
            Err(error) => return Err(error),
        };
        let mut bytes = Transfer::new(alloc, asked, max_bytes);
        match bytes.queue(frame.as_slice()) {
            Ok(()) => {}
            Err(OutOfMemory) => return Err(Error::OutOfMemory),
        }
        let Ok(opening) = Vec::from_slice(alloc, frame.as_slice()) else {
            return Err(Error::OutOfMemory);
        };
        Ok(Startup {
            dialogue: Some(Dialogue::new(login)),
            done: false,
            bytes,
            opening,
            delayed: VecDeque::new(alloc),
            parameters: Parameters::new(alloc),
            process_id: 0,
            secret_key: 0,
        })
    }

    /// What a startup that is done leaves: its frames, its process id and key, and the streams of a connection that goes on
    /// with the bytes that weren't decoded, the notices and the reports. It takes no memory.
    pub fn into_streams(self, alloc: Global) -> (Vec<u8>, (i32, i32), Streams)
        ensures fresh { IsFresh self.entry result.0.items result.2 }
        ensures key { result.1 ≡ (self.entry.process_id, self.entry.secret_key) }
    {
        let Startup {
            dialogue: _,
            done: _,
            bytes,
            opening,
            delayed,
            parameters,
            process_id,
            secret_key,
        } = self;
        let Transfer {
            buffer,
            unsent: _,
            given,
            max_bytes,
            flushed: _,
            moved: _,
        } = bytes;
        let streams = Streams {
            buffer,
            piece: Vec::new(alloc),
            held: None,
            unread: None,
            delayed,
            parameters,
            given,
            max_bytes,
            unsent: Bytes::new(),
            closing: false,
            ended: false,
            at_end: false,
            moved: false,
            delivered: 0,
        };
        (opening, (process_id, secret_key), streams)
    }

    /// Whether the link gave or took a byte, or gave its end, in the last poll.
    pub fn moved(&self) -> bool
        ensures { result ≡ self.now.bytes.moved }
    {
        self.bytes.moved
    }

    /// How many bytes the link gave, with those before the startup.
    pub fn given(&self) -> u64
        ensures { result ≡ self.now.bytes.given }
    {
        self.bytes.given
    }
}
