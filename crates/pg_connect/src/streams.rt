//! What was read and not passed on, and what is to be sent.

ghost use Rattle.std.specs.Prelude.{◌≡◌, ◌<◌, length, true};
ghost use Rattle.pg_spec.specs.Batches.{is_batch};

use crate::Parameters;
use bytes::{Bytes, BytesMut};
use pg_wire::{BackendMessages, ErrorResponseBody, Message};
use std::collections::VecDeque;

/// A batch that a full mailbox refused.
#[derive(Drop)]
pub struct Held {
    pub batch: BackendMessages,
    /// It ends in the ReadyForQuery of its request.
    pub complete: bool,
    ghost cut: { is_batch complete batch ≡ true },
    ghost some: { 0 < length batch },
}

/// The state of a connection's two streams of bytes. The link isn't in it.
#[derive(Drop)]
pub struct Streams {
    /// Bytes that were given and not decoded.
    pub buffer: BytesMut,
    /// Where a piece is read into. It is made with the first read.
    pub piece: Vec<u8>,
    pub held: Option<Held>,
    /// A message that no request asked for, and that couldn't be read. Nothing is read after it.
    pub unread: Option<Message>,
    /// Notices of the startup, to be handed out before others are read.
    pub delayed: VecDeque<ErrorResponseBody>,
    pub parameters: Parameters,
    /// How many bytes the link gave, with those before the startup.
    pub given: u64,
    /// The most bytes that it may give.
    pub max_bytes: u64,
    /// Bytes that went out of the hub and weren't taken by the link.
    pub unsent: Bytes,
    /// Terminate was queued.
    pub closing: bool,
    /// It answered its end or an error.
    pub ended: bool,
    /// The link gave its end.
    pub at_end: bool,
    /// Something moved in the last poll.
    pub moved: bool,
    /// How many messages were delivered or discarded since the startup.
    pub delivered: u64,
}
