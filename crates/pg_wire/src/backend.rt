//! Whole messages of one request, which are read one after another.

ghost use Rattle.std.specs.Prelude.{◌≡◌, ◌==◌, [], IfOk, length, true};
ghost use Rattle.pg_spec.specs.Batches.{is_batch};
ghost use Rattle.pg_spec.specs.RawMessages.{messages, ends_in, is_ready};
ghost use Rattle.pg_wire.specs.Backend.{HoldsBatch, Nexts};

use crate::front::count;
use crate::message::Message;
use bytes::Bytes;
use pg_types::{OutOfMemory, WireFault};
use std::marker::Model;

/// Whole messages, seen as their list: none of them is aside, and a ReadyForQuery, if one is there, is the
/// last. It shares the bytes that were received.
#[derive(Drop)]
pub struct BackendMessages {
    bytes: Bytes,
}

impl Model for BackendMessages {
    ghost use Rattle.std.specs.Prelude.{List};
    ghost use Rattle.pg_spec.specs.RawMessages.{RawMessage, messages};

    ghost Value = { List RawMessage };

    ghost view = { λ b. messages b.bytes };

    ghost use Rattle.pg_wire.specs.Backend.{HoldsBatch};

    ghost invariant = { λ b. HoldsBatch b.bytes };
}

impl BackendMessages {
    /// The list of no message.
    pub fn empty() -> BackendMessages
        ensures { result ≡ [] }
    {
        BackendMessages {
            bytes: Bytes::new(),
        }
    }

    pub(crate) fn new(bytes: Bytes) -> BackendMessages
        requires { HoldsBatch bytes }
        ensures { result ≡ messages bytes }
    {
        BackendMessages { bytes }
    }

    /// Whether none is left.
    pub fn is_empty(&self) -> bool
        ensures { result ≡ (length self.now == 0) }
    {
        self.bytes.is_empty()
    }

    /// How many messages they are.
    pub fn len(&self) -> usize
        ensures { result ≡ length self.now }
    {
        count(self.bytes.as_slice())
    }

    /// A law, which does nothing when it runs: they are a batch, and it is complete exactly where
    /// ReadyForQuery is the last of them.
    pub fn batch_law(&self)
        ensures { is_batch (ends_in is_ready self.now) self.now ≡ true }
    {
        let _ = &self.bytes;
    }

    /// The same messages once more. They share the bytes.
    pub fn share(&self) -> Result<BackendMessages, OutOfMemory>
        ensures { IfOk result (λ b. b ≡ self.now) }
    {
        let bytes = self.bytes.clone()?;
        Ok(BackendMessages { bytes })
    }

    /// Takes the next message off the front, or says what is wrong with it: UnknownTag or Layout. The
    /// messages are as before where none is left or the next one is refused.
    pub fn next(&mut self) -> Result<Option<Message>, WireFault>
        ensures { Nexts self.old self.new result }
    {
        Message::parse(&mut self.bytes)
    }
}
