//! Cuts the bytes of the server into batches of messages that answer one request, and messages aside.

ghost use Rattle.std.specs.Prelude.{◌≡◌, true, slice_index};
ghost use Rattle.pg_wire.specs.Decode.{Decodes};
ghost use Rattle.pg_wire.specs.Encode.{frame_of};
ghost use Rattle.pg_wire.specs.Writes.{Writes};
ghost use Rattle.pg_wire.specs.Fronts.{IsWhole, is_aside_tag};

use crate::backend::BackendMessages;
use crate::front::{Found, batch_end, front, is_aside};
use crate::frontend::copy_data;
use crate::layout::{is_laid_out, message_of};
use crate::message::Message;
use bytes::{Bytes, BytesMut};
use pg_types::{FrameFault, WireFault};

/// What is written to the server.
#[derive(Drop)]
pub enum FrontendMessage {
    /// Frames as they are.
    Raw(Bytes),
    /// A piece of a copy, which a CopyData frame is put around.
    CopyData(Bytes),
}

/// What is cut off the received bytes.
#[derive(Drop)]
pub enum BackendMessage {
    /// Messages of one request, and whether they end in its ReadyForQuery.
    Normal {
        messages: BackendMessages,
        request_complete: bool,
    },
    /// A notice, a notification or a parameter report, which no request asks for.
    Async(Message),
}

/// The codec of the protocol.
#[derive(Drop)]
pub struct PostgresCodec;

impl PostgresCodec {
    /// Appends what is written. TooLong comes where a CopyData frame passes its length field. After a
    /// refusal `out` is as before.
    pub fn encode(item: &FrontendMessage, out: &mut BytesMut) -> Result<(), FrameFault>
        ensures { Writes (frame_of item.now) out.old.items out.new.items result }
    {
        match item {
            FrontendMessage::Raw(bytes) => {
                out.extend_from_slice(bytes.as_slice())?;
                Ok(())
            }
            FrontendMessage::CopyData(bytes) => copy_data(bytes.as_slice(), out),
        }
    }

    /// Cuts a batch or a message aside off the front. It copies no byte. None comes where no whole
    /// message stands in front, BadLength where none does and the header there is below 4, Layout where
    /// the message aside in front breaks its layout. After None or an error the buffer is as before.
    pub fn decode(buf: &mut BytesMut) -> Result<Option<BackendMessage>, WireFault>
        ensures { Decodes buf.old.items buf.new.items result }
    {
        let n = match front(buf.as_slice()) {
            Found::Whole(n) => n,
            Found::Short => return Ok(None),
            Found::Bad => return Err(WireFault::BadLength),
        };
        if is_aside(buf.as_slice()[0]) {
            return cut_aside(buf, n);
        }
        let cut = batch_end(buf.as_slice());
        let bytes = buf.freeze_to(cut.at)?;
        Ok(Some(BackendMessage::Normal {
            messages: BackendMessages::new(bytes),
            request_complete: cut.complete,
        }))
    }
}

/// Cuts the message aside off whose `n` bytes stand in front.
fn cut_aside(buf: &mut BytesMut, n: usize) -> Result<Option<BackendMessage>, WireFault>
    requires whole { IsWhole buf.old.items n }
    requires aside { is_aside_tag (slice_index buf.old.items 0) ≡ true }
    ensures { Decodes buf.old.items buf.new.items result }
{
    let tag = buf.as_slice()[0];
    // The body is looked at before anything is cut, so that a refused message stays.
    if !is_laid_out(tag, &buf.as_slice()[5..n]) {
        return Err(WireFault::Layout);
    }
    let mut body = buf.freeze_to(n)?;
    body.advance(5);
    match message_of(tag, body) {
        Ok(message) => Ok(Some(BackendMessage::Async(message))),
        Err(_) => unreachable!(),
    }
}
