//! The frames that a client sends behind the startup frame (PostgreSQL documentation, "Message Formats").

ghost use Rattle.pg_wire.specs.Fronts.{IsWhole, message_of_bytes};
ghost use Rattle.pg_server.specs.Frames.{Parses, IsFrame};

use crate::layout::frame_of;
use bytes::Bytes;
use pg_machine::{Found, front_message};
use pg_types::{Blob, List, Text, WireFault};
use std::alloc::Global;

/// A frame of a client, with all that it says.
#[derive(Debug, Drop)]
pub enum Frame {
    /// A text of SQL, which may be several statements.
    Query(Text),
    /// A statement is to be prepared.
    Parse {
        name: Text,
        text: Text,
        /// The types of its parameters, as far as the client gives them.
        oids: List<u32>,
    },
    /// A portal is to be made of a statement and values.
    Bind {
        portal: Text,
        statement: Text,
        /// Of the values: none for text, one for all, or one each; 0 is text and 1 binary.
        formats: List<i16>,
        /// None is null.
        values: List<Option<Blob>>,
        /// Of the result's columns, as those of the values.
        results: List<i16>,
    },
    /// The variant is `S` for a statement and `P` for a portal; and its name.
    Describe(u8, Text),
    /// A portal's name, and how many rows at most; 0 is no limit.
    Execute(Text, i32),
    /// As for Describe.
    Close(u8, Text),
    Sync,
    Flush,
    CopyData(Blob),
    CopyDone,
    /// Why the client gives the copy up.
    CopyFail(Text),
    Terminate,
}

impl Frame {
    /// Cuts one whole frame off the front. None comes where no whole frame stands there, BadLength where none does and
    /// the header there is below 4, UnknownTag for a tag that none of these frames has, Layout where the body breaks its
    /// frame's layout, NotUtf8 where it keeps it and a text in it isn't UTF-8. After None or an error the bytes are as before.
    pub fn parse(alloc: Global, buf: &mut Bytes) -> Result<Option<Frame>, WireFault>
        ensures { Parses buf.old buf.new result }
    {
        let n = match front_message(buf.as_slice()) {
            Found::Whole(n) => n,
            Found::Short => return Ok(None),
            Found::Bad => return Err(WireFault::BadLength),
        };
        match whole_frame(alloc, buf.as_slice(), n) {
            Ok(frame) => {
                buf.advance(n);
                Ok(Some(frame))
            }
            Err(fault) => Err(fault),
        }
    }
}

/// The frame of the first `n` bytes, which are a whole one; or what is wrong with it.
pub(crate) fn whole_frame(alloc: Global, bytes: &[u8], n: usize) -> Result<Frame, WireFault>
    requires { IsWhole bytes.now n }
    ensures { IsFrame (message_of_bytes n bytes.now) result }
{
    frame_of(alloc, bytes[0], &bytes[5..n])
}
