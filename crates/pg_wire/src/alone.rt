//! Frames without a text: SSLRequest, CancelRequest, and those whose body is empty.

ghost use Rattle.std.specs.Prelude.{Ok};
ghost use Rattle.pg_spec.specs.Frames as frames;
ghost use Rattle.pg_wire.specs.Writes.{Writes};

use crate::FrameFault;
use bytes::BytesMut;

/// Appends SSLRequest, which asks the server for TLS before the startup frame.
pub fn ssl_request(out: &mut BytesMut) -> Result<(), FrameFault>
    ensures { Writes (Ok frames.ssl_request) out.old.items out.new.items result }
{
    append(b"\0\0\0\x08\x04\xd2\x16\x2f", out)
}

/// Appends CancelRequest, which asks the server to stop what this process does for its client.
pub fn cancel_request(
    process_id: i32,
    secret_key: i32,
    out: &mut BytesMut,
) -> Result<(), FrameFault>
    ensures { Writes (Ok (frames.cancel_request process_id secret_key)) out.old.items out.new.items result }
{
    // Room for the whole frame comes first, so a failure leaves no part of it.
    out.reserve(16)?;
    out.extend_reserved(b"\0\0\0\x10\x04\xd2\x16\x2e");
    out.extend_reserved(&process_id.to_be_bytes());
    out.extend_reserved(&secret_key.to_be_bytes());
    Ok(())
}

/// Appends Sync, which ends a request of the extended protocol.
pub fn sync(out: &mut BytesMut) -> Result<(), FrameFault>
    ensures { Writes (Ok frames.sync_frame) out.old.items out.new.items result }
{
    append(b"S\0\0\0\x04", out)
}

/// Appends Flush, at which the server writes what it holds back.
pub fn flush(out: &mut BytesMut) -> Result<(), FrameFault>
    ensures { Writes (Ok frames.flush_frame) out.old.items out.new.items result }
{
    append(b"H\0\0\0\x04", out)
}

/// Appends CopyDone, which ends a copy to the server.
pub fn copy_done(out: &mut BytesMut) -> Result<(), FrameFault>
    ensures { Writes (Ok frames.copy_done_frame) out.old.items out.new.items result }
{
    append(b"c\0\0\0\x04", out)
}

/// Appends a frame as it is.
fn append(frame: &[u8], out: &mut BytesMut) -> Result<(), FrameFault>
    ensures { Writes (Ok frame.now) out.old.items out.new.items result }
{
    out.extend_from_slice(frame)?;
    Ok(())
}
