//! The requests of texts (PostgreSQL documentation, "Simple Query").

ghost use Rattle.std.specs.Prelude.{◌≡◌, IfOk};
ghost use Rattle.pg_core.specs.Composing.{or_encode};
ghost use Rattle.pg_spec.specs.Frames as frames;
ghost use Rattle.pg_steps.specs.Requests as spec;

use bytes::Bytes;
use pg_client::query_frame;
use pg_errors::Error;
use std::alloc::{AllocError, Global};

/// The request of a text, or why it can't be sent.
pub fn query_request(alloc: Global, text: &str) -> Result<Result<Bytes, Error>, AllocError>
    ensures { IfOk result (λ request. request ≡ or_encode (frames.query_frame text.now)) }
{
    match query_frame(alloc, text) {
        Ok(frame) => Ok(Ok(frame)),
        Err(error) => match &error {
            Error::OutOfMemory => Err(AllocError),
            _ => Ok(Err(error)),
        },
    }
}

/// The request that rolls a transaction back (PostgreSQL documentation, "ROLLBACK").
pub(crate) fn rollback_frame(alloc: Global) -> Result<Bytes, AllocError>
    ensures { IfOk result (λ frame. frame ≡ spec.rollback_frame) }
{
    match query_frame(alloc, "ROLLBACK") {
        Ok(frame) => Ok(frame),
        Err(error) => {
            drop(error);
            Err(AllocError)
        }
    }
}
