//! The frames that answer the server's requests, each in a buffer of its own.

ghost use Rattle.std.specs.Prelude.{◌≡◌, MatchResult, Ok, Err};
ghost use Rattle.pg_spec.specs.Frames as frames;
ghost use Rattle.pg_startup.specs.Steps.{Made, frame_error};

use bytes::BytesMut;
use pg_errors::{Cause, Error};
use pg_wire::{FrameFault, password_message, sasl_initial_response, sasl_response};
use std::alloc::Global;

/// Why a frame can't be written.
pub(crate) fn refused(fault: FrameFault) -> Error
    ensures { result ≡ frame_error fault }
{
    match fault {
        FrameFault::OutOfMemory => Error::OutOfMemory,
        _ => Error::Encode(Cause::Frame(fault)),
    }
}

/// PasswordMessage.
pub(crate) fn password_frame(alloc: Global, password: &[u8]) -> Result<BytesMut, Error>
    ensures { MatchResult result (λ frame. Made (frames.password_frame password.now) (Ok frame.items)) (λ e. Made (frames.password_frame password.now) (Err e)) }
{
    let mut frame = BytesMut::new(alloc);
    match password_message(password, &mut frame) {
        Ok(()) => Ok(frame),
        Err(fault) => Err(refused(fault)),
    }
}

/// SASLInitialResponse.
pub(crate) fn initial_frame(
    alloc: Global,
    mechanism: &str,
    response: &[u8],
) -> Result<BytesMut, Error>
    ensures { MatchResult result (λ frame. Made (frames.sasl_initial_frame mechanism.now response.now) (Ok frame.items)) (λ e. Made (frames.sasl_initial_frame mechanism.now response.now) (Err e)) }
{
    let mut frame = BytesMut::new(alloc);
    match sasl_initial_response(mechanism, response, &mut frame) {
        Ok(()) => Ok(frame),
        Err(fault) => Err(refused(fault)),
    }
}

/// SASLResponse.
pub(crate) fn response_frame(alloc: Global, response: &[u8]) -> Result<BytesMut, Error>
    ensures { MatchResult result (λ frame. Made (frames.sasl_frame response.now) (Ok frame.items)) (λ e. Made (frames.sasl_frame response.now) (Err e)) }
{
    let mut frame = BytesMut::new(alloc);
    match sasl_response(response, &mut frame) {
        Ok(()) => Ok(frame),
        Err(fault) => Err(refused(fault)),
    }
}
