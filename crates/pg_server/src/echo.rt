//! A handler that answers a query by its own text.

ghost use Rattle.std.specs.Prelude.{◌≡◌, ◌+◌, ◌^◌, ◌<◌, ◌++◌, length, IfOk};
ghost use Rattle.pg_spec.specs.RawMessages.{message_bytes};
ghost use Rattle.pg_server.specs.Frames.{frame_view};
ghost use Rattle.pg_server.specs.Echoes.{echo_step, echo_reply, rows_of, not_here};

use crate::frame::Frame;
use crate::handler::{Effect, Handler};
use pg_types::{Blob, OutOfMemory};
use std::alloc::Global;

/// RowDescription: one column `echo` of type text.
const DESCRIPTION: [u8; 30] = [
    b'T', 0, 0, 0, 29, 0, 1, b'e', b'c', b'h', b'o', 0, 0, 0, 0, 0, 0, 0, 0, 0, 0, 25, 255, 255,
    255, 255, 255, 255, 0, 0,
];
/// CommandComplete: `SELECT 1`.
const COMPLETE: [u8; 14] = [
    b'C', 0, 0, 0, 13, b'S', b'E', b'L', b'E', b'C', b'T', b' ', b'1', 0,
];
/// ErrorResponse: `ERROR`, `0A000`, `not here`.
const NOT_HERE: [u8; 37] = [
    b'E', 0, 0, 0, 36, b'S', b'E', b'R', b'R', b'O', b'R', 0, b'V', b'E', b'R', b'R', b'O', b'R',
    0, b'C', b'0', b'A', b'0', b'0', b'0', 0, b'M', b'n', b'o', b't', b' ', b'h', b'e', b'r', b'e',
    0, 0,
];
/// The longest text, in bytes, whose row is no longer than a message may be.
const LONGEST: usize = 2_147_483_637;

/// Answers a Query by one row that holds its text, and each other frame by the error `0A000`.
#[derive(Clone, Copy, Debug, Drop)]
pub struct Echo {
    alloc: Global,
}

impl Echo {
    /// It takes no memory.
    pub fn new(alloc: Global) -> Echo {
        Echo { alloc }
    }
}

/// Adds bytes behind others.
fn add(bytes: &mut Vec<u8>, piece: &[u8]) -> Result<(), OutOfMemory>
    ensures { IfOk result (λ _. bytes.new.items ≡ bytes.old.items ++ piece.now) }
{
    if bytes.extend_from_slice(piece).is_err() {
        return Err(OutOfMemory);
    }
    Ok(())
}

/// A row of one column that holds the text, between its description and the end of the command.
fn rows(alloc: Global, text: &[u8]) -> Result<Vec<u8>, OutOfMemory>
    requires { 10 + length text.now < 2 ^ 31 }
    ensures { IfOk result (λ bytes. bytes.items ≡ rows_of text.now) }
{
    let len = text.len() as u32;
    let mut bytes = Vec::new(alloc);
    add(&mut bytes, &DESCRIPTION)?;
    add(&mut bytes, b"D")?;
    add(&mut bytes, &(len + 10).to_be_bytes())?;
    add(&mut bytes, &[0, 1])?;
    add(&mut bytes, &len.to_be_bytes())?;
    add(&mut bytes, text)?;
    add(&mut bytes, &COMPLETE)?;
    Ok(bytes)
}

/// The error.
fn refusal(alloc: Global) -> Result<Vec<u8>, OutOfMemory>
    ensures { IfOk result (λ bytes. bytes.items ≡ message_bytes not_here) }
{
    let mut bytes = Vec::new(alloc);
    add(&mut bytes, &NOT_HERE)?;
    Ok(bytes)
}

/// What a frame is answered.
fn reply(alloc: Global, frame: &Frame) -> Result<Vec<u8>, OutOfMemory>
    ensures { IfOk result (λ bytes. bytes.items ≡ echo_reply (frame_view frame.now)) }
{
    let Frame::Query(text) = frame else {
        return refusal(alloc);
    };
    let text = text.as_str().as_bytes();
    if text.len() > LONGEST {
        return refusal(alloc);
    }
    rows(alloc, text)
}

impl Handler for Echo {
    ghost State = { Unit {0} };

    ghost state = { λ _. tt };

    ghost step = { echo_step };

    fn answer(&mut self, frame: &Frame) -> Result<Effect, OutOfMemory> {
        match reply(self.alloc, frame) {
            Ok(bytes) => Ok(Effect {
                reply: Blob::new(bytes),
                opens: false,
            }),
            Err(_) => Err(OutOfMemory),
        }
    }
}
