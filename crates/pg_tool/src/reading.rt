//! Reads a source to its end.

ghost use Rattle.std.specs.Prelude.{MatchResult, Ok, Err};
ghost use Rattle.pg_tool.specs.Reading.{ReadsAll};

use pg_wire::{Source, SourceRead};
use std::alloc::Global;

/// The longest text, in bytes: 64 MiB.
const LONGEST: usize = 67_108_864;

/// How many bytes are read at a time.
const PIECE: usize = 8192;

/// Why a source isn't read to its end.
#[derive(Clone, Copy, Debug, PartialEq, Eq, Drop)]
pub enum ReadFault {
    /// A call of the source failed.
    Failed,
    /// More than 64 MiB came.
    TooLong,
    OutOfMemory,
}

/// All bytes of a source. It stops where more than 64 MiB came.
pub fn read_all<S: Source>(alloc: Global, source: &mut S) -> Result<Vec<u8>, ReadFault>
    ensures { MatchResult result (λ text. ReadsAll (S.state source.old) (S.state source.new) (Ok text.items)) (λ fault. ReadsAll (S.state source.old) (S.state source.new) (Err fault)) }
{
    let mut text = Vec::new(alloc);
    let mut piece = [0u8; PIECE];
    while text.len() <= LONGEST {
        match source.read(&mut piece) {
            SourceRead::Got(n) => {
                if text.extend_from_slice(&piece[..n]).is_err() {
                    return Err(ReadFault::OutOfMemory);
                }
            }
            SourceRead::End => return Ok(text),
            SourceRead::Failed => return Err(ReadFault::Failed),
        }
    }
    Err(ReadFault::TooLong)
}
