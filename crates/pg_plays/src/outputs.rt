//! How many bytes go over the links, and what a session's output is.

ghost use Rattle.std.specs.Prelude.{◌<◌};

use crate::played;
use pg_served::Pieces;
use std::alloc::{AllocError, Global};

/// The number that a word says, 1 where it says none.
fn number(word: Option<&str>) -> usize
    ensures { 0 < result }
{
    match word {
        Some(word) => word.parse::<usize>().unwrap_or(1).max(1),
        None => 1,
    }
}

/// What the first two words of a head say.
pub(crate) fn pieces_of(head: &str) -> Pieces
    ensures cut { 0 < result.cut }
    ensures room { 0 < result.room }
{
    let mut words = head.split(' ');
    let cut = number(words.next());
    let room = number(words.next());
    Pieces { cut, room }
}

/// The status and what was written, as a text.
pub(crate) fn output(alloc: Global, status: u8, written: &[u8]) -> Result<String, AllocError> {
    let mut out = String::new(alloc);
    played::tell_output(status, written, &mut out)?;
    Ok(out)
}
