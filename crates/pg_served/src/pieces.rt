//! How many bytes go over a link at a time.

ghost use Rattle.std.specs.Prelude.{◌<◌, IfSome};

use pg_text::number_of;

/// How many bytes a link gives at a read and takes at a write, at most.
#[derive(Clone, Copy, Debug, PartialEq, Eq, Drop)]
pub struct Pieces {
    pub cut: usize,
    pub room: usize,
}

/// How many it gives and takes where the words don't say.
const DEFAULT_PIECE: usize = 8192;

/// What the words ask for: no words, or two numbers in decimal digits, from 1. None: they are something else.
pub fn pieces_of(words: &[String]) -> Option<Pieces>
    ensures cut { IfSome result (λ pieces. 0 < pieces.cut) }
    ensures room { IfSome result (λ pieces. 0 < pieces.room) }
{
    match words {
        [] => Some(Pieces {
            cut: DEFAULT_PIECE,
            room: DEFAULT_PIECE,
        }),
        [cut, room] => both(count_of(cut.as_str()), count_of(room.as_str())),
        _ => None,
    }
}

/// Both numbers, where both are there.
fn both(cut: Option<usize>, room: Option<usize>) -> Option<Pieces>
    requires cut { IfSome cut (λ n. 0 < n) }
    requires room { IfSome room (λ n. 0 < n) }
    ensures cut { IfSome result (λ pieces. 0 < pieces.cut) }
    ensures room { IfSome result (λ pieces. 0 < pieces.room) }
{
    match (cut, room) {
        (Some(cut), Some(room)) => Some(Pieces { cut, room }),
        _ => None,
    }
}

/// A number from 1, in decimal digits.
fn count_of(word: &str) -> Option<usize>
    ensures { IfSome result (λ n. 0 < n) }
{
    match number_of(word.as_bytes(), u64::MAX) {
        Some(count) if count > 0 => Some(count as usize),
        _ => None,
    }
}
