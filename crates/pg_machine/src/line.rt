//! The lines of a machine's text.

ghost use Rattle.std.specs.Prelude.{◌≡◌, ◌==◌, map};
ghost use Rattle.std.specs.List.{slice_split};
ghost use Rattle.pg_machine.specs.MachineTexts.{keyword_by, line_at, rest_at, row_at, words_at};
ghost use Rattle.pg_machine.specs.Readings.{Gives};

use crate::MachineRow;
use crate::fault::{LineError, LineFault};
use crate::word::{frame_of, joined, state_of, words_of};
use pg_types::Blob;
use std::alloc::Global;

/// What a line says.
#[derive(Debug, Drop)]
pub(crate) enum Line {
    /// It is empty or a comment.
    Nothing,
    /// What the startup frame is replied.
    Startup(Blob),
    /// What a frame without a row is answered.
    Refusal(Blob),
    Row(MachineRow),
}

/// How a line begins.
#[derive(Clone, Copy, Debug, PartialEq, Eq, Drop)]
enum Keyword {
    Startup,
    Refusal,
    Row,
    /// A row that opens a copy.
    Opens,
}

/// What a line says.
pub(crate) fn read_line(alloc: Global, line: &[u8]) -> Result<Line, LineError>
    ensures { Gives (λ l. l) result (line_at line.now) }
{
    match line {
        [] => Ok(Line::Nothing),
        [first, ..] => {
            if *first == b'#' {
                Ok(Line::Nothing)
            } else {
                read_words(alloc, line)
            }
        }
    }
}

/// What a line says that has words.
fn read_words(alloc: Global, line: &[u8]) -> Result<Line, LineError>
    ensures { Gives (λ l. l) result (words_at (slice_split (λ b. b == 32) line.now)) }
{
    let words = words_of(alloc, line)?;
    let [word, rest @ ..] = words.as_slice() else {
        return Err(LineError::Fault(LineFault::FirstWord));
    };
    match keyword_of(word) {
        Some(keyword) => read_rest(alloc, keyword, rest),
        None => Err(LineError::Fault(LineFault::FirstWord)),
    }
}

/// What line begins with this word.
fn keyword_of(word: &[u8]) -> Option<Keyword>
    ensures { result ≡ keyword_by word.now }
{
    if word == b"startup".as_slice() {
        Some(Keyword::Startup)
    } else if word == b"refusal".as_slice() {
        Some(Keyword::Refusal)
    } else if word == b"row".as_slice() {
        Some(Keyword::Row)
    } else if word == b"opens".as_slice() {
        Some(Keyword::Opens)
    } else {
        None
    }
}

/// What a line says by the words behind the first.
#[tactic(auto, unfolding(crate::specs::MachineTexts::rest_at))]
fn read_rest(alloc: Global, keyword: Keyword, words: &[&[u8]]) -> Result<Line, LineError>
    ensures { Gives (λ l. l) result (rest_at keyword (map (λ word. word.now) words.now)) }
{
    match keyword {
        Keyword::Startup => Ok(Line::Startup(joined(alloc, words)?)),
        Keyword::Refusal => Ok(Line::Refusal(joined(alloc, words)?)),
        Keyword::Row => row_of(alloc, false, words),
        Keyword::Opens => row_of(alloc, true, words),
    }
}

/// A row: the state, the frame, the next state, and the reply.
#[tactic(auto, unfolding(crate::specs::MachineTexts::row_at))]
fn row_of(alloc: Global, opens: bool, words: &[&[u8]]) -> Result<Line, LineError>
    ensures { Gives (λ l. l) result (row_at opens (map (λ word. word.now) words.now)) }
{
    let [state, frame, next, reply @ ..] = words else {
        return Err(LineError::Fault(LineFault::Words));
    };
    let state = state_of(state)?;
    let frame = frame_of(alloc, frame)?;
    let next = state_of(next)?;
    let reply = joined(alloc, reply)?;
    Ok(Line::Row(MachineRow {
        state,
        frame,
        next,
        reply,
        opens,
    }))
}
