//! Which link the program's words ask for.

ghost use Rattle.std.specs.Prelude.{◌≡◌, ◌↔◌, IsTrue, map, string_bytes};
ghost use Rattle.pg_tool.specs.Words.{AsksOver, IsPipe, play};

/// The link that a session text is played over.
#[derive(Clone, Copy, Debug, PartialEq, Eq, Drop)]
pub(crate) enum Over {
    /// The text's own.
    Own,
    /// The one that was handed in.
    Handed,
}

/// What the words ask for; None where they are none of the program's.
pub(crate) fn asked_link(words: &[String]) -> Option<Over>
    ensures { AsksOver (map string_bytes words.now) result }
{
    if is_play(words) {
        return Some(Over::Own);
    }
    if is_pipe(words) {
        return Some(Over::Handed);
    }
    None
}

/// The words are `play` alone.
fn is_play(words: &[String]) -> bool
    ensures { IsTrue result ↔ (map string_bytes words.now ≡ play) }
{
    match words {
        [word] => word.as_str() == "play",
        _ => false,
    }
}

/// The words are `pipe` and two more.
fn is_pipe(words: &[String]) -> bool
    ensures { IsTrue result ↔ IsPipe (map string_bytes words.now) }
{
    match words {
        [word, _, _] => word.as_str() == "pipe",
        _ => false,
    }
}
