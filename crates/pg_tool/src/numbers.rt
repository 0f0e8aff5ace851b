//! The numbers of a generated session, as the program's words spell them.

ghost use Rattle.std.specs.Prelude.{map, string_bytes};
ghost use Rattle.pg_spec.specs.SessionText.{IsNumber};
ghost use Rattle.pg_text.specs.Words.{Means};
ghost use Rattle.pg_tool.specs.Words.{AreNumbers, AreSpelled, AsksNumbers};

use pg_gen::MOST_COMMANDS;
use pg_text::number_of;

/// How many commands a generated session has, and its seed.
#[derive(Clone, Copy, Debug, PartialEq, Eq, Drop)]
pub(crate) struct Numbers {
    pub(crate) commands: u32,
    pub(crate) seed: u32,
}

/// The numbers behind the word `gen`, each in digits alone: the commands from 1 to 100,000, the seed of 32 bits. None where
/// the words are others.
pub(crate) fn asked_numbers(words: &[String]) -> Option<Numbers>
    ensures { AsksNumbers (map string_bytes words.now) result }
{
    match words {
        [word, commands, seed] => spelled(word.as_str(), commands.as_str(), seed.as_str()),
        _ => None,
    }
}

/// Both numbers, behind the word `gen`.
fn spelled(word: &str, commands: &str, seed: &str) -> Option<Numbers>
    ensures { AreSpelled word.now commands.now seed.now result }
{
    if word != "gen" {
        return None;
    }
    numbers_of(commands, seed)
}

/// Both numbers, where both are in range.
fn numbers_of(commands: &str, seed: &str) -> Option<Numbers>
    ensures { AreNumbers commands.now seed.now result }
{
    let Some(commands) = small_number(commands, MOST_COMMANDS) else {
        return None;
    };
    let Some(seed) = small_number(seed, u32::MAX) else {
        return None;
    };
    if commands == 0 {
        return None;
    }
    Some(Numbers { commands, seed })
}

/// The number that decimal digits spell, of at most `most`.
fn small_number(digits: &str, most: u32) -> Option<u32>
    ensures { Means (IsNumber most) digits.now result }
{
    let Some(number) = number_of(digits.as_bytes(), most as u64) else {
        return None;
    };
    Some(number as u32)
}
