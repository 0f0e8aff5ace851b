//! Texts in quotes.

ghost use Rattle.std.specs.Prelude.{◌≡◌, ◌<◌, IfOk, IfSome};
ghost use Rattle.pg_text.specs.Quotes.{hex_value, next_of, IsWithin, StaysWithin, ReadsInside, ReadsQuoted};

use pg_types::OutOfMemory;
use std::alloc::Global;

/// A text in quotes: its bytes, and how many bytes it takes in its line.
#[derive(Drop)]
pub(crate) struct Quoted {
    pub(crate) bytes: Vec<u8>,
    pub(crate) used: usize,
}

/// Where a reader stands inside quotes.
#[derive(Clone, Copy, Drop)]
enum Inside {
    Plain,
    /// Behind a backslash.
    Escape,
    /// Behind `\x`.
    High,
    /// Behind `\x` and a digit of this value.
    Low(u8),
}

/// What the next byte is there.
#[derive(Clone, Copy, Drop)]
enum Next {
    /// It ends the spelling of this byte.
    Byte(u8),
    Goes(Inside),
    /// The closing quote.
    End,
    Broken,
}

/// The text in quotes at the front.
pub(crate) fn read_quoted(alloc: Global, s: &[u8]) -> Result<Option<Quoted>, OutOfMemory>
    ensures { IfOk result (λ found. ReadsQuoted s.now found) }
{
    match s {
        [b'"', inner @ ..] => match read_inside(alloc, inner)? {
            Some(quoted) => {
                let Quoted { bytes, used } = quoted;
                Ok(Some(Quoted {
                    bytes,
                    used: used + 1,
                }))
            }
            None => Ok(None),
        },
        _ => Ok(None),
    }
}

/// The text up to the closing quote.
fn read_inside(alloc: Global, s: &[u8]) -> Result<Option<Quoted>, OutOfMemory>
    ensures { IfOk result (λ found. ReadsInside s.now found) }
{
    let mut bytes = Vec::new(alloc);
    let mut inside = Inside::Plain;
    for (at, byte) in s.iter().enumerate() {
        match read_byte(inside, *byte) {
            Next::Byte(value) => {
                bytes.push(value)?;
                inside = Inside::Plain;
            }
            Next::Goes(on) => {
                inside = on;
            }
            Next::End => return Ok(Some(Quoted {
                bytes,
                used: at + 1,
            })),
            Next::Broken => return Ok(None),
        }
    }
    Ok(None)
}

/// What a byte is where the reader stands.
fn read_byte(inside: Inside, byte: u8) -> Next
    requires { IsWithin inside }
    ensures next { result ≡ next_of inside byte }
    ensures within { StaysWithin result }
{
    match inside {
        Inside::Plain => match byte {
            b'"' => Next::End,
            b'\\' => Next::Goes(Inside::Escape),
            b'\n' => Next::Broken,
            _ => Next::Byte(byte),
        },
        Inside::Escape => match byte {
            b'"' | b'\\' => Next::Byte(byte),
            b'x' => Next::Goes(Inside::High),
            _ => Next::Broken,
        },
        Inside::High => match hex_digit(byte) {
            Some(value) => Next::Goes(Inside::Low(value)),
            None => Next::Broken,
        },
        Inside::Low(high) => match hex_digit(byte) {
            Some(value) => Next::Byte(16 * high + value),
            None => Next::Broken,
        },
    }
}

/// The value of a hex digit of either case.
fn hex_digit(digit: u8) -> Option<u8>
    ensures value { result ≡ hex_value digit }
    ensures small { IfSome result (λ value. value < 16) }
{
    match digit {
        b'0'..=b'9' => Some(digit - b'0'),
        b'a'..=b'f' => Some(digit - b'a' + 10),
        b'A'..=b'F' => Some(digit - b'A' + 10),
        _ => None,
    }
}
