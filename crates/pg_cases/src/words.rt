//! The words of a line, as bytes. A word is bare, or stands in quotes with the escapes of a Rust text.

use std::alloc::{AllocError, Global};
use std::{mem, str};

/// Where the reader stands.
#[derive(Clone, Copy, Drop)]
enum Place {
    Between,
    Bare,
    Quoted,
    /// Behind a backslash.
    Escape,
    /// Behind `\x`.
    High,
    /// Behind `\x` and the digit of this value.
    Low(u8),
}

/// The words read so far.
#[derive(Drop)]
struct Reader {
    words: Vec<Vec<u8>>,
    word: Vec<u8>,
    place: Place,
}

/// The value of a hex digit.
fn digit(byte: u8) -> u8 {
    match byte {
        b'0'..=b'9' => byte - b'0',
        b'a'..=b'f' => byte - b'a' + 10,
        _ => 0,
    }
}

/// The byte that a letter stands for behind a backslash.
fn escaped(byte: u8) -> u8 {
    match byte {
        b'0' => 0,
        b'n' => b'\n',
        b'r' => b'\r',
        b't' => b'\t',
        _ => byte,
    }
}

impl Reader {
    /// Adds a byte to the word.
    fn add(&mut self, byte: u8, place: Place) -> Result<(), AllocError> {
        self.place = place;
        self.word.push(byte)?;
        Ok(())
    }

    /// Ends the word.
    fn end(&mut self, alloc: Global) -> Result<(), AllocError> {
        self.place = Place::Between;
        let word = mem::replace(&mut self.word, Vec::new(alloc));
        self.words.push(word)?;
        Ok(())
    }

    /// Reads a byte inside quotes.
    fn quoted(&mut self, alloc: Global, byte: u8) -> Result<(), AllocError> {
        match byte {
            b'"' => self.end(alloc),
            b'\\' => {
                self.place = Place::Escape;
                Ok(())
            }
            _ => self.add(byte, Place::Quoted),
        }
    }

    /// Reads a byte behind a backslash.
    fn escape(&mut self, byte: u8) -> Result<(), AllocError> {
        if byte == b'x' {
            self.place = Place::High;
            return Ok(());
        }
        self.add(escaped(byte), Place::Quoted)
    }

    /// Reads a byte between words.
    fn between(&mut self, byte: u8) -> Result<(), AllocError> {
        match byte {
            b' ' => Ok(()),
            b'"' => {
                self.place = Place::Quoted;
                Ok(())
            }
            _ => self.add(byte, Place::Bare),
        }
    }

    /// Reads a byte.
    fn take(&mut self, alloc: Global, byte: u8) -> Result<(), AllocError> {
        match self.place {
            Place::Between => self.between(byte),
            Place::Bare if byte == b' ' => self.end(alloc),
            Place::Bare => self.add(byte, Place::Bare),
            Place::Quoted => self.quoted(alloc, byte),
            Place::Escape => self.escape(byte),
            Place::High => {
                self.place = Place::Low(digit(byte));
                Ok(())
            }
            Place::Low(high) => {
                let byte = high.wrapping_mul(16).wrapping_add(digit(byte));
                self.add(byte, Place::Quoted)
            }
        }
    }

    /// Reads a line.
    fn take_all(&mut self, alloc: Global, line: &[u8]) -> Result<(), AllocError> {
        for &byte in line {
            self.take(alloc, byte)?;
        }
        match self.place {
            Place::Bare => self.end(alloc),
            _ => Ok(()),
        }
    }
}

/// The words of a line.
pub fn read(alloc: Global, line: &[u8]) -> Result<Vec<Vec<u8>>, AllocError> {
    let mut reader = Reader {
        words: Vec::new(alloc),
        word: Vec::new(alloc),
        place: Place::Between,
    };
    reader.take_all(alloc, line)?;
    Ok(reader.words)
}

/// A word as a text, empty where it isn't UTF-8.
pub fn text(word: &[u8]) -> &str {
    match str::from_utf8(word) {
        Ok(text) => text,
        Err(_) => "",
    }
}

/// The word at a place from 0, empty where there is none.
pub fn at(words: &[Vec<u8>], place: usize) -> &[u8] {
    match words.get(place) {
        Some(word) => word.as_slice(),
        None => b"",
    }
}

/// The word at a place from 0 as a text.
pub fn text_at(words: &[Vec<u8>], place: usize) -> &str {
    text(at(words, place))
}
