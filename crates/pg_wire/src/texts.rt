//! Texts that a zero byte ends (PostgreSQL documentation, "Message Data Types", under String).

ghost use Rattle.std.specs.Prelude.{◌≡◌, true, false, MatchResult};
ghost use Rattle.std.specs.Str.{is_utf8};
ghost use Rattle.pg_wire.specs.Bodies.{TextEnds, PairEnds, text_pair};

use bytes::Bytes;
use pg_types::WireFault;
use std::marker::Model;

/// Two texts, one behind the other. They share the bytes that were received.
#[derive(Drop)]
pub(crate) struct TextPair {
    bytes: Bytes,
    middle: usize,
}

impl Model for TextPair {
    ghost use Rattle.std.specs.Prelude.{◌+◌, ◌<◌, length, take, drop};
    ghost use Rattle.pg_wire.specs.Bodies as bodies;

    ghost Value = { bodies.TextPair };

    ghost view = { λ p. record { first = take p.middle p.bytes; second = drop (p.middle + 1) p.bytes } };

    ghost invariant = { λ p. p.middle < length p.bytes };
}

impl TextPair {
    /// The two texts of which these bytes are made.
    pub fn read(mut bytes: Bytes) -> Option<TextPair>
        ensures { result ≡ text_pair bytes }
    {
        let middle = match pair_end(bytes.as_slice()) {
            Some(middle) => middle,
            None => return None,
        };
        bytes.truncate(bytes.len() - 1);
        Some(TextPair { bytes, middle })
    }

    /// The bytes of the first text.
    pub fn first(&self) -> &[u8]
        ensures { result.now ≡ self.now.first }
    {
        &self.bytes.as_slice()[..self.middle]
    }

    /// The bytes of the second text.
    pub fn second(&self) -> &[u8]
        ensures { result.now ≡ self.now.second }
    {
        &self.bytes.as_slice()[self.middle + 1..]
    }
}

/// Where the zero byte stands that ends the text in front.
pub(crate) fn text_end(bytes: &[u8]) -> Option<usize>
    ensures { TextEnds bytes.now result }
{
    for (i, b) in bytes.iter().enumerate() {
        if *b == 0 {
            return Some(i);
        }
    }
    None
}

/// Where the first text ends, if the bytes are two texts with nothing behind them.
pub(crate) fn pair_end(bytes: &[u8]) -> Option<usize>
    ensures { PairEnds bytes.now result }
{
    let middle = match text_end(bytes) {
        Some(middle) => middle,
        None => return None,
    };
    let second = &bytes[middle + 1..];
    let end = match text_end(second) {
        Some(end) => end,
        None => return None,
    };
    if end + 1 < second.len() {
        return None;
    }
    Some(middle)
}

/// The bytes as a text, or NotUtf8.
pub(crate) fn utf8(bytes: &[u8]) -> Result<&str, WireFault>
    ensures { MatchResult result
        (λ text. (text.now ≡ bytes.now) × (is_utf8 bytes.now ≡ true))
        (λ fault. (fault ≡ WireFault.NotUtf8) × (is_utf8 bytes.now ≡ false)) }
{
    match str::from_utf8(bytes) {
        Ok(text) => Ok(text),
        Err(_) => Err(WireFault::NotUtf8),
    }
}
