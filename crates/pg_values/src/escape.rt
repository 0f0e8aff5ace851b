//! Characters inside of quotes.

use std::fmt;

/// What a part stands in.
#[derive(Clone, Copy, PartialEq, Eq, Drop)]
pub(crate) enum Place {
    Array,
    Range,
    Row,
}

/// The quotes that a character stands in. Of more than 64 around one another, the outermost are told as those of no array.
#[derive(Clone, Copy, Drop)]
pub(crate) struct Around {
    /// How many they are.
    depth: u32,
    /// Which of them are those of an item of an array: a bit each, of the innermost the lowest.
    arrays: u64,
}

impl Around {
    /// No quotes.
    pub(crate) const NOTHING: Around = Around {
        depth: 0,
        arrays: 0,
    };

    /// And those of a part that stands in these.
    pub(crate) fn and(self, place: Place) -> Around {
        let bit = if place == Place::Array { 1 } else { 0 };
        Around {
            depth: self.depth.saturating_add(1),
            arrays: self.arrays.wrapping_mul(2) | bit,
        }
    }
}

/// A character inside of so many quotes. A quote and a backslash stand behind a backslash in an array, and twice elsewhere.
fn put_within<W: fmt::Write>(
    depth: u32,
    arrays: u64,
    c: char,
    f: &mut fmt::Formatter<W>,
) -> fmt::Result {
    if depth == 0 {
        return f.write_char(c);
    }
    if c == '"' || c == '\\' {
        put_within(
            depth - 1,
            arrays / 2,
            if arrays % 2 == 1 { '\\' } else { c },
            f,
        )?;
    }
    put_within(depth - 1, arrays / 2, c, f)
}

/// A character inside of quotes.
pub(crate) fn put<W: fmt::Write>(
    around: Around,
    c: char,
    f: &mut fmt::Formatter<W>,
) -> fmt::Result {
    put_within(around.depth, around.arrays, c, f)
}

/// A text inside of quotes.
pub(crate) fn put_text<W: fmt::Write>(
    around: Around,
    text: &str,
    f: &mut fmt::Formatter<W>,
) -> fmt::Result {
    for c in text.chars() {
        put(around, c, f)?;
    }
    Ok(())
}

/// Bytes in hexadecimal, behind a backslash and an x.
pub(crate) fn put_bytes<W: fmt::Write>(
    around: Around,
    bytes: &[u8],
    f: &mut fmt::Formatter<W>,
) -> fmt::Result {
    put(around, '\\', f)?;
    f.write_char('x')?;
    for byte in bytes {
        write!(f, "{byte:02x}")?;
    }
    Ok(())
}

/// A uuid, in groups of 8, 4, 4, 4 and 12 digits.
pub(crate) fn put_uuid<W: fmt::Write>(bytes: &[u8], f: &mut fmt::Formatter<W>) -> fmt::Result {
    for (place, byte) in bytes.iter().enumerate() {
        if matches!(place, 4 | 6 | 8 | 10) {
            f.write_char('-')?;
        }
        write!(f, "{byte:02x}")?;
    }
    Ok(())
}
