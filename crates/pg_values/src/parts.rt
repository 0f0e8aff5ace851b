//! The front of some bytes: numbers and parts.

ghost use Rattle.std.specs.Prelude.{◌≡◌, ◌++◌, ◌<◌, ◌^◌, FitsSigned, List, ℕ, Option, option_map, length, MatchOption};
ghost use Rattle.std.specs.Int.{w16, w32, to_be_bytes};
ghost use Rattle.pg_values.specs.Numbers.{i16_bytes, i32_bytes};
ghost use Rattle.pg_values.specs.Parts.{IsPart};

/// An unsigned number of four bytes, and what is behind it. None: there are fewer bytes.
pub(crate) fn word(bytes: &[u8]) -> Option<(u32, &[u8])>
    ensures { MatchOption result (length bytes.now < 4)
        (λ found. (found.0 < 2 ^ 32) × (bytes.now ≡ to_be_bytes w32 found.0 ++ found.1.now)) }
{
    let [a, b, c, d, rest @ ..] = bytes else {
        return None;
    };
    Some((u32::from_be_bytes([*a, *b, *c, *d]), rest))
}

/// What is behind this number of four bytes. None: it doesn't stand in front.
pub(crate) fn behind(number: u32, bytes: &[u8]) -> Option<&[u8]>
    ensures { MatchOption result
        ((rest : List ℕ) → bytes.now ≡ to_be_bytes w32 number ++ rest → ⊥)
        (λ rest. bytes.now ≡ to_be_bytes w32 number ++ rest.now) }
{
    match word(bytes) {
        Some((n, rest)) if n == number => Some(rest),
        _ => None,
    }
}

/// An unsigned number of two bytes, and what is behind it. None: there are fewer bytes.
pub(crate) fn half(bytes: &[u8]) -> Option<(u16, &[u8])>
    ensures { MatchOption result (length bytes.now < 2)
        (λ found. (found.0 < 2 ^ 16) × (bytes.now ≡ to_be_bytes w16 found.0 ++ found.1.now)) }
{
    let [a, b, rest @ ..] = bytes else {
        return None;
    };
    Some((u16::from_be_bytes([*a, *b]), rest))
}

/// A signed number of two bytes, and what is behind it. None: there are fewer bytes.
pub(crate) fn short(bytes: &[u8]) -> Option<(i16, &[u8])>
    ensures { MatchOption result (length bytes.now < 2)
        (λ found. FitsSigned w16 found.0 × (bytes.now ≡ i16_bytes found.0 ++ found.1.now)) }
{
    let [a, b, rest @ ..] = bytes else {
        return None;
    };
    Some((i16::from_be_bytes([*a, *b]), rest))
}

/// A signed number of four bytes, and what is behind it. None: there are fewer bytes.
pub(crate) fn int(bytes: &[u8]) -> Option<(i32, &[u8])>
    ensures { MatchOption result (length bytes.now < 4)
        (λ found. bytes.now ≡ i32_bytes found.0 ++ found.1.now) }
{
    let [a, b, c, d, rest @ ..] = bytes else {
        return None;
    };
    Some((i32::from_be_bytes([*a, *b, *c, *d]), rest))
}

/// The length field of null.
pub(crate) const NULL: u32 = 4_294_967_295;

/// A part of some bytes.
#[derive(Clone, Copy, Drop)]
pub(crate) struct Part<'a> {
    /// None: it is null.
    pub raw: Option<&'a [u8]>,
    /// What is behind it.
    pub rest: &'a [u8],
}

/// The part in front, which is null only where a null may stand. None: there is none.
pub(crate) fn cut(bytes: &[u8], nullable: bool) -> Option<Part>
    ensures { MatchOption result
        ((part : Option (List ℕ)) (rest : List ℕ) → IsPart nullable part bytes.now rest → ⊥)
        (λ found. IsPart nullable (option_map (λ r. r.now) found.raw) bytes.now found.rest.now) }
{
    let (len, rest) = word(bytes)?;
    if len == NULL {
        return if nullable {
            Some(Part { raw: None, rest })
        } else {
            None
        };
    }
    if len >= 2_147_483_648 || rest.len() < len as usize {
        return None;
    }
    let (part, rest) = rest.split_at(len as usize);
    Some(Part {
        raw: Some(part),
        rest,
    })
}
