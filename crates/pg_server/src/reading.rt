//! Parts of a frame's body, taken off the front: a part and what stands behind it, or None where bytes run out.

ghost use Rattle.std.specs.Prelude.{◌≡◌, FitsSigned, IfSome};
ghost use Rattle.std.specs.Int.{w16, w32};
ghost use Rattle.pg_spec.specs.Bytes.{text0_at, number_at, signed_at, bytes_at};
ghost use Rattle.pg_spec.specs.ClientFrames.{value_at};
ghost use Rattle.pg_server.specs.Readings.{both, behind, valued};

/// A text, without the zero byte that ends it.
pub(crate) fn text0(bytes: &[u8]) -> Option<(&[u8], &[u8])>
    ensures { both result ≡ text0_at bytes.now }
{
    for (i, b) in bytes.iter().enumerate() {
        if *b == 0 {
            return Some((&bytes[..i], &bytes[i + 1..]));
        }
    }
    None
}

/// So many bytes as they are.
pub(crate) fn raw(n: usize, bytes: &[u8]) -> Option<(&[u8], &[u8])>
    ensures { both result ≡ bytes_at n bytes.now }
{
    if bytes.len() < n {
        return None;
    }
    Some((&bytes[..n], &bytes[n..]))
}

/// A number of two bytes.
pub(crate) fn number16(bytes: &[u8]) -> Option<(u16, &[u8])>
    ensures { behind result ≡ number_at w16 bytes.now }
{
    let [a, b, ..] = *bytes else {
        return None;
    };
    Some((u16::from_be_bytes([a, b]), &bytes[2..]))
}

/// A signed number of two bytes.
pub(crate) fn signed16(bytes: &[u8]) -> Option<(i16, &[u8])>
    ensures read { behind result ≡ signed_at w16 bytes.now }
    ensures fits { IfSome result (λ p. FitsSigned w16 p.0) }
{
    let [a, b, ..] = *bytes else {
        return None;
    };
    Some((i16::from_be_bytes([a, b]), &bytes[2..]))
}

/// A number of four bytes.
pub(crate) fn number32(bytes: &[u8]) -> Option<(u32, &[u8])>
    ensures { behind result ≡ number_at w32 bytes.now }
{
    let [a, b, c, d, ..] = *bytes else {
        return None;
    };
    Some((u32::from_be_bytes([a, b, c, d]), &bytes[4..]))
}

/// A signed number of four bytes.
pub(crate) fn signed32(bytes: &[u8]) -> Option<(i32, &[u8])>
    ensures { behind result ≡ signed_at w32 bytes.now }
{
    let [a, b, c, d, ..] = *bytes else {
        return None;
    };
    Some((i32::from_be_bytes([a, b, c, d]), &bytes[4..]))
}

/// A value: a length and so many bytes, or the length -1 for null. None also at another length below 0.
pub(crate) fn value(bytes: &[u8]) -> Option<(Option<&[u8]>, &[u8])>
    ensures { valued result ≡ value_at bytes.now }
{
    let (n, rest) = number32(bytes)?;
    if n == u32::MAX {
        return Some((None, rest));
    }
    if n >= 1 << 31 {
        return None;
    }
    let (value, rest) = raw(n as usize, rest)?;
    Some((Some(value), rest))
}
