//! Bytes as a byte text of Rust has them.

use std::alloc::AllocError;

/// One byte.
fn tell_byte(byte: u8, out: &mut String) -> Result<(), AllocError> {
    match byte {
        0 => out.push_str("\\0"),
        b'\n' => out.push_str("\\n"),
        b'"' => out.push_str("\\\""),
        b'\\' => out.push_str("\\\\"),
        b' '..=b'~' => out.push(char::from(byte)),
        _ => write!(out, "\\x{byte:02x}"),
    }
}

/// A blank, and the bytes in quotes.
pub fn tell(bytes: &[u8], out: &mut String) -> Result<(), AllocError> {
    out.push_str(" \"")?;
    for &byte in bytes {
        tell_byte(byte, out)?;
    }
    out.push_str("\"")
}
