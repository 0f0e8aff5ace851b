//! Pieces of a report's text.

ghost use Rattle.std.specs.Prelude.{decimal};
ghost use Rattle.hex.specs.Hex.{encode_lower};
ghost use Rattle.pg_spec.specs.ReportText.{signed, quoted, quoted_byte};
ghost use Rattle.pg_text.specs.Written.{Adds};

use itoa::Buffer;
use pg_types::OutOfMemory;
use std::alloc::Global;

/// Adds a text as it is.
pub(crate) fn put(out: &mut String, text: &str) -> Result<(), OutOfMemory>
    ensures { Adds text.now out.old out.new result }
{
    Ok(out.push_str(text)?)
}

/// Adds a number in decimal.
pub(crate) fn put_number(out: &mut String, number: u64) -> Result<(), OutOfMemory>
    ensures { Adds (decimal number) out.old out.new result }
{
    let mut digits = Buffer::new();
    put(out, digits.format(number))
}

/// Adds a number in decimal, with its sign where it is negative.
pub(crate) fn put_signed(alloc: Global, out: &mut String, number: i32) -> Result<(), OutOfMemory>
    ensures { Adds (signed number) out.old out.new result }
{
    let text = format!(in alloc; "{number}")?;
    put(out, text.as_str())
}

/// Adds an integer in decimal, with its sign where it is negative.
pub(crate) fn put_int(alloc: Global, out: &mut String, int: i64) -> Result<(), OutOfMemory>
    ensures { Adds (signed int) out.old out.new result }
{
    let text = format!(in alloc; "{int}")?;
    put(out, text.as_str())
}

/// Adds bytes in hex.
pub(crate) fn put_hex(alloc: Global, out: &mut String, bytes: &[u8]) -> Result<(), OutOfMemory>
    ensures { Adds (encode_lower bytes.now) out.old out.new result }
{
    let text = hex::encode(alloc, bytes)?;
    put(out, text.as_str())
}

/// Adds a byte as it stands inside quotes.
fn put_byte(alloc: Global, out: &mut String, byte: u8) -> Result<(), OutOfMemory>
    ensures { Adds (quoted_byte byte) out.old out.new result }
{
    match byte {
        b'"' => put(out, "\\\""),
        b'\\' => put(out, "\\\\"),
        0x20..=0x7e => Ok(out.push(byte as char)?),
        _ => {
            put(out, "\\x")?;
            put_hex(alloc, out, &[byte])
        }
    }
}

/// Adds bytes in quotes.
pub(crate) fn put_quoted(alloc: Global, out: &mut String, bytes: &[u8]) -> Result<(), OutOfMemory>
    ensures { Adds (quoted bytes.now) out.old out.new result }
{
    put(out, "\"")?;
    for byte in bytes {
        put_byte(alloc, out, *byte)?;
    }
    put(out, "\"")
}
