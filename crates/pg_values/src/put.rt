//! The end of what was written: bytes, and the length of a part.

ghost use Rattle.std.specs.Prelude.{◌≡◌, ◌++◌, ◌<◌, ◌≤◌, ◌+◌, ◌-◌, ◌^◌, length, take, drop, MatchResult};
ghost use Rattle.std.specs.Int.{w32, to_be_bytes};
ghost use Rattle.pg_types.specs.declared.fault.ValueFault.TheVariants as fault;
ghost use Rattle.pg_values.specs.Writing.{Puts};

use bytes::BytesMut;
use pg_types::ValueFault;

/// Appends bytes.
pub(crate) fn put(bytes: &[u8], out: &mut BytesMut) -> Result<(), ValueFault>
    ensures { Puts bytes.now out.old.items out.new.items result }
{
    out.extend_from_slice(bytes)?;
    Ok(())
}

/// Sets the four bytes at a place to a number.
fn set_word(at: usize, number: u32, out: &mut BytesMut)
    requires { at + 4 ≤ length out.old.items }
    ensures { out.new.items ≡ take at out.old.items ++ to_be_bytes w32 number ++ drop (at + 4) out.old.items }
{
    out.as_mut_slice()[at..at + 4].copy_from_slice(&number.to_be_bytes());
}

/// Sets the length of the part whose length field stands at a place, and whose bytes are all behind it. BadValue: it is longer than
/// a length field may say.
pub(crate) fn set_len(at: usize, out: &mut BytesMut) -> Result<(), ValueFault>
    requires { at + 4 ≤ length out.old.items }
    ensures { MatchResult result
        (λ _. (length out.old.items - (at + 4) < 2 ^ 31) × (out.new.items
        ≡ take at out.old.items ++ to_be_bytes w32 (length out.old.items - (at + 4)) ++ drop (at + 4) out.old.items))
        (λ f. (f ≡ fault.BadValue) × (2 ^ 31 ≤ length out.old.items - (at + 4)) × (out.new.items ≡ out.old.items)) }
{
    let len = out.len() - (at + 4);
    if len >= 2_147_483_648 {
        return Err(ValueFault::BadValue);
    }
    set_word(at, len as u32, out);
    Ok(())
}
