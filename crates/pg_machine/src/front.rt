//! The frame or message in front of some bytes.

ghost use Rattle.pg_machine.specs.Fronts.{FrontIs};

use pg_wire::Header;

/// What stands in front of some bytes.
#[derive(Clone, Copy, Debug, PartialEq, Eq, Drop)]
pub enum Found {
    /// A whole frame or message of so many bytes.
    Whole(usize),
    /// Too few bytes for it, or for its header.
    Short,
    /// A header whose length is below 4.
    Bad,
}

/// Looks at the header in front, and at nothing behind it.
pub fn front(s: &[u8]) -> Found
    ensures { FrontIs s.now result }
{
    let header = match Header::parse(s) {
        Ok(Some(header)) => header,
        Ok(None) => return Found::Short,
        Err(_) => return Found::Bad,
    };
    let n = header.len() as usize + 1;
    if s.len() < n {
        Found::Short
    } else {
        Found::Whole(n)
    }
}
