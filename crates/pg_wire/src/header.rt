//! The header of a message of the server.

ghost use Rattle.std.specs.Prelude.{◌≡◌, ◌<◌, ◌↔◌, Ok, Err, length, IfOk, IfSome, IfErr};
ghost use Rattle.pg_wire.specs.Header.{StandsAtFront, HasBadLength, tag_of, len_of};

use pg_types::WireFault;

/// A tag, and the length behind it (PostgreSQL documentation, "Message Formats").
#[derive(Clone, Copy, Debug, PartialEq, Eq, Drop)]
pub struct Header {
    tag: u8,
    len: i32,
}

impl Header {
    /// Reads the header at the front of `buf`, or gives `None` where more bytes have to come. BadLength
    /// comes exactly where the length is below 4, and no other fault.
    pub fn parse(buf: &[u8]) -> Result<Option<Header>, WireFault>
        ensures incomplete { (result ≡ Ok None) ↔ (length buf.now < 5) }
        ensures header { IfOk result (λ found. IfSome found (StandsAtFront buf.now)) }
        ensures bad_length { (result ≡ Err WireFault.BadLength) ↔ HasBadLength buf.now }
        ensures only { IfErr result (λ fault. fault ≡ WireFault.BadLength) }
    {
        let [tag, a, b, c, d, ..] = *buf else {
            return Ok(None);
        };
        let len = i32::from_be_bytes([a, b, c, d]);
        if len < 4 {
            return Err(WireFault::BadLength);
        }
        Ok(Some(Header { tag, len }))
    }

    /// The byte that tells the kind of message.
    pub fn tag(&self) -> u8
        ensures { result ≡ tag_of self.now }
    {
        self.tag
    }

    /// In bytes, with the four of the length itself and without the tag.
    pub fn len(&self) -> i32
        ensures { result ≡ len_of self.now }
    {
        self.len
    }
}
