//! The mechanisms of an AuthenticationSASL (PostgreSQL documentation, "Message Formats", under
//! AuthenticationSASL).

ghost use Rattle.std.specs.Prelude.{◌≡◌, ◌<◌, length, Ok, Some, None, IfOk, IfErr, IfSome, MatchOption};
ghost use Rattle.pg_wire.specs.Steps.{Refuses, mechanism_step};

use crate::body::AuthenticationSaslBody;
use crate::texts::{text_end, utf8};
use pg_types::WireFault;
use std::marker::Model;

/// The mechanisms not yet read, seen as the bytes that hold them.
#[derive(Drop)]
pub struct SaslMechanisms<'a> {
    bytes: &'a [u8],
}

impl<'a> Model for SaslMechanisms<'a> {
    ghost use Rattle.std.specs.Prelude.{List, ℕ};

    ghost Value = { List ℕ };

    ghost view = { λ m. m.bytes.now };
}

impl AuthenticationSaslBody {
    /// Reads the mechanisms one after another.
    pub fn mechanisms(&self) -> SaslMechanisms<'_>
        ensures { result ≡ self.now.mechanisms }
    {
        SaslMechanisms {
            bytes: self.mechanisms.as_slice(),
        }
    }
}

impl<'a> SaslMechanisms<'a> {
    /// The name of the next mechanism, or None at the zero byte that ends them. Layout comes where bytes
    /// run out, and where bytes are left behind that zero byte, NotUtf8 where the name isn't UTF-8; what
    /// is left is then as before.
    pub fn next(&mut self) -> Result<Option<&'a str>, WireFault>
        ensures step { IfOk result (λ found. MatchOption found
            ((mechanism_step self.old ≡ Ok None) × (self.new ≡ self.old))
            (λ name. mechanism_step self.old ≡ Ok (Some (name.now, self.new)))) }
        ensures fault { IfErr result (λ fault. Refuses (mechanism_step self.old) fault × (self.new ≡ self.old)) }
        ensures shorter { IfOk result (λ found. IfSome found (λ _. length self.new < length self.old)) }
    {
        let end = match text_end(self.bytes) {
            Some(end) => end,
            None => return Err(WireFault::Layout),
        };
        if end == 0 {
            if self.bytes.len() == 1 {
                return Ok(None);
            }
            return Err(WireFault::Layout);
        }
        match utf8(&self.bytes[..end]) {
            Ok(name) => {
                self.bytes = &self.bytes[end + 1..];
                Ok(Some(name))
            }
            Err(fault) => Err(fault),
        }
    }
}
