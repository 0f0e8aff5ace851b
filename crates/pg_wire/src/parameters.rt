//! The types of a ParameterDescription (PostgreSQL documentation, "Message Formats", under
//! ParameterDescription).

ghost use Rattle.std.specs.Prelude.{◌≡◌, ◌<◌, Ok, IfOk, IfSome, MatchResult};
ghost use Rattle.pg_wire.specs.Steps.{Steps, Refuses, oid_at, parameter_step};

use crate::body::ParameterDescriptionBody;
use bytes::Buf;
use pg_types::WireFault;
use std::marker::Model;

/// The types not yet read.
#[derive(Drop)]
pub struct Parameters<'a> {
    count: u16,
    bytes: &'a [u8],
}

impl<'a> Model for Parameters<'a> {
    ghost use Rattle.pg_wire.specs.Steps.{ItemsLeft};

    ghost Value = { ItemsLeft };

    ghost view = { λ p. record { count = p.count; bytes = p.bytes.now } };
}

impl ParameterDescriptionBody {
    /// Reads the types one after another.
    pub fn parameters(&self) -> Parameters<'_>
        ensures { result ≡ record { count = self.now.count; bytes = self.now.oids } }
    {
        Parameters {
            count: self.count,
            bytes: self.oids.as_slice(),
        }
    }
}

impl<'a> Parameters<'a> {
    /// The oid of the next parameter's type, or None behind the last. Layout comes where bytes run out,
    /// and where bytes are left behind the last type; what is left is then as before.
    pub fn next(&mut self) -> Result<Option<u32>, WireFault>
        ensures step { Steps (parameter_step self.old) self.old self.new result }
        ensures fewer { IfOk result (λ oid. IfSome oid (λ _. self.new.count < self.old.count)) }
    {
        if self.count == 0 {
            if self.bytes.is_empty() {
                return Ok(None);
            }
            return Err(WireFault::Layout);
        }
        match read_oid(self.bytes) {
            Ok((oid, rest)) => {
                self.count -= 1;
                self.bytes = rest;
                Ok(Some(oid))
            }
            Err(fault) => Err(fault),
        }
    }
}

/// Reads an oid off the front.
fn read_oid(bytes: &[u8]) -> Result<(u32, &[u8]), WireFault>
    ensures { MatchResult result (λ read. oid_at bytes.now ≡ Ok (read.0, read.1.now)) (λ fault. Refuses (oid_at bytes.now) fault) }
{
    let mut rest = bytes;
    match rest.try_get_u32() {
        Ok(oid) => Ok((oid, rest)),
        Err(_) => Err(WireFault::Layout),
    }
}
