//! Which mechanisms of SASL the server offers.

ghost use Rattle.std.specs.Prelude.{◌≡◌, ◌||◌, false};
ghost use Rattle.std.specs.Str.{bytes_eq};
ghost use Rattle.pg_spec.specs.Bodies.{mechanisms_of};
ghost use Rattle.pg_startup.specs.Steps.{ReadsOffer, offered_behind};

use pg_wire::{AuthenticationSaslBody, WireFault};

/// The mechanism that binds the channel.
pub(crate) const PLUS: &str = "SCRAM-SHA-256-PLUS";

/// The one that binds none.
pub(crate) const PLAIN: &str = "SCRAM-SHA-256";

/// Whether the first and the second are offered.
pub(crate) fn offered(body: &AuthenticationSaslBody) -> Result<(bool, bool), WireFault>
    ensures { ReadsOffer (offered_behind false false (mechanisms_of body.now.mechanisms)) result }
{
    let mut names = body.mechanisms();
    let mut plus = false;
    let mut plain = false;
    'names: loop {
        match names.next() {
            Ok(Some(name)) => {
                plus = is_or(plus, name, PLUS);
                plain = is_or(plain, name, PLAIN);
            }
            Ok(None) => return Ok((plus, plain)),
            Err(fault) => return Err(fault),
        }
    }
}

/// It was offered before, or this name is it.
fn is_or(before: bool, name: &str, mechanism: &str) -> bool
    ensures { result ≡ (before || bytes_eq name.now mechanism.now) }
{
    before || name == mechanism
}
