//! What a connection can be opened with: settings that name a user, and a nonce in form.

ghost use Rattle.std.specs.Prelude.{◌≡◌};
ghost use Rattle.std.specs.List.{list_all};
ghost use Rattle.pg_config.specs.Views.{settings_of};
ghost use Rattle.pg_spec.specs.Passwords.{is_nonce, is_nonce_byte};
ghost use Rattle.pg_open.specs.Opening.{MayStart};

use pg_config::Config;
use pg_errors::Cause;

/// The length of a nonce, in bytes.
const NONCE_LENGTH: usize = 24;

/// Whether a startup may begin. NoUser comes exactly where no user is set, else Nonce exactly where the nonce isn't in form.
pub(crate) fn may_start(settings: &Config, nonce: &[u8]) -> Result<(), Cause>
    ensures { MayStart (settings_of settings.now) nonce.now result }
{
    if settings.get_user().is_none() {
        return Err(Cause::NoUser);
    }
    if !is_in_form(nonce) {
        return Err(Cause::Nonce);
    }
    Ok(())
}

/// The nonce has 24 bytes from 0x21 to 0x7e, none of them a comma.
fn is_in_form(nonce: &[u8]) -> bool
    ensures { result ≡ is_nonce nonce.now }
{
    if nonce.len() != NONCE_LENGTH {
        return false;
    }
    are_nonce_bytes(nonce)
}

/// Each byte may stand in a nonce (RFC 5802, section 7: printable, without a comma).
fn are_nonce_bytes(nonce: &[u8]) -> bool
    ensures { result ≡ list_all is_nonce_byte nonce.now }
{
    nonce.iter().all(|byte| may_stand(*byte))
}

fn may_stand(byte: u8) -> bool
    ensures { result ≡ is_nonce_byte byte }
{
    byte >= 0x21 && byte <= 0x7e && byte != b','
}
