//! The reply to a request for an MD5 password.

ghost use Rattle.std.specs.Prelude.{◌≡◌, ◌++◌, IfOk, IfErr};
ghost use Rattle.pg_types.specs.declared.cause.ScramFault.TheVariants.{OutOfMemory};
ghost use Rattle.md5.specs.Md5 as digest;
ghost use Rattle.pg_spec.specs.Passwords.{md5_reply};

use md5::{Digest, Md5};
use pg_errors::ScramFault;
use pg_types::Text;
use std::alloc::Global;

/// The password message that answers AuthenticationMD5Password: `md5` and hex digits in lower case
/// (PostgreSQL documentation, "Message Flow"). Only want of memory is refused.
pub fn md5_hash(
    alloc: Global,
    user: &[u8],
    password: &[u8],
    salt: [u8; 4],
) -> Result<Text, ScramFault>
    ensures ok { IfOk result (λ text. text ≡ md5_reply user.now password.now salt) }
    ensures err { IfErr result (λ fault. fault ≡ OutOfMemory) }
{
    let credentials = hex::encode(alloc, md5_of(password, user))?;
    let salted = hex::encode(alloc, md5_of(credentials.as_bytes(), &salt))?;
    Ok(Text::new(format!(in alloc; "md5{salted}")?))
}

/// The digest of two pieces taken as one message.
fn md5_of(front: &[u8], back: &[u8]) -> [u8; 16]
    ensures { result ≡ digest.md5 (front.now ++ back.now) }
{
    let mut hasher = Md5::new();
    hasher.update(front);
    hasher.update(back);
    hasher.finalize()
}
