//! The salted password (RFC 5802, section 2.2).

ghost use Rattle.std.specs.Prelude.{◌≡◌, ◌≤◌, IfOk, IfErr};
ghost use Rattle.pg_types.specs.declared.cause.ScramFault.TheVariants.{OutOfMemory};
ghost use Rattle.pg_spec.specs.Passwords as spec;

use crate::mac::{hmac, xor};
use pg_errors::ScramFault;
use std::alloc::{AllocError, Global};

/// The number of the block that Hi makes, as four bytes.
const FIRST_BLOCK: [u8; 4] = [0, 0, 0, 1];

/// Hi (RFC 5802, section 2.2): the password, salted and hashed so many times over. Each iteration costs
/// one HMAC. Only want of memory is refused.
pub fn hi(
    alloc: Global,
    password: &[u8],
    salt: &[u8],
    iterations: u32,
) -> Result<[u8; 32], ScramFault>
    requires at_least_one { 1 ≤ iterations }
    ensures ok { IfOk result (λ salted. salted ≡ spec.hi password.now salt.now iterations) }
    ensures err { IfErr result (λ fault. fault ≡ OutOfMemory) }
{
    let mut value = first_value(alloc, password, salt)?;
    let mut joined = value;
    'values: for i in 1..iterations {
        value = hmac(password, &value);
        joined = xor(&value, &joined);
    }
    Ok(joined)
}

/// The first of the values that Hi joins.
fn first_value(alloc: Global, password: &[u8], salt: &[u8]) -> Result<[u8; 32], AllocError>
    ensures { IfOk result (λ value. value ≡ spec.hi_value password.now salt.now 0) }
{
    let mut block = Vec::from_slice(alloc, salt)?;
    block.extend_from_slice(&FIRST_BLOCK)?;
    Ok(hmac(password, &block))
}
