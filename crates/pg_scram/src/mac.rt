//! HMAC with SHA-256 (RFC 2104).

ghost use Rattle.std.specs.Prelude.{◌≡◌, ◌++◌, ◌-◌, ◌≤◌, length, replicate};
ghost use Rattle.pg_spec.specs.Passwords as spec;

use sha2::{Digest, Sha256};

/// Bytes of a block of SHA-256 (FIPS 180-4, section 1).
const BLOCK: usize = 64;

/// What the key is joined with for the inner hash, and for the outer one (RFC 2104, section 2).
const IPAD: u8 = 0x36;

const OPAD: u8 = 0x5c;

/// Byte by byte, exclusive or.
pub(crate) fn xor<const N: usize>(a: &[u8; N], b: &[u8; N]) -> [u8; N]
    ensures { result ≡ spec.xor_bytes a.now b.now }
{
    let mut out = [0u8; N];
    for i in 0..N {
        out[i] = a[i] ^ b[i];
    }
    out
}

/// The bytes, filled with zeros to a block.
fn filled(bytes: &[u8]) -> [u8; BLOCK]
    requires { length bytes.now ≤ BLOCK }
    ensures { result ≡ bytes.now ++ replicate (BLOCK - length bytes.now) 0 }
{
    let mut block = [0u8; BLOCK];
    block[..bytes.len()].copy_from_slice(bytes);
    block
}

/// A key of a block's length: a longer one is hashed, a shorter one filled with zeros.
fn block_key(key: &[u8]) -> [u8; BLOCK]
    ensures { result ≡ spec.hmac_key key.now }
{
    if key.len() > BLOCK {
        filled(&Sha256::digest(key))
    } else {
        filled(key)
    }
}

/// The HMAC-SHA-256 of a message under a key of any length (RFC 2104). It takes no memory.
pub fn hmac(key: &[u8], message: &[u8]) -> [u8; 32]
    ensures { result ≡ spec.hmac key.now message.now }
{
    let key = block_key(key);
    let mut inner = Sha256::new();
    inner.update(xor(&key, &[IPAD; BLOCK]));
    inner.update(message);
    let mut outer = Sha256::new();
    outer.update(xor(&key, &[OPAD; BLOCK]));
    outer.update(inner.finalize());
    outer.finalize()
}
