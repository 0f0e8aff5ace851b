//! What client and server prove to each other (RFC 5802, section 3).

ghost use Rattle.std.specs.Prelude.{◌≡◌};
ghost use Rattle.pg_spec.specs.Passwords as spec;

use crate::mac::{hmac, xor};
use sha2::{Digest, Sha256};

/// ClientProof for a salted password and the AuthMessage (RFC 5802, section 3).
pub fn client_proof(salted: &[u8; 32], auth_message: &[u8]) -> [u8; 32]
    ensures { result ≡ spec.client_proof salted.now auth_message.now }
{
    let client_key = hmac(salted, b"Client Key");
    let stored_key = Sha256::digest(client_key);
    let client_signature = hmac(&stored_key, auth_message);
    xor(&client_key, &client_signature)
}

/// ServerSignature for a salted password and the AuthMessage (RFC 5802, section 3).
pub fn server_signature(salted: &[u8; 32], auth_message: &[u8]) -> [u8; 32]
    ensures { result ≡ spec.server_signature salted.now auth_message.now }
{
    let server_key = hmac(salted, b"Server Key");
    hmac(&server_key, auth_message)
}
