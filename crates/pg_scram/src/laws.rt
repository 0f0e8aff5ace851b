//! What follows from the definitions. Upstream has no such file.

ghost use Rattle.std.specs.Prelude.{◌≡◌, ◌↔◌, ◌++◌, ℕ, List, None, Some, Ok, codes};
ghost use Rattle.base64.specs.GeneralPurpose.{IsBytes};
ghost use Rattle.pg_spec.specs.Passwords as passwords;
ghost use Rattle.pg_scram.specs.Spelling.{Spells};

/// A text is read as bytes exactly where it is their base64: canonical, with its padding.
pub fn base64_is_read_back()
    ensures { (text bytes : List ℕ) → (passwords.from_base64 text ≡ Some bytes) ↔ (IsBytes bytes × (text ≡ passwords.base64 bytes)) }
{}

/// A server's first message is read exactly where it is spelled so (RFC 5802, section 7). Beyond the
/// grammar it may have no nonce of the server's own, an empty salt, and zeros in front of its count.
pub fn challenge_is_spelled()
    ensures { (client_nonce message : List ℕ) (server : passwords.ServerFirst) → (passwords.server_first_of client_nonce message ≡ Ok server) ↔ Spells client_nonce message server }
{}

/// A server's last message is accepted exactly where it is `v=` and the base64 of the signature (RFC
/// 5802, section 7).
pub fn verdict_is_spelled()
    ensures { (signature message : List ℕ) → IsBytes signature → (passwords.server_final_fault signature message ≡ None) ↔ (message ≡ codes "v=" ++ passwords.base64 signature) }
{}
