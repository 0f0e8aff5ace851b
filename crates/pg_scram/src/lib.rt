//! Proofs of a password: HMAC, the SCRAM-SHA-256 dialogue and the MD5 reply. It does no IO.
#![tactic(auto)]

mod authentication;
mod binding;
mod challenge;
mod encoded;
mod fields;
mod laws;
mod mac;
mod messages;
mod proof;
mod salted;
mod sasl;
mod verdict;

pub use authentication::md5_hash;
pub use binding::ChannelBinding;
pub use laws::{base64_is_read_back, challenge_is_spelled, verdict_is_spelled};
pub use mac::hmac;
pub use pg_errors::ScramFault;
pub use proof::{client_proof, server_signature};
pub use salted::hi;
pub use sasl::{ScramSha256, ScramSha256Final};
