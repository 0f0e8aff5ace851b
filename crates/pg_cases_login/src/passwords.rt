//! What passwords are hashed to.

use base64::engine::general_purpose::STANDARD;
use pg_cases::words::{at, text_at};
use pg_scram::{client_proof, hi, hmac, md5_hash, server_signature};
use std::alloc::{AllocError, Global};

/// The front of a hex text, so many digits of it.
fn tell_front(hex: &str, digits: usize, out: &mut String) -> Result<(), AllocError> {
    match hex.get(..digits) {
        Some(front) => write!(out, " {front}"),
        None => write!(out, " {hex}"),
    }
}

/// The bytes that a word of hex digits spells, none where it spells none.
fn bytes_of(alloc: Global, word: &[u8]) -> Vec<u8> {
    match hex::decode(alloc, word) {
        Ok(bytes) => bytes,
        Err(_) => Vec::new(alloc),
    }
}

fn tell_hex(
    alloc: Global,
    bytes: &[u8; 32],
    digits: usize,
    out: &mut String,
) -> Result<(), AllocError> {
    let hex = hex::encode(alloc, bytes)?;
    tell_front(hex.as_str(), digits, out)
}

/// HMAC with SHA-256 of a key and a message in hex, so many digits of it.
pub(crate) fn tell_mac(
    alloc: Global,
    words: &[Vec<u8>],
    out: &mut String,
) -> Result<(), AllocError> {
    let digits = text_at(words, 1).parse::<usize>().unwrap_or(64);
    let key = bytes_of(alloc, at(words, 2));
    let message = bytes_of(alloc, at(words, 3));
    tell_hex(alloc, &hmac(&key, &message), digits, out)
}

fn tell_base64(alloc: Global, bytes: &[u8], out: &mut String) -> Result<(), AllocError> {
    let text = STANDARD.encode(alloc, bytes)?;
    write!(out, " {text}")
}

/// ClientProof and ServerSignature under a salted password.
fn tell_salted(
    alloc: Global,
    salted: &[u8; 32],
    auth_message: &[u8],
    out: &mut String,
) -> Result<(), AllocError> {
    tell_base64(alloc, &client_proof(salted, auth_message), out)?;
    tell_base64(alloc, &server_signature(salted, auth_message), out)
}

/// ClientProof and ServerSignature of a password, a salt in hex, a count, and the AuthMessage.
pub(crate) fn tell_proof(
    alloc: Global,
    words: &[Vec<u8>],
    out: &mut String,
) -> Result<(), AllocError> {
    let salt = bytes_of(alloc, at(words, 2));
    let iterations = text_at(words, 3).parse::<u32>().unwrap_or(1).max(1);
    match hi(alloc, at(words, 1), &salt, iterations) {
        Ok(salted) => tell_salted(alloc, &salted, at(words, 4), out),
        Err(_) => Err(AllocError),
    }
}

/// The reply to a request for an MD5 password: the user, the password, the salt.
pub(crate) fn tell_md5(
    alloc: Global,
    words: &[Vec<u8>],
    out: &mut String,
) -> Result<(), AllocError> {
    let salt = match at(words, 3) {
        [a, b, c, d] => [*a, *b, *c, *d],
        _ => [0; 4],
    };
    match md5_hash(alloc, at(words, 1), at(words, 2), salt) {
        Ok(reply) => write!(out, " {}", reply.as_str()),
        Err(_) => Err(AllocError),
    }
}
