//! The server's first message (RFC 5802, section 7).

ghost use Rattle.std.specs.Prelude.{◌≡◌, ◌≤◌, ◌&&◌, true, IfOk, length, nat_lt};
ghost use Rattle.std.specs.Char.{is_ascii_digit};
ghost use Rattle.std.specs.List.{list_all};
ghost use Rattle.std.specs.Str.{all_ascii_digits};
ghost use Rattle.pg_spec.specs.Passwords as spec;
ghost use Rattle.pg_scram.specs.Challenge.{ReadsForm, ReadsAs};

use crate::encoded::from_base64;
use crate::fields::{three_fields, value_of};
use pg_errors::ScramFault;
use std::alloc::Global;
use std::str;

/// What the server asks.
#[derive(Drop)]
pub(crate) struct Challenge<'a> {
    /// The client's nonce and the server's.
    pub(crate) nonce: &'a [u8],
    pub(crate) salt: Vec<u8>,
    pub(crate) iterations: u32,
}

/// The three values of a message that has the form.
struct Form<'a> {
    nonce: &'a [u8],
    salt: &'a [u8],
    digits: &'a [u8],
}

/// Reads the server's first message. The checks come in this order: the form, the nonce, the salt, the
/// count.
pub(crate) fn read<'a>(
    alloc: Global,
    client_nonce: &[u8],
    message: &'a [u8],
) -> Result<Challenge<'a>, ScramFault>
    ensures read { ReadsAs result (spec.server_first_of client_nonce.now message.now) }
    ensures at_least_one { IfOk result (λ challenge. 1 ≤ challenge.iterations) }
{
    let Some(
        Form {
            nonce,
            salt,
            digits,
        },
    ) = form_of(message)
    else {
        return Err(ScramFault::BadMessage);
    };
    judge(alloc, client_nonce, nonce, salt, digits)
}

/// `r=` nonce `,s=` text `,i=` digits
fn form_of(message: &[u8]) -> Option<Form<'_>>
    ensures { ReadsForm message.now result }
{
    let (nonce, salt, digits) = three_fields(message)?;
    let nonce = value_of(nonce, b"r=")?;
    let salt = value_of(salt, b"s=")?;
    let digits = value_of(digits, b"i=")?;
    if is_printable(nonce) && is_number(digits) {
        Some(Form {
            nonce,
            salt,
            digits,
        })
    } else {
        None
    }
}

/// Printable ASCII without a comma.
fn is_printable(nonce: &[u8]) -> bool
    ensures { result ≡ list_all spec.is_nonce_byte nonce.now }
{
    nonce
        .iter()
        .all(|byte| 0x21 <= *byte && *byte <= 0x7e && !(*byte == b','))
}

/// Decimal digits, one at least.
fn is_number(text: &[u8]) -> bool
    ensures { result ≡ (list_all is_ascii_digit text.now && nat_lt 0 (length text.now)) }
{
    are_digits(text) && 0 < text.len()
}

fn are_digits(text: &[u8]) -> bool
    ensures { result ≡ list_all is_ascii_digit text.now }
{
    text.iter().all(|byte| byte.is_ascii_digit())
}

/// The checks behind the form.
fn judge<'a>(
    alloc: Global,
    client_nonce: &[u8],
    nonce: &'a [u8],
    salt: &[u8],
    digits: &[u8],
) -> Result<Challenge<'a>, ScramFault>
    requires { all_ascii_digits digits.now ≡ true }
    ensures read { ReadsAs result (spec.judged client_nonce.now nonce.now salt.now digits.now) }
    ensures at_least_one { IfOk result (λ challenge. 1 ≤ challenge.iterations) }
{
    if !nonce.starts_with(client_nonce) {
        return Err(ScramFault::BadNonce);
    }
    let Some(salt) = from_base64(alloc, salt)? else {
        return Err(ScramFault::BadSalt);
    };
    let Some(iterations) = iterations(digits) else {
        return Err(ScramFault::BadIterations);
    };
    Ok(Challenge {
        nonce,
        salt,
        iterations,
    })
}

/// An iteration count: a number of 32 bits of at least 1.
fn iterations(digits: &[u8]) -> Option<u32>
    requires { all_ascii_digits digits.now ≡ true }
    ensures { result ≡ spec.iterations_of digits.now }
{
    let Ok(digits) = str::from_utf8(digits) else {
        return None;
    };
    match digits.parse::<u32>() {
        Ok(count) if 1 <= count => Some(count),
        _ => None,
    }
}
