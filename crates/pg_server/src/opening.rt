//! The frame in front of some bytes before the tagged ones (PostgreSQL documentation, "Message Flow", "Start-up").
//! A frame is refused as soon as its length, or its code or version, is there: nothing is waited for that would be
//! refused anyway.

ghost use Rattle.std.specs.Prelude.{◌≡◌, option_map};
ghost use Rattle.pg_spec.specs.ClientFrames.{pair_at};
ghost use Rattle.pg_server.specs.Openings.{OpensAs, is_parameters, starting, opening_by, opening_in_front};

use crate::fault::ServerFault;
use crate::reading::{number32, raw, text0};
use pg_types::WireFault;

/// The code of SSLRequest.
const SSL: u32 = 80_877_103;
/// The code of CancelRequest.
const CANCEL: u32 = 80_877_102;
/// Version 3.0 of the protocol.
const VERSION: u32 = 196_608;

/// What stands in front, and the bytes behind it.
#[derive(Clone, Copy, Debug, Drop)]
pub(crate) enum Opening<'a> {
    /// Too few bytes to tell.
    Short,
    Ssl(&'a [u8]),
    Starts(&'a [u8]),
    Breaks(ServerFault),
}

/// A name that isn't empty and its value, and what stands behind them.
fn pair(bytes: &[u8]) -> Option<&[u8]>
    ensures { option_map (λ rest. rest.now) result ≡ option_map (λ p. p.1) (pair_at bytes.now) }
{
    let (name, rest) = text0(bytes)?;
    if name.is_empty() {
        return None;
    }
    let (_, rest) = text0(rest)?;
    Some(rest)
}

/// Names and values, and one zero byte behind them.
fn is_parameters(bytes: &[u8]) -> bool
    ensures { result ≡ is_parameters bytes.now }
{
    let mut rest = bytes;
    while let Some(behind) = pair(rest) {
        rest = behind;
    }
    matches!(rest, [0])
}

/// The startup frame of version 3.0 whose length is `n`.
fn starts(n: u32, body: &[u8]) -> Opening<'_>
    ensures { OpensAs (starting n body.now) result }
{
    let Some((parameters, rest)) = raw(n.saturating_sub(8) as usize, body) else {
        return Opening::Short;
    };
    if is_parameters(parameters) {
        Opening::Starts(rest)
    } else {
        Opening::Breaks(ServerFault::BadFrame(WireFault::Layout))
    }
}

/// The frame whose length is `n`, by its code.
fn by_code(n: u32, code: u32, body: &[u8]) -> Opening<'_>
    ensures { OpensAs (opening_by n code body.now) result }
{
    match code {
        SSL if n == 8 => Opening::Ssl(body),
        CANCEL if n == 16 && body.len() < 8 => Opening::Short,
        CANCEL if n == 16 => Opening::Breaks(ServerFault::Cancel),
        SSL | CANCEL => Opening::Breaks(ServerFault::BadFrame(WireFault::BadLength)),
        VERSION => starts(n, body),
        _ => Opening::Breaks(ServerFault::Version(code)),
    }
}

/// What stands in front.
pub(crate) fn in_front(bytes: &[u8]) -> Opening<'_>
    ensures { OpensAs (opening_in_front bytes.now) result }
{
    let Some((n, rest)) = number32(bytes) else {
        return Opening::Short;
    };
    if n < 8 || n >= 1 << 31 {
        return Opening::Breaks(ServerFault::BadFrame(WireFault::BadLength));
    }
    match number32(rest) {
        Some((code, body)) => by_code(n, code, body),
        None => Opening::Short,
    }
}
