//! Numeric addresses (RFC 3986, section 3.2.2; RFC 4291, section 2.2).

ghost use Rattle.std.specs.Prelude.{◌≡◌, ◌≤◌, ◌+◌, ◌*◌, ◌++◌, ◌&&◌, take, drop, length, Some, None, IfOk, MatchOption, OnOk, is_none, option_map, replicate};
ghost use Rattle.pg_config.specs.Addresses.{address_of, around_gap, filled, group_of, groups_of, ipv4_of, ipv4_part, ipv6_of, of_length, piece_groups};
ghost use Rattle.pg_config.specs.Addresses as spec;
ghost use Rattle.std.specs.Str.{byte};
ghost use Rattle.pg_config.specs.Pieces.{all_of, pieces};

use crate::host::IpAddr;
use crate::number::read_numeral;
use crate::piece::cut;
use pg_types::OutOfMemory;
use std::alloc::Global;

/// An address of either kind.
pub(crate) fn read_address(alloc: Global, text: &[u8]) -> Result<Option<IpAddr>, OutOfMemory>
    ensures { IfOk result (λ read. read ≡ address_of text.now) }
{
    if let Some(parts) = read_v4(alloc, text)? {
        return Ok(Some(IpAddr::V4(parts)));
    }
    match read_v6(alloc, text)? {
        Some(groups) => Ok(Some(IpAddr::V6(groups))),
        None => Ok(None),
    }
}

/// Four parts between dots.
fn read_v4(alloc: Global, text: &[u8]) -> Result<Option<[u8; 4]>, OutOfMemory>
    ensures { IfOk result (λ read. read ≡ ipv4_of text.now) }
{
    match read_parts(alloc, text)? {
        Some(parts) => Ok(four(parts.as_slice())),
        None => Ok(None),
    }
}

fn four(parts: &[u8]) -> Option<[u8; 4]>
    ensures { result ≡ of_length 4 (Some parts.now) }
{
    match *parts {
        [a, b, c, d] => Some([a, b, c, d]),
        _ => None,
    }
}

/// The parts between dots. None: one isn't in form.
fn read_parts(alloc: Global, text: &[u8]) -> Result<Option<Vec<u8>>, OutOfMemory>
    ensures { IfOk result (λ read. option_map (λ parts. parts.items) read ≡ all_of ipv4_part (pieces (byte ".") text.now)) }
{
    let mut parts = Vec::new(alloc);
    let mut rest = Some(text);
    while let Some(text) = rest {
        let (piece, behind) = cut(text, b'.');
        let Some(part) = read_part(piece) else {
            return Ok(None);
        };
        parts.push(part)?;
        rest = behind;
    }
    Ok(Some(parts))
}

/// A part of an IPv4 address.
fn read_part(digits: &[u8]) -> Option<u8>
    ensures { result ≡ ipv4_part digits.now }
{
    if let [b'0', _, ..] = digits {
        return None;
    }
    match read_numeral(digits, 10, u8::MAX as u64) {
        Some(part) => Some(part as u8),
        None => None,
    }
}

/// Eight groups, or less with one `::`.
fn read_v6(alloc: Global, text: &[u8]) -> Result<Option<[u16; 8]>, OutOfMemory>
    ensures { IfOk result (λ read. read ≡ ipv6_of text.now) }
{
    let Some(at) = gap_in(text) else {
        return match read_groups(alloc, text, true)? {
            Some(groups) => Ok(eight(groups.as_slice())),
            None => Ok(None),
        };
    };
    let Some(left) = read_groups(alloc, &text[..at], false)? else {
        return Ok(None);
    };
    match read_groups(alloc, &text[at + 2..], true)? {
        Some(right) => fill(left, right.as_slice()),
        None => Ok(None),
    }
}

fn eight(groups: &[u16]) -> Option<[u16; 8]>
    ensures { result ≡ of_length 8 (Some groups.now) }
{
    match *groups {
        [a, b, c, d, e, f, g, h] => Some([a, b, c, d, e, f, g, h]),
        _ => None,
    }
}

/// Zeros stand for the groups that are left out, of which there is at least one.
fn fill(left: Vec<u16>, right: &[u16]) -> Result<Option<[u16; 8]>, OutOfMemory>
    ensures { IfOk result (λ read. read ≡ filled (Some left.items) (Some right.now)) }
{
    let mut groups = left;
    let said = groups.len() + right.len();
    if said >= 8 {
        return Ok(None);
    }
    push_zeros(&mut groups, 8 - said)?;
    groups.extend_from_slice(right)?;
    Ok(eight(groups.as_slice()))
}

fn push_zeros(groups: &mut Vec<u16>, count: usize) -> Result<(), OutOfMemory>
    ensures { OnOk result (groups.new.items ≡ groups.old.items ++ replicate count 0) }
{
    for _pushed in 0..count {
        groups.push(0)?;
    }
    Ok(())
}

/// Where the first `::` is.
fn gap_in(text: &[u8]) -> Option<usize>
    ensures { MatchOption result (around_gap text.now ≡ None)
        (λ at. (at + 2 ≤ length text.now) × (around_gap text.now ≡ Some (take at text.now, drop (at + 2) text.now))) }
{
    for at in 0..text.len() {
        if is_gap(&text[at..]) {
            return Some(at);
        }
    }
    None
}

/// Two colons stand in front.
fn is_gap(text: &[u8]) -> bool
    ensures { result ≡ spec.is_gap text.now }
{
    match text {
        [b':', b':', ..] => true,
        _ => false,
    }
}

/// The groups between colons. Where `tail`, an IPv4 address may stand for the last two.
fn read_groups(alloc: Global, text: &[u8], tail: bool) -> Result<Option<Vec<u16>>, OutOfMemory>
    ensures { IfOk result (λ read. option_map (λ groups. groups.items) read ≡ groups_of tail text.now) }
{
    let mut groups = Vec::new(alloc);
    if text.is_empty() {
        return Ok(Some(groups));
    }
    let mut rest = Some(text);
    while let Some(text) = rest {
        let (piece, behind) = cut(text, b':');
        let Some(more) = read_piece(alloc, piece, is_last(tail, behind))? else {
            return Ok(None);
        };
        groups.extend_from_slice(more.as_slice())?;
        rest = behind;
    }
    Ok(Some(groups))
}

/// Nothing stands behind, and an IPv4 address may stand last.
fn is_last(tail: bool, behind: Option<&[u8]>) -> bool
    ensures { result ≡ (tail && is_none (option_map (λ rest. rest.now) behind.entry)) }
{
    match behind {
        Some(_) => false,
        None => tail,
    }
}

/// The groups of a piece between colons. Where `last`, it may be an IPv4 address.
fn read_piece(alloc: Global, piece: &[u8], last: bool) -> Result<Option<Vec<u16>>, OutOfMemory>
    ensures { IfOk result (λ read. option_map (λ groups. groups.items) read ≡ piece_groups last piece.now) }
{
    match read_group(piece) {
        Some(group) => {
            let groups = [group];
            groups_from(alloc, &groups)
        }
        None if last => match read_v4(alloc, piece)? {
            Some(parts) => {
                let groups = two_groups(parts);
                groups_from(alloc, &groups)
            }
            None => Ok(None),
        },
        None => Ok(None),
    }
}

fn groups_from(alloc: Global, groups: &[u16]) -> Result<Option<Vec<u16>>, OutOfMemory>
    ensures { IfOk result (λ made. option_map (λ groups. groups.items) made ≡ Some groups.now) }
{
    Ok(Some(Vec::from_slice(alloc, groups)?))
}

/// The two groups of an IPv4 address.
fn two_groups(parts: [u8; 4]) -> [u16; 2]
    ensures { result ≡ spec.two_groups parts }
{
    let [a, b, c, d] = parts;
    [two_bytes(a, b), two_bytes(c, d)]
}

/// The group of two bytes of an IPv4 address.
fn two_bytes(high: u8, low: u8) -> u16
    ensures { result ≡ 256 * high + low }
{
    256 * u16::from(high) + u16::from(low)
}

/// A group of one to four hex digits.
fn read_group(digits: &[u8]) -> Option<u16>
    ensures { result ≡ group_of digits.now }
{
    if digits.len() > 4 {
        return None;
    }
    match read_numeral(digits, 16, u16::MAX as u64) {
        Some(group) => Some(group as u16),
        None => None,
    }
}
