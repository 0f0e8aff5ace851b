//! How far a write goes: to the end of the frame in front.

ghost use Rattle.std.specs.Prelude.{◌≡◌, ◌≤◌, ◌++◌, length};
ghost use Rattle.pg_server.specs.Reaches.{IsFrontLen, frame_reach};

use crate::copies::copy_more;
use pg_wire::Header;

/// How many bytes a header has.
const HEADER: usize = 5;

/// How long the frame in front is, by its header, some of whose bytes may be left from before.
fn front_len(left: &[u8], bytes: &[u8]) -> Option<usize>
    ensures { IsFrontLen (left.now ++ bytes.now) result }
{
    let mut head = [0u8; HEADER];
    let n = copy_more(left, 0, &mut head);
    let n = copy_more(bytes, n, &mut head);
    match Header::parse(&head[..n]) {
        Ok(Some(header)) => Some(header.len() as usize + 1),
        Ok(None) => None,
        Err(_) => None,
    }
}

/// How many of these bytes, behind those that are left, stand up to the end of the frame in front; all where none is whole
/// by them.
pub(crate) fn reach(left: &[u8], bytes: &[u8]) -> usize
    ensures reach { result ≡ frame_reach left.now bytes.now }
    ensures fits { result ≤ length bytes.now }
{
    match front_len(left, bytes) {
        Some(len) => len.saturating_sub(left.len()).min(bytes.len()),
        None => bytes.len(),
    }
}
