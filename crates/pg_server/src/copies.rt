//! Bytes that are copied to the front of others.

ghost use Rattle.std.specs.Prelude.{◌≤◌, length};
ghost use Rattle.pg_server.specs.Copies.{Lengthens};

/// Copies a piece behind the first `n` bytes, as much as fits. How many bytes stand there then.
pub(crate) fn copy_more(piece: &[u8], n: usize, out: &mut [u8]) -> usize
    requires { n ≤ length out.old }
    ensures fits { result ≤ length out.new }
    ensures copied { Lengthens piece.now out.old n out.new result }
{
    let count = piece.len().min(out.len() - n);
    out[n..n + count].copy_from_slice(&piece[..count]);
    n + count
}
