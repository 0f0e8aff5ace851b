//! Oids and formats, one behind another, and the count in front of them.

ghost use Rattle.std.specs.Prelude.{◌≡◌, ◌+◌, ◌*◌, ◌≤◌, ◌++◌, length, flat_map};
ghost use Rattle.std.specs.Int.{w16, to_be_bytes};
ghost use Rattle.pg_wire.specs.Items.{oid_bytes, format_bytes};

use bytes::BytesMut;

/// The largest number that a field of 16 bits holds.
pub(crate) const MAX_COUNT: usize = 65_535;

/// Appends a number of 16 bits, for which there is room.
pub(crate) fn put_u16(n: u16, out: &mut BytesMut)
    requires { 2 ≤ out.old.spare }
    ensures items { out.new.items ≡ out.old.items ++ to_be_bytes w16 n }
    ensures spare { out.new.spare + 2 ≡ out.old.spare }
{
    out.extend_reserved(&n.to_be_bytes());
}

/// Appends the oids, for which there is room.
pub(crate) fn put_oids(oids: &[u32], out: &mut BytesMut)
    requires { 4 * length oids.now ≤ out.old.spare }
    ensures items { out.new.items ≡ out.old.items ++ oid_bytes oids.now }
    ensures spare { out.new.spare + 4 * length oids.now ≡ out.old.spare }
{
    for oid in oids {
        out.extend_reserved(&oid.to_be_bytes());
    }
}

/// Appends the formats, for which there is room.
pub(crate) fn put_formats(formats: &[i16], out: &mut BytesMut)
    requires { 2 * length formats.now ≤ out.old.spare }
    ensures items { out.new.items ≡ out.old.items ++ format_bytes formats.now }
    ensures spare { out.new.spare + 2 * length formats.now ≡ out.old.spare }
{
    for format in formats {
        out.extend_reserved(&format.to_be_bytes());
    }
}
