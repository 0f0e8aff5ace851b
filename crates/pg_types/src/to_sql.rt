//! Values that are written as the server's types.

ghost use Rattle.std.specs.Prelude.{◌≡◌, Bool, false};
ghost use Rattle.pg_types.specs.declared.pg_type.PgType.{PgType};
ghost use Rattle.pg_types.specs.declared.fault.RustType.{RustType};
ghost use Rattle.pg_types.specs.declared.format.Format.TheVariants.{Binary};
ghost use Rattle.pg_types.specs.Values.{Given, Writes, bytes_given, checked, type_fault};

use crate::{Format, IsNull, RustType, Type, ValueFault, WrongType};
use bytes::BytesMut;

/// A value that can be written as some of the server's types.
pub trait ToSql {
    /// What the value gives under a type: bytes, null, or a fault.
    ghost gives: { Self → PgType → Given };

    /// The value has parts: writing it may lack memory before one of them is refused.
    ghost has_parts: { Bool };

    /// The value may stand under a type.
    ghost accepted: { Self → PgType → Bool };

    /// The Rust type stands for a type, whichever the value.
    ghost stands_for: { PgType → Bool };

    /// The Rust type.
    ghost rust: { RustType };

    /// The fault of a type that the Rust type doesn't stand for, whichever the value.
    fn type_fault(ty: &Type) -> Option<WrongType>
    where
        Self: Sized,
        ensures { result ≡ type_fault (stands_for ty.now) ty.now.oid rust };

    /// Appends the value's bytes. After null and after a fault `out` is as before. BadValue comes where
    /// the value, or a part of it, has no bytes under the type, as a number out of its range.
    fn to_sql(&self, ty: &Type, out: &mut BytesMut) -> Result<IsNull, ValueFault>
        ensures { Writes has_parts (gives self.now ty.now) out.old.items out.new.items result };

    /// Whether the value may stand under a type.
    fn accepts(&self, ty: &Type) -> bool
        ensures { result ≡ accepted self.now ty.now };

    /// The form of the bytes.
    fn encode_format(&self, _ty: &Type) -> Format
        ensures { result ≡ Binary }
    {
        Format::Binary
    }

    /// Like `to_sql`, but WrongType exactly where the value may not stand under the type.
    fn to_sql_checked(&self, ty: &Type, out: &mut BytesMut) -> Result<IsNull, ValueFault>
        ensures { Writes has_parts (checked (accepted self.now ty.now) ty.now.oid rust (gives self.now ty.now))
            out.old.items out.new.items result };
}

/// Appends the bytes of a value.
pub(crate) fn put(bytes: &[u8], out: &mut BytesMut) -> Result<IsNull, ValueFault>
    ensures { Writes false (bytes_given bytes.now) out.old.items out.new.items result }
{
    out.extend_from_slice(bytes)?;
    Ok(IsNull::No)
}

/// The fault of a type, unless the Rust type stands for it.
pub(crate) fn fault_unless(stands: bool, ty: &Type, rust: RustType) -> Option<WrongType>
    ensures { result ≡ type_fault stands ty.now.oid rust }
{
    if stands {
        None
    } else {
        Some(WrongType {
            postgres: ty.oid(),
            rust,
        })
    }
}
