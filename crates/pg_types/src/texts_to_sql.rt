//! Texts and bytes, written.

ghost use Rattle.std.specs.Prelude.{◌≡◌};
ghost use Rattle.pg_types.specs.Oids as oids;

use crate::to_sql::{ToSql, fault_unless, put};
use crate::{Blob, IsNull, RustType, Text, Type, ValueFault, WrongType, oid};
use bytes::BytesMut;

/// Whether a type's values are texts.
pub(crate) fn is_text(ty: &Type) -> bool
    ensures { result ≡ oids.is_text ty.now.oid }
{
    matches!(
        ty.oid(),
        oid::TEXT | oid::VARCHAR | oid::BPCHAR | oid::NAME | oid::UNKNOWN
    )
}

impl ToSql for &str {
    ghost use Rattle.std.specs.Prelude.{◌≡◌, false};
    ghost use Rattle.pg_types.specs.declared.fault.RustType.TheVariants as rust_type;
    ghost use Rattle.pg_types.specs.Oids as oids;
    ghost use Rattle.pg_types.specs.Values.{bytes_given, type_fault};

    ghost gives = { λ s _. bytes_given s.now };

    ghost has_parts = { false };

    ghost accepted = { λ _ ty. oids.is_text ty.oid };

    ghost stands_for = { λ ty. oids.is_text ty.oid };

    ghost rust = { rust_type.Str };

    fn type_fault(ty: &Type) -> Option<WrongType>
        ensures { result ≡ type_fault (oids.is_text ty.now.oid) ty.now.oid rust_type.Str }
    {
        fault_unless(is_text(ty), ty, RustType::Str)
    }

    fn to_sql(&self, _ty: &Type, out: &mut BytesMut) -> Result<IsNull, ValueFault> {
        put(self.as_bytes(), out)
    }

    fn accepts(&self, ty: &Type) -> bool {
        is_text(ty)
    }

    fn to_sql_checked(&self, ty: &Type, out: &mut BytesMut) -> Result<IsNull, ValueFault> {
        match Self::type_fault(ty) {
            None => self.to_sql(ty, out),
            Some(wrong) => Err(ValueFault::WrongType(wrong)),
        }
    }
}

impl ToSql for Text {
    ghost use Rattle.std.specs.Prelude.{false};
    ghost use Rattle.pg_types.specs.declared.fault.RustType.TheVariants as rust_type;
    ghost use Rattle.pg_types.specs.Oids as oids;
    ghost use Rattle.pg_types.specs.Values.{bytes_given};

    ghost gives = { λ t _. bytes_given t };

    ghost has_parts = { false };

    ghost accepted = { λ _ ty. oids.is_text ty.oid };

    ghost stands_for = { λ ty. oids.is_text ty.oid };

    ghost rust = { rust_type.Text };

    fn type_fault(ty: &Type) -> Option<WrongType> {
        fault_unless(is_text(ty), ty, RustType::Text)
    }

    fn to_sql(&self, _ty: &Type, out: &mut BytesMut) -> Result<IsNull, ValueFault> {
        put(self.as_str().as_bytes(), out)
    }

    fn accepts(&self, ty: &Type) -> bool {
        is_text(ty)
    }

    fn to_sql_checked(&self, ty: &Type, out: &mut BytesMut) -> Result<IsNull, ValueFault> {
        match Self::type_fault(ty) {
            None => self.to_sql(ty, out),
            Some(wrong) => Err(ValueFault::WrongType(wrong)),
        }
    }
}

impl ToSql for &[u8] {
    ghost use Rattle.std.specs.Prelude.{◌≡◌, ◌==◌, false};
    ghost use Rattle.pg_types.specs.declared.fault.RustType.TheVariants as rust_type;
    ghost use Rattle.pg_types.specs.Oids as oids;
    ghost use Rattle.pg_types.specs.Values.{bytes_given, type_fault};

    ghost gives = { λ b _. bytes_given b.now };

    ghost has_parts = { false };

    ghost accepted = { λ _ ty. ty.oid == oids.bytea };

    ghost stands_for = { λ ty. ty.oid == oids.bytea };

    ghost rust = { rust_type.Slice };

    fn type_fault(ty: &Type) -> Option<WrongType>
        ensures { result ≡ type_fault (ty.now.oid == oids.bytea) ty.now.oid rust_type.Slice }
    {
        fault_unless(ty.oid() == oid::BYTEA, ty, RustType::Slice)
    }

    fn to_sql(&self, _ty: &Type, out: &mut BytesMut) -> Result<IsNull, ValueFault> {
        put(self, out)
    }

    fn accepts(&self, ty: &Type) -> bool {
        ty.oid() == oid::BYTEA
    }

    fn to_sql_checked(&self, ty: &Type, out: &mut BytesMut) -> Result<IsNull, ValueFault> {
        match Self::type_fault(ty) {
            None => self.to_sql(ty, out),
            Some(wrong) => Err(ValueFault::WrongType(wrong)),
        }
    }
}

impl ToSql for Blob {
    ghost use Rattle.std.specs.Prelude.{◌==◌, false};
    ghost use Rattle.pg_types.specs.declared.fault.RustType.TheVariants as rust_type;
    ghost use Rattle.pg_types.specs.Oids as oids;
    ghost use Rattle.pg_types.specs.Values.{bytes_given};

    ghost gives = { λ b _. bytes_given b };

    ghost has_parts = { false };

    ghost accepted = { λ _ ty. ty.oid == oids.bytea };

    ghost stands_for = { λ ty. ty.oid == oids.bytea };

    ghost rust = { rust_type.Blob };

    fn type_fault(ty: &Type) -> Option<WrongType> {
        fault_unless(ty.oid() == oid::BYTEA, ty, RustType::Blob)
    }

    fn to_sql(&self, _ty: &Type, out: &mut BytesMut) -> Result<IsNull, ValueFault> {
        put(self.as_slice(), out)
    }

    fn accepts(&self, ty: &Type) -> bool {
        ty.oid() == oid::BYTEA
    }

    fn to_sql_checked(&self, ty: &Type, out: &mut BytesMut) -> Result<IsNull, ValueFault> {
        match Self::type_fault(ty) {
            None => self.to_sql(ty, out),
            Some(wrong) => Err(ValueFault::WrongType(wrong)),
        }
    }
}
