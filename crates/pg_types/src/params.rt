//! The parameters of a statement.

ghost use Rattle.std.specs.Prelude.{◌≡◌, ◌<◌, ℕ, Bool};
ghost use Rattle.pg_types.specs.declared.pg_type.PgType.{PgType};
ghost use Rattle.pg_types.specs.declared.format.Format.TheVariants.{Binary};
ghost use Rattle.pg_types.specs.Values.{Given, Writes, checked};

use crate::to_sql::ToSql;
use crate::{Format, IsNull, List, Type, Value, ValueFault};
use bytes::BytesMut;

/// Values for the parameters of a statement, in order.
pub trait Params {
    /// How many values there are.
    ghost count: { Self → ℕ };

    /// What the value at a place gives under a type, WrongType where it may not stand under it.
    ghost gives_at: { Self → ℕ → PgType → Given };

    /// The value at a place has parts.
    ghost has_parts_at: { Self → ℕ → Bool };

    /// How many values there are.
    fn len(&self) -> usize
        ensures { result ≡ count self.now };

    /// `ToSql::to_sql_checked` of the value at place `i`, counted from 0.
    fn to_sql_checked(&self, i: usize, ty: &Type, out: &mut BytesMut) -> Result<IsNull, ValueFault>
        requires { i < count self.now }
        ensures { Writes (has_parts_at self.now i) (gives_at self.now i ty.now) out.old.items out.new.items result };

    /// `ToSql::encode_format` of the value at place `i`, counted from 0.
    fn encode_format(&self, i: usize, ty: &Type) -> Format
        requires { i < count self.now }
        ensures { result ≡ Binary };
}

impl Params for &[Value] {
    ghost use Rattle.std.specs.Prelude.{false, length, slice_get};
    ghost use Rattle.pg_types.specs.AnyValues.{value_at};

    ghost count = { λ values. length values.now };

    ghost gives_at = { λ values i ty. value_at (slice_get values.now i) ty.oid };

    ghost has_parts_at = { λ _ _. false };

    fn len(&self) -> usize {
        <[Value]>::len(self)
    }

    fn to_sql_checked(
        &self,
        i: usize,
        ty: &Type,
        out: &mut BytesMut,
    ) -> Result<IsNull, ValueFault> {
        self[i].to_sql_checked(ty, out)
    }

    fn encode_format(&self, i: usize, ty: &Type) -> Format {
        self[i].encode_format(ty)
    }
}

impl Params for List<Value> {
    ghost use Rattle.std.specs.Prelude.{false, length, slice_get};
    ghost use Rattle.pg_types.specs.AnyValues.{value_at};

    ghost count = { λ values. length values };

    ghost gives_at = { λ values i ty. value_at (slice_get values i) ty.oid };

    ghost has_parts_at = { λ _ _. false };

    fn len(&self) -> usize {
        self.as_slice().len()
    }

    fn to_sql_checked(
        &self,
        i: usize,
        ty: &Type,
        out: &mut BytesMut,
    ) -> Result<IsNull, ValueFault> {
        self.as_slice()[i].to_sql_checked(ty, out)
    }

    fn encode_format(&self, i: usize, ty: &Type) -> Format {
        self.as_slice()[i].encode_format(ty)
    }
}

/// `to_sql_checked` of a value whose Rust type isn't known.
fn write_any(value: &dyn ToSql, ty: &Type, out: &mut BytesMut) -> Result<IsNull, ValueFault>
    ensures { Writes (ToSql-dyn value.now).has_parts (checked ((ToSql-dyn value.now).accepted value.now.1 ty.now) ty.now.oid (ToSql-dyn value.now).rust
        ((ToSql-dyn value.now).gives value.now.1 ty.now)) out.old.items out.new.items result }
{
    value.to_sql_checked(ty, out)
}

impl Params for &[&dyn ToSql] {
    ghost use Rattle.std.specs.Prelude.{false, length, slice_get, Ok, None, Some};
    ghost use Rattle.pg_types.specs.Values.{checked};

    ghost count = { λ values. length values.now };

    ghost gives_at = { λ values i ty. elim (slice_get values.now i) [
      | None ↦ Ok None
      | Some x ↦ checked ((ToSql-dyn x.now).accepted x.now.1 ty) ty.oid (ToSql-dyn x.now).rust
          ((ToSql-dyn x.now).gives x.now.1 ty)
    ] };

    ghost has_parts_at = { λ values i. elim (slice_get values.now i) [
      | None ↦ false
      | Some x ↦ (ToSql-dyn x.now).has_parts
    ] };

    fn len(&self) -> usize {
        <[&dyn ToSql]>::len(self)
    }

    fn to_sql_checked(
        &self,
        i: usize,
        ty: &Type,
        out: &mut BytesMut,
    ) -> Result<IsNull, ValueFault> {
        write_any(self[i], ty, out)
    }

    fn encode_format(&self, i: usize, ty: &Type) -> Format {
        self[i].encode_format(ty)
    }
}
