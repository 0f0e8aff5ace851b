//! The Rust types as which the values of a column are read.

ghost use Rattle.std.specs.Prelude.{◌≡◌, List, ℕ, Option, Result, option_map};
ghost use Rattle.pg_types.specs.declared.pg_type.PgType.{PgType};
ghost use Rattle.pg_types.specs.declared.fault.ValueFault.{ValueFault};
ghost use Rattle.pg_execute.specs.Faulting.{Reads};

use pg_types::{Blob, FromSqlOwned, RustType, Text, Type, Value, ValueFault, WrongType};
use std::alloc::Global;

/// A Rust type as which a value is read, where the bytes say which value that is. So a dialogue can answer such values.
pub trait Scalar: FromSqlOwned + Drop {
    /// The value that bytes of a type, or null (`None`), are read as, or why they are refused. The type is judged first.
    ghost reads: { PgType → Option (List ℕ) → Result Self ValueFault };

    /// Reads bytes or null, as `FromSqlOwned::from_sql_owned`, but WrongType where the Rust type doesn't stand for the type.
    /// OutOfMemory comes where there is no room for the value.
    fn read(alloc: Global, ty: &Type, raw: Option<&[u8]>) -> Result<Self, ValueFault>
        ensures { Reads (reads ty.now (option_map (λ r. r.now) raw.entry)) result };
}

/// The fault of a type that the Rust type doesn't stand for.
fn wrong_type(ty: &Type, rust: RustType) -> ValueFault
    ensures { result ≡ ValueFault.WrongType (record { postgres = ty.now.oid; rust = rust }) }
{
    ValueFault::WrongType(WrongType {
        postgres: ty.oid(),
        rust,
    })
}

impl Scalar for bool {
    ghost use Rattle.pg_core.specs.Cells.{read_as};
    ghost use Rattle.pg_types.specs.declared.fault.RustType.TheVariants as rust;
    ghost use Rattle.pg_types.specs.Oids as oids;
    ghost use Rattle.pg_types.specs.Values.{bool_in, has_length};
    ghost use Rattle.std.specs.Prelude.{◌==◌};

    ghost reads = { λ ty raw. read_as (ty.oid == oids.bool) rust.Bool (has_length 1) bool_in ty raw };

    fn read(alloc: Global, ty: &Type, raw: Option<&[u8]>) -> Result<bool, ValueFault> {
        if !<bool as FromSqlOwned>::accepts_owned(ty) {
            return Err(wrong_type(ty, RustType::Bool));
        }
        <bool as FromSqlOwned>::from_sql_owned(alloc, ty, raw)
    }
}

impl Scalar for i8 {
    ghost use Rattle.pg_core.specs.Cells.{read_as};
    ghost use Rattle.pg_types.specs.declared.fault.RustType.TheVariants as rust;
    ghost use Rattle.pg_types.specs.Oids as oids;
    ghost use Rattle.pg_types.specs.Values.{has_length, int_in};
    ghost use Rattle.std.specs.Int.{w8};
    ghost use Rattle.std.specs.Prelude.{◌==◌};

    ghost reads = { λ ty raw. read_as (ty.oid == oids.char) rust.I8 (has_length 1) (int_in w8) ty raw };

    fn read(alloc: Global, ty: &Type, raw: Option<&[u8]>) -> Result<i8, ValueFault> {
        if !<i8 as FromSqlOwned>::accepts_owned(ty) {
            return Err(wrong_type(ty, RustType::I8));
        }
        <i8 as FromSqlOwned>::from_sql_owned(alloc, ty, raw)
    }
}

impl Scalar for i16 {
    ghost use Rattle.pg_core.specs.Cells.{read_as};
    ghost use Rattle.pg_types.specs.declared.fault.RustType.TheVariants as rust;
    ghost use Rattle.pg_types.specs.Oids as oids;
    ghost use Rattle.pg_types.specs.Values.{has_length, int_in};
    ghost use Rattle.std.specs.Int.{w16};
    ghost use Rattle.std.specs.Prelude.{◌==◌};

    ghost reads = { λ ty raw. read_as (ty.oid == oids.int2) rust.I16 (has_length 2) (int_in w16) ty raw };

    fn read(alloc: Global, ty: &Type, raw: Option<&[u8]>) -> Result<i16, ValueFault> {
        if !<i16 as FromSqlOwned>::accepts_owned(ty) {
            return Err(wrong_type(ty, RustType::I16));
        }
        <i16 as FromSqlOwned>::from_sql_owned(alloc, ty, raw)
    }
}

impl Scalar for i32 {
    ghost use Rattle.pg_core.specs.Cells.{read_as};
    ghost use Rattle.pg_types.specs.declared.fault.RustType.TheVariants as rust;
    ghost use Rattle.pg_types.specs.Oids as oids;
    ghost use Rattle.pg_types.specs.Values.{has_length, int_in};
    ghost use Rattle.std.specs.Int.{w32};
    ghost use Rattle.std.specs.Prelude.{◌==◌};

    ghost reads = { λ ty raw. read_as (ty.oid == oids.int4) rust.I32 (has_length 4) (int_in w32) ty raw };

    fn read(alloc: Global, ty: &Type, raw: Option<&[u8]>) -> Result<i32, ValueFault> {
        if !<i32 as FromSqlOwned>::accepts_owned(ty) {
            return Err(wrong_type(ty, RustType::I32));
        }
        <i32 as FromSqlOwned>::from_sql_owned(alloc, ty, raw)
    }
}

impl Scalar for i64 {
    ghost use Rattle.pg_core.specs.Cells.{read_as};
    ghost use Rattle.pg_types.specs.declared.fault.RustType.TheVariants as rust;
    ghost use Rattle.pg_types.specs.Oids as oids;
    ghost use Rattle.pg_types.specs.Values.{has_length, int_in};
    ghost use Rattle.std.specs.Int.{w64};
    ghost use Rattle.std.specs.Prelude.{◌==◌};

    ghost reads = { λ ty raw. read_as (ty.oid == oids.int8) rust.I64 (has_length 8) (int_in w64) ty raw };

    fn read(alloc: Global, ty: &Type, raw: Option<&[u8]>) -> Result<i64, ValueFault> {
        if !<i64 as FromSqlOwned>::accepts_owned(ty) {
            return Err(wrong_type(ty, RustType::I64));
        }
        <i64 as FromSqlOwned>::from_sql_owned(alloc, ty, raw)
    }
}

impl Scalar for u32 {
    ghost use Rattle.pg_core.specs.Cells.{read_as};
    ghost use Rattle.pg_types.specs.declared.fault.RustType.TheVariants as rust;
    ghost use Rattle.pg_types.specs.Oids as oids;
    ghost use Rattle.pg_types.specs.Values.{has_length, oid_in};
    ghost use Rattle.std.specs.Prelude.{◌==◌};

    ghost reads = { λ ty raw. read_as (ty.oid == oids.oid) rust.U32 (has_length 4) oid_in ty raw };

    fn read(alloc: Global, ty: &Type, raw: Option<&[u8]>) -> Result<u32, ValueFault> {
        if !<u32 as FromSqlOwned>::accepts_owned(ty) {
            return Err(wrong_type(ty, RustType::U32));
        }
        <u32 as FromSqlOwned>::from_sql_owned(alloc, ty, raw)
    }
}

impl Scalar for Text {
    ghost use Rattle.pg_core.specs.Cells.{read_as};
    ghost use Rattle.pg_types.specs.declared.fault.RustType.TheVariants as rust;
    ghost use Rattle.pg_types.specs.Oids as oids;
    ghost use Rattle.std.specs.Str.{is_utf8};

    ghost reads = { λ ty raw. read_as (oids.is_text ty.oid) rust.Text is_utf8 (λ bytes. bytes) ty raw };

    fn read(alloc: Global, ty: &Type, raw: Option<&[u8]>) -> Result<Text, ValueFault> {
        if !<Text as FromSqlOwned>::accepts_owned(ty) {
            return Err(wrong_type(ty, RustType::Text));
        }
        <Text as FromSqlOwned>::from_sql_owned(alloc, ty, raw)
    }
}

impl Scalar for Blob {
    ghost use Rattle.pg_core.specs.Cells.{read_as};
    ghost use Rattle.pg_types.specs.declared.fault.RustType.TheVariants as rust;
    ghost use Rattle.pg_types.specs.Oids as oids;
    ghost use Rattle.std.specs.Prelude.{◌==◌, true};

    ghost reads = { λ ty raw. read_as (ty.oid == oids.bytea) rust.Blob (λ _. true) (λ bytes. bytes) ty raw };

    fn read(alloc: Global, ty: &Type, raw: Option<&[u8]>) -> Result<Blob, ValueFault> {
        if !<Blob as FromSqlOwned>::accepts_owned(ty) {
            return Err(wrong_type(ty, RustType::Blob));
        }
        <Blob as FromSqlOwned>::from_sql_owned(alloc, ty, raw)
    }
}

impl Scalar for Value {
    ghost use Rattle.pg_execute.specs.Values.{value_of};

    ghost reads = { value_of };

    fn read(alloc: Global, ty: &Type, raw: Option<&[u8]>) -> Result<Value, ValueFault> {
        if !<Value as FromSqlOwned>::accepts_owned(ty) {
            return Err(wrong_type(ty, RustType::Value));
        }
        <Value as FromSqlOwned>::from_sql_owned(alloc, ty, raw)
    }
}

/// Null is None, where the Rust type stands for the type.
impl<T: Scalar> Scalar for Option<T> {
    ghost use Rattle.pg_execute.specs.Values.{or_null};

    ghost reads = { λ ty raw. or_null (T.stands_for ty) (T.reads ty) raw };

    fn read(alloc: Global, ty: &Type, raw: Option<&[u8]>) -> Result<Option<T>, ValueFault> {
        if raw.is_none() && T::accepts_owned(ty) {
            return Ok(None);
        }
        match T::read(alloc, ty, raw) {
            Ok(value) => Ok(Some(value)),
            Err(fault) => Err(fault),
        }
    }
}
