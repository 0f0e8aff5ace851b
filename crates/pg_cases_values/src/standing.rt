//! Which Rust types stand for which types of the server.

use bytes::BytesMut;
use pg_types::{
    Blob, FromSqlOwned, OutOfMemory, RustType, Text, ToSql, Type, Value, ValueFault, WrongType,
};
use std::alloc::{AllocError, Global};

fn tell_name(stands: bool, name: &str, out: &mut String) -> Result<(), AllocError> {
    if stands {
        return write!(out, " {name}");
    }
    Ok(())
}

fn tell_option(stands: bool, name: &str, out: &mut String) -> Result<(), AllocError> {
    if stands {
        return write!(out, " Option<{name}>");
    }
    Ok(())
}

/// The name of a Rust type that is read from the type, alone and inside an `Option`.
fn tell_read<T: FromSqlOwned>(name: &str, ty: &Type, out: &mut String) -> Result<(), AllocError> {
    tell_name(T::accepts_owned(ty), name, out)?;
    tell_option(<Option<T>>::accepts_owned(ty), name, out)
}

fn tell_read_numbers(ty: &Type, out: &mut String) -> Result<(), AllocError> {
    tell_read::<bool>("bool", ty, out)?;
    tell_read::<i8>("i8", ty, out)?;
    tell_read::<i16>("i16", ty, out)?;
    tell_read::<i32>("i32", ty, out)?;
    tell_read::<i64>("i64", ty, out)?;
    tell_read::<u32>("u32", ty, out)
}

fn tell_all_read(ty: &Type, out: &mut String) -> Result<(), AllocError> {
    tell_read_numbers(ty, out)?;
    tell_read::<Text>("Text", ty, out)?;
    tell_read::<Blob>("Blob", ty, out)?;
    tell_read::<Value>("Value", ty, out)
}

fn is_of(wrong: WrongType, rust: RustType, ty: &Type) -> bool {
    wrong.postgres == ty.oid() && wrong.rust == rust
}

/// Whether WrongType comes, with the type and the Rust type.
fn is_wrong<T: ToSql>(alloc: Global, value: &T, rust: RustType, ty: &Type) -> bool {
    let mut buffer = BytesMut::new(alloc);
    match value.to_sql_checked(ty, &mut buffer) {
        Err(ValueFault::WrongType(wrong)) => is_of(wrong, rust, ty),
        _ => false,
    }
}

/// What stands behind the name of a value that may stand under the type: an exclamation mark where WrongType
/// comes and it may, or doesn't come and it may not.
fn mark_of(stands: bool, is_wrong: bool) -> Option<&'static str> {
    match (stands, is_wrong) {
        (true, false) => Some(""),
        (false, true) => None,
        _ => Some("!"),
    }
}

fn tell_marked(mark: Option<&str>, rust: RustType, out: &mut String) -> Result<(), AllocError> {
    match mark {
        Some(mark) => write!(out, " {rust:?}{mark}"),
        None => Ok(()),
    }
}

/// The name of a value that may stand under the type.
fn tell_written<T: ToSql>(
    alloc: Global,
    value: &T,
    rust: RustType,
    ty: &Type,
    out: &mut String,
) -> Result<(), AllocError> {
    let is_wrong = is_wrong(alloc, value, rust, ty);
    tell_marked(mark_of(value.accepts(ty), is_wrong), rust, out)
}

fn tell_written_numbers(alloc: Global, ty: &Type, out: &mut String) -> Result<(), AllocError> {
    tell_written(alloc, &true, RustType::Bool, ty, out)?;
    tell_written(alloc, &1i8, RustType::I8, ty, out)?;
    tell_written(alloc, &1i16, RustType::I16, ty, out)?;
    tell_written(alloc, &1i32, RustType::I32, ty, out)?;
    tell_written(alloc, &1i64, RustType::I64, ty, out)?;
    tell_written(alloc, &None::<u32>, RustType::U32, ty, out)
}

fn tell_all_written(alloc: Global, ty: &Type, out: &mut String) -> Result<(), AllocError> {
    tell_written_numbers(alloc, ty, out)?;
    tell_written(alloc, &"t", RustType::Str, ty, out)?;
    tell_written(alloc, &b"t".as_slice(), RustType::Slice, ty, out)?;
    tell_written(alloc, &Value::Int(1), RustType::Value, ty, out)
}

fn tell_type(alloc: Global, ty: &Type, out: &mut String) -> Result<(), AllocError> {
    out.push_str(" read")?;
    tell_all_read(ty, out)?;
    out.push_str(" written")?;
    tell_all_written(alloc, ty, out)?;
    out.push_str(" null")?;
    tell_written(alloc, &Value::Null, RustType::Value, ty, out)
}

/// The Rust types that stand for a type in reading, in writing, and for null.
pub(crate) fn tell(alloc: Global, oid: u32, out: &mut String) -> Result<(), AllocError> {
    match Type::from_oid(alloc, oid) {
        Ok(Some(ty)) => tell_type(alloc, &ty, out),
        Ok(None) => out.push_str(" none"),
        Err(OutOfMemory) => Err(AllocError),
    }
}
