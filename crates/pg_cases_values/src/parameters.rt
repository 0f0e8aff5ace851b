//! The values of a statement's parameters.

use crate::refusal;
use bytes::BytesMut;
use pg_cases::written;
use pg_types::{IsNull, OutOfMemory, Params, ToSql, Type, Value, ValueFault};
use std::alloc::{AllocError, Global};

/// The type int2.
const INT2: u32 = 21;

/// Appends all values, and `-` for null.
fn write_all<P: Params>(params: &P, ty: &Type, buffer: &mut BytesMut) -> Result<(), ValueFault> {
    for i in 0..params.len() {
        if params.to_sql_checked(i, ty, buffer)? == IsNull::Yes {
            buffer.extend_from_slice(b"-")?;
        }
    }
    Ok(())
}

fn tell_answer(answer: Result<(), ValueFault>, out: &mut String) -> Result<(), AllocError> {
    match answer {
        Ok(()) => Ok(()),
        Err(fault) => refusal::tell(fault, out),
    }
}

fn tell_params<P: Params>(
    alloc: Global,
    params: &P,
    ty: &Type,
    out: &mut String,
) -> Result<(), AllocError> {
    let mut buffer = BytesMut::new(alloc);
    let told = tell_answer(write_all(params, ty, &mut buffer), out);
    written::tell(buffer.as_slice(), out).and(told)
}

/// Values of one type.
fn tell_values(alloc: Global, ty: &Type, out: &mut String) -> Result<(), AllocError> {
    let values = [Value::Int(1), Value::Null, Value::Int(2)];
    tell_params(alloc, &values.as_slice(), ty, out)
}

/// Values of any types.
fn tell_any(alloc: Global, ty: &Type, out: &mut String) -> Result<(), AllocError> {
    let values: [&dyn ToSql; 3] = [&1i16, &None::<i16>, &Value::Int(2)];
    tell_params(alloc, &values.as_slice(), ty, out)
}

/// Values of which the last is a text.
fn tell_wrong(alloc: Global, ty: &Type, out: &mut String) -> Result<(), AllocError> {
    let values: [&dyn ToSql; 3] = [&1i16, &None::<i16>, &"x"];
    tell_params(alloc, &values.as_slice(), ty, out)
}

fn tell_under(alloc: Global, name: &str, ty: &Type, out: &mut String) -> Result<(), AllocError> {
    match name {
        "values" => tell_values(alloc, ty, out),
        "any" => tell_any(alloc, ty, out),
        _ => tell_wrong(alloc, ty, out),
    }
}

/// What the parameters of this name give under int2.
pub(crate) fn tell(alloc: Global, name: &str, out: &mut String) -> Result<(), AllocError> {
    match Type::from_oid(alloc, INT2) {
        Ok(Some(ty)) => tell_under(alloc, name, &ty, out),
        Ok(None) => out.push_str(" no type"),
        Err(OutOfMemory) => Err(AllocError),
    }
}
