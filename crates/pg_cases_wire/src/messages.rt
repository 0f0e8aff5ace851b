//! Messages of the server, and the parts of their bodies.

use crate::batches::tell_fault;
use bytes::Bytes;
use pg_cases::written;
use pg_wire::{
    AuthenticationSaslBody, DataRowBody, ErrorResponseBody, Message, ParameterDescriptionBody,
    RowDescriptionBody, WireFault,
};
use std::alloc::AllocError;
use std::ops::Range;

fn tell_column(body: &RowDescriptionBody, out: &mut String) -> Result<(), AllocError> {
    match body.fields().next() {
        Ok(Some(field)) => write!(out, " column {:?} {}", field.name(), field.type_oid()),
        Ok(None) => out.push_str(" no column"),
        Err(fault) => tell_fault(fault, out),
    }
}

fn tell_range(range: Range<usize>, out: &mut String) -> Result<(), AllocError> {
    write!(out, " cell {}..{}", range.start, range.end)
}

fn tell_cell(body: &DataRowBody, out: &mut String) -> Result<(), AllocError> {
    match body.ranges().next() {
        Ok(Some(Some(range))) => tell_range(range, out),
        Ok(Some(None)) => out.push_str(" null"),
        Ok(None) => out.push_str(" no cell"),
        Err(fault) => tell_fault(fault, out),
    }
}

fn tell_field(body: &ErrorResponseBody, out: &mut String) -> Result<(), AllocError> {
    match body.fields().next() {
        Ok(Some(field)) => {
            write!(out, " field {:?}", char::from(field.type_()))?;
            written::tell(field.value_bytes(), out)
        }
        Ok(None) => out.push_str(" no field"),
        Err(fault) => tell_fault(fault, out),
    }
}

fn tell_mechanism(body: &AuthenticationSaslBody, out: &mut String) -> Result<(), AllocError> {
    match body.mechanisms().next() {
        Ok(Some(name)) => write!(out, " first {name:?}"),
        Ok(None) => out.push_str(" none"),
        Err(fault) => tell_fault(fault, out),
    }
}

fn tell_parameter(body: &ParameterDescriptionBody, out: &mut String) -> Result<(), AllocError> {
    match body.parameters().next() {
        Ok(Some(oid)) => write!(out, " first {oid}"),
        Ok(None) => out.push_str(" none"),
        Err(fault) => tell_fault(fault, out),
    }
}

/// The first part of a message's body.
fn tell_message(message: &Message, out: &mut String) -> Result<(), AllocError> {
    match message {
        Message::RowDescription(body) => tell_column(body, out),
        Message::DataRow(body) => tell_cell(body, out),
        Message::ErrorResponse(body) => tell_field(body, out),
        Message::AuthenticationSasl(body) => tell_mechanism(body, out),
        Message::ParameterDescription(body) => tell_parameter(body, out),
        _ => out.push_str(" another"),
    }
}

/// What a message says first.
pub(crate) fn tell(
    message: &Result<Option<Message>, WireFault>,
    out: &mut String,
) -> Result<(), AllocError> {
    match message {
        Ok(Some(message)) => tell_message(message, out),
        Ok(None) => out.push_str(" incomplete"),
        Err(fault) => tell_fault(*fault, out),
    }
}

/// How many bytes are left.
pub(crate) fn tell_left(bytes: &Bytes, out: &mut String) -> Result<(), AllocError> {
    write!(out, " left {}", bytes.as_slice().len())
}
