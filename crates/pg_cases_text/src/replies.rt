//! The parts of a reply.

use pg_cases::{shared, written};
use pg_errors::Error;
use pg_query::{Cells, column_names, extract_row_affected, row_cells, server_error};
use pg_types::{Blob, List, Text};
use pg_wire::{
    CommandCompleteBody, DataRowBody, ErrorResponseBody, Message, RowDescriptionBody, WireFault,
};
use std::alloc::{AllocError, Global};

fn tell_fault(fault: WireFault, out: &mut String) -> Result<(), AllocError> {
    write!(out, " refused {fault:?}")
}

fn tell_refusal(error: &Error, out: &mut String) -> Result<(), AllocError> {
    write!(out, " refused {error:?}")
}

fn tell_all_names(names: &[Text], out: &mut String) -> Result<(), AllocError> {
    for name in names {
        write!(out, " {:?}", name.as_str())?;
    }
    Ok(())
}

fn tell_names(names: &Result<List<Text>, WireFault>, out: &mut String) -> Result<(), AllocError> {
    match names {
        Ok(names) => tell_all_names(names.as_slice(), out),
        Err(fault) => tell_fault(*fault, out),
    }
}

fn tell_columns(
    alloc: Global,
    body: &RowDescriptionBody,
    out: &mut String,
) -> Result<(), AllocError> {
    let names = column_names(alloc, body);
    tell_names(&names, out)
}

fn tell_cell(cell: &Option<Blob>, out: &mut String) -> Result<(), AllocError> {
    match cell {
        Some(bytes) => written::tell(bytes.as_slice(), out),
        None => out.push_str(" null"),
    }
}

fn tell_all_cells(cells: &[Option<Blob>], out: &mut String) -> Result<(), AllocError> {
    for cell in cells {
        tell_cell(cell, out)?;
    }
    Ok(())
}

fn tell_cells(cells: &Result<Cells, WireFault>, out: &mut String) -> Result<(), AllocError> {
    match cells {
        Ok(cells) => tell_all_cells(cells.as_slice(), out),
        Err(fault) => tell_fault(*fault, out),
    }
}

fn tell_row(alloc: Global, body: &DataRowBody, out: &mut String) -> Result<(), AllocError> {
    let cells = row_cells(alloc, body);
    tell_cells(&cells, out)
}

fn tell_count(read: &Result<u64, Error>, out: &mut String) -> Result<(), AllocError> {
    match read {
        Ok(count) => write!(out, " {count}"),
        Err(error) => tell_refusal(error, out),
    }
}

fn tell_affected(body: &CommandCompleteBody, out: &mut String) -> Result<(), AllocError> {
    let read = extract_row_affected(body);
    tell_count(&read, out)
}

/// The message of the server's error.
fn tell_error(error: &Error, out: &mut String) -> Result<(), AllocError> {
    match error.as_db_error() {
        Some(error) => write!(out, " {:?}", error.message()),
        None => tell_refusal(error, out),
    }
}

fn tell_server_error(
    alloc: Global,
    body: &ErrorResponseBody,
    out: &mut String,
) -> Result<(), AllocError> {
    let error = server_error(alloc, body)?;
    tell_error(&error, out)
}

fn tell_message(alloc: Global, message: &Message, out: &mut String) -> Result<(), AllocError> {
    match message {
        Message::RowDescription(body) => tell_columns(alloc, body, out),
        Message::DataRow(body) => tell_row(alloc, body, out),
        Message::CommandComplete(body) => tell_affected(body, out),
        Message::ErrorResponse(body) => tell_server_error(alloc, body, out),
        _ => out.push_str(" another"),
    }
}

fn tell_parsed(
    alloc: Global,
    parsed: &Result<Option<Message>, WireFault>,
    out: &mut String,
) -> Result<(), AllocError> {
    match parsed {
        Ok(Some(message)) => tell_message(alloc, message, out),
        Ok(None) => out.push_str(" incomplete"),
        Err(fault) => tell_fault(*fault, out),
    }
}

/// What a command makes of a message of its reply: names of columns, cells, affected rows, an error.
pub(crate) fn tell(
    alloc: Global,
    tag: u8,
    body: &[u8],
    out: &mut String,
) -> Result<(), AllocError> {
    let mut bytes = shared::of_message(alloc, tag, body)?;
    let parsed = Message::parse(&mut bytes);
    tell_parsed(alloc, &parsed, out)
}
