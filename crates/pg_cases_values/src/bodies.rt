//! DataRow messages, and indexes of columns, as words.

use pg_cases::shared;
use pg_rows::RowIndex;
use pg_wire::{DataRowBody, Message, WireFault};
use std::alloc::{AllocError, Global};

fn of_read(read: Result<Option<Message>, WireFault>) -> Option<DataRowBody> {
    match read {
        Ok(Some(message)) => message.row_body(),
        _ => None,
    }
}

/// The body of a DataRow of these bytes, the number of cells in front. None where that number isn't there.
pub(crate) fn body_of(alloc: Global, bytes: &[u8]) -> Result<Option<DataRowBody>, AllocError> {
    let mut received = shared::of_message(alloc, b'D', bytes)?;
    let read = Message::parse(&mut received);
    Ok(of_read(read))
}

/// The words behind the body, which is the third.
pub(crate) fn behind(words: &[Vec<u8>]) -> &[Vec<u8>] {
    words.get(3..).unwrap_or(&[])
}

/// A place behind `@`, or a name.
pub(crate) fn index_of(word: &str) -> RowIndex<'_> {
    match word.strip_prefix("@") {
        Some(place) => RowIndex::At(place.parse::<usize>().unwrap_or(usize::MAX)),
        None => RowIndex::Name(word),
    }
}
