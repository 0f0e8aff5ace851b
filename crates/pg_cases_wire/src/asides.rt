//! Messages that no request asks for.

use crate::db_errors;
use pg_errors::{AsyncMessage, DbError, Error, Notification};
use pg_types::OutOfMemory;
use pg_wire::{Message, WireFault};
use std::alloc::{AllocError, Global};

fn tell_notification(notification: &Notification, out: &mut String) -> Result<(), AllocError> {
    let id = notification.process_id();
    let channel = notification.channel();
    let payload = notification.payload();
    write!(out, " notification {id} {channel:?} {payload:?}")
}

fn tell_notice(notice: &DbError, out: &mut String) -> Result<(), AllocError> {
    out.push_str(" notice")?;
    db_errors::tell_fields(notice, out)
}

fn tell_aside(aside: &AsyncMessage, out: &mut String) -> Result<(), AllocError> {
    match aside {
        AsyncMessage::Notice(notice) => tell_notice(notice.get(), out),
        AsyncMessage::Notification(notification) => tell_notification(notification, out),
    }
}

fn tell_copied(
    copy: &Result<AsyncMessage, OutOfMemory>,
    out: &mut String,
) -> Result<(), AllocError> {
    match copy {
        Ok(copy) => tell_aside(copy, out),
        Err(_) => Err(AllocError),
    }
}

/// What a copy tells.
fn tell_copy(alloc: Global, aside: &AsyncMessage, out: &mut String) -> Result<(), AllocError> {
    let copy = aside.copy(alloc);
    tell_copied(&copy, out)
}

fn tell_read(
    alloc: Global,
    read: &Result<Option<AsyncMessage>, Error>,
    out: &mut String,
) -> Result<(), AllocError> {
    match read {
        Ok(Some(aside)) => tell_copy(alloc, aside, out),
        Ok(None) => out.push_str(" no message aside"),
        Err(error) => db_errors::tell_refusal(error, out),
    }
}

fn tell_message(alloc: Global, message: &Message, out: &mut String) -> Result<(), AllocError> {
    let read = AsyncMessage::read(alloc, message);
    tell_read(alloc, &read, out)
}

/// What a message aside says.
pub(crate) fn tell(
    alloc: Global,
    message: &Result<Option<Message>, WireFault>,
    out: &mut String,
) -> Result<(), AllocError> {
    match message {
        Ok(Some(message)) => tell_message(alloc, message, out),
        _ => out.push_str(" no message"),
    }
}
