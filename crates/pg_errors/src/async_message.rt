//! Messages that no request asked for.

ghost use Rattle.std.specs.Prelude.{◌≡◌, IfOk};
ghost use Rattle.pg_errors.specs.Parsing.{ReadsAside};
ghost use Rattle.pg_errors.specs.Notices.{ReadsNotification};

use crate::db_error::ParseFields;
use pg_types::{Cause, DbError, Error, Held, OutOfMemory, Text};
use pg_wire::{Message, NotificationResponseBody};
use std::alloc::Global;

/// A notification of a session (PostgreSQL documentation, "Asynchronous Operations").
#[derive(Debug, Drop, PartialEq, Eq)]
pub struct Notification {
    process_id: i32,
    channel: Text,
    payload: Text,
}

/// A notice or a notification.
#[derive(Debug, Drop, PartialEq, Eq)]
pub enum AsyncMessage {
    /// What the server says that is no error.
    Notice(Held<DbError>),
    /// What another session, or this one, said on a channel.
    Notification(Notification),
}

impl Notification {
    /// A notification of these parts.
    pub fn new(process_id: i32, channel: Text, payload: Text) -> Notification
        ensures process_id { result.process_id ≡ process_id }
        ensures channel { result.channel ≡ channel }
        ensures payload { result.payload ≡ payload }
    {
        Notification {
            process_id,
            channel,
            payload,
        }
    }

    fn read(alloc: Global, body: &NotificationResponseBody) -> Result<Notification, Error>
        ensures { ReadsNotification body.now result }
    {
        let Ok(channel) = body.channel() else {
            return Err(Error::Parse(Cause::NotUtf8));
        };
        let Ok(payload) = body.message() else {
            return Err(Error::Parse(Cause::NotUtf8));
        };
        let channel = Text::from_str(alloc, channel)?;
        let payload = Text::from_str(alloc, payload)?;
        Ok(Notification::new(body.process_id(), channel, payload))
    }

    /// The process of the session that notified.
    pub fn process_id(&self) -> i32
        ensures { result ≡ self.now.process_id }
    {
        self.process_id
    }

    /// The channel that was notified.
    pub fn channel(&self) -> &str
        ensures { result.now ≡ self.now.channel }
    {
        self.channel.as_str()
    }

    /// What was said, empty where nothing was.
    pub fn payload(&self) -> &str
        ensures { result.now ≡ self.now.payload }
    {
        self.payload.as_str()
    }

    /// An equal notification.
    pub fn copy(&self, alloc: Global) -> Result<Notification, OutOfMemory>
        ensures { IfOk result (λ n. n ≡ self.now) }
    {
        let channel = self.channel.copy(alloc)?;
        let payload = self.payload.copy(alloc)?;
        Ok(Notification {
            process_id: self.process_id,
            channel,
            payload,
        })
    }
}

impl AsyncMessage {
    /// Reads a notice or a notification. None comes exactly where the message is neither, Parse exactly
    /// where its fields can't be read or a text isn't UTF-8.
    pub fn read(alloc: Global, message: &Message) -> Result<Option<AsyncMessage>, Error>
        ensures { ReadsAside message.now result }
    {
        match message {
            Message::NoticeResponse(body) => {
                let notice = DbError::parse(alloc, body)?;
                Ok(Some(AsyncMessage::Notice(Held::new(alloc, notice)?)))
            }
            Message::NotificationResponse(body) => Ok(Some(AsyncMessage::Notification(
                Notification::read(alloc, body)?,
            ))),
            _ => Ok(None),
        }
    }

    /// An equal message.
    pub fn copy(&self, alloc: Global) -> Result<AsyncMessage, OutOfMemory>
        ensures { IfOk result (λ m. m ≡ self.now) }
    {
        match self {
            AsyncMessage::Notice(notice) => {
                let notice = notice.get().copy(alloc)?;
                Ok(AsyncMessage::Notice(Held::new(alloc, notice)?))
            }
            AsyncMessage::Notification(notification) => {
                Ok(AsyncMessage::Notification(notification.copy(alloc)?))
            }
        }
    }
}
