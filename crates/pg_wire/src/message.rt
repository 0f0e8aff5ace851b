//! Messages of the server.

ghost use Rattle.std.specs.Prelude.{◌≡◌};
ghost use Rattle.pg_wire.specs.Messages.{error_body_of, notice_body_of, row_body_of};
ghost use Rattle.pg_wire.specs.Parse.{Parses};

use crate::body::{
    AuthenticationGssContinueBody, AuthenticationMd5PasswordBody, AuthenticationSaslBody,
    AuthenticationSaslContinueBody, AuthenticationSaslFinalBody, BackendKeyDataBody,
    CommandCompleteBody, CopyDataBody, CopyInResponseBody, CopyOutResponseBody, DataRowBody,
    ErrorResponseBody, NotificationResponseBody, ParameterDescriptionBody, ParameterStatusBody,
    ReadyForQueryBody, RowDescriptionBody,
};
use crate::front::{Found, front};
use crate::layout::message_of;
use bytes::Bytes;
use pg_types::WireFault;

/// A message of the server, its parts not yet read (PostgreSQL documentation, "Message Formats").
pub enum Message {
    AuthenticationCleartextPassword,
    AuthenticationGss,
    AuthenticationGssContinue(AuthenticationGssContinueBody),
    AuthenticationKerberosV5,
    AuthenticationMd5Password(AuthenticationMd5PasswordBody),
    AuthenticationOk,
    AuthenticationSasl(AuthenticationSaslBody),
    AuthenticationSaslContinue(AuthenticationSaslContinueBody),
    AuthenticationSaslFinal(AuthenticationSaslFinalBody),
    AuthenticationScmCredential,
    AuthenticationSspi,
    BackendKeyData(BackendKeyDataBody),
    BindComplete,
    CloseComplete,
    CommandComplete(CommandCompleteBody),
    CopyData(CopyDataBody),
    CopyDone,
    CopyInResponse(CopyInResponseBody),
    CopyOutResponse(CopyOutResponseBody),
    DataRow(DataRowBody),
    EmptyQueryResponse,
    ErrorResponse(ErrorResponseBody),
    NoData,
    NoticeResponse(ErrorResponseBody),
    NotificationResponse(NotificationResponseBody),
    ParameterDescription(ParameterDescriptionBody),
    ParameterStatus(ParameterStatusBody),
    ParseComplete,
    PortalSuspended,
    ReadyForQuery(ReadyForQueryBody),
    RowDescription(RowDescriptionBody),
}

impl Drop for Message {
    fn drop(self) {
        match self {
            Message::AuthenticationGssContinue(_it) => {}
            Message::AuthenticationMd5Password(_it) => {}
            Message::AuthenticationSasl(_it) => {}
            Message::AuthenticationSaslContinue(_it) => {}
            Message::AuthenticationSaslFinal(_it) => {}
            Message::BackendKeyData(_it) => {}
            Message::CommandComplete(_it) => {}
            Message::CopyData(_it) => {}
            Message::CopyInResponse(_it) => {}
            Message::CopyOutResponse(_it) => {}
            Message::DataRow(_it) => {}
            Message::ErrorResponse(_it) => {}
            Message::NoticeResponse(_it) => {}
            Message::NotificationResponse(_it) => {}
            Message::ParameterDescription(_it) => {}
            Message::ParameterStatus(_it) => {}
            Message::ReadyForQuery(_it) => {}
            Message::RowDescription(_it) => {}
            Message::AuthenticationCleartextPassword
            | Message::AuthenticationGss
            | Message::AuthenticationKerberosV5
            | Message::AuthenticationOk
            | Message::AuthenticationScmCredential
            | Message::AuthenticationSspi
            | Message::BindComplete
            | Message::CloseComplete
            | Message::CopyDone
            | Message::EmptyQueryResponse
            | Message::NoData
            | Message::ParseComplete
            | Message::PortalSuspended => {}
        }
    }
}

impl Message {
    /// Cuts one whole message off the front. None comes where no whole message stands there, BadLength
    /// where none does and the header there is below 4, UnknownTag for a tag that no message has, Layout
    /// where the body breaks its layout. After None or an error the bytes are as before. It copies no byte.
    pub fn parse(buf: &mut Bytes) -> Result<Option<Message>, WireFault>
        ensures { Parses buf.old buf.new result }
    {
        let n = match front(buf.as_slice()) {
            Found::Whole(n) => n,
            Found::Short => return Ok(None),
            Found::Bad => return Err(WireFault::BadLength),
        };
        let tag = buf.as_slice()[0];
        let body = buf.slice(5..n)?;
        let message = message_of(tag, body)?;
        buf.advance(n);
        Ok(Some(message))
    }

    /// The body of a row. None: it is another message.
    pub fn row_body(self) -> Option<DataRowBody>
        ensures { result ≡ row_body_of self }
    {
        match self {
            Message::DataRow(body) => Some(body),
            other => {
                drop(other);
                None
            }
        }
    }

    /// The body of an error. None: it is another message.
    pub fn error_body(self) -> Option<ErrorResponseBody>
        ensures { result ≡ error_body_of self }
    {
        match self {
            Message::ErrorResponse(body) => Some(body),
            other => {
                drop(other);
                None
            }
        }
    }

    /// The body of a notice. None: it is another message.
    pub fn notice_body(self) -> Option<ErrorResponseBody>
        ensures { result ≡ notice_body_of self }
    {
        match self {
            Message::NoticeResponse(body) => Some(body),
            other => {
                drop(other);
                None
            }
        }
    }
}
