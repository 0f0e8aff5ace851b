//! The layout of each message's body (PostgreSQL documentation, "Message Formats").

ghost use Rattle.std.specs.Prelude.{◌≡◌, true, false};
ghost use Rattle.pg_spec.specs.Messages as spec;
ghost use Rattle.pg_wire.specs.Messages.{message_view};
ghost use Rattle.pg_wire.specs.Layouts.{LaidOut, Means, KeepsLayout, request_of, is_reply_tag};
ghost use Rattle.pg_wire.specs.Fronts.{is_aside_tag};

use crate::body::{
    AuthenticationGssContinueBody, AuthenticationMd5PasswordBody, AuthenticationSaslBody,
    AuthenticationSaslContinueBody, AuthenticationSaslFinalBody, BackendKeyDataBody,
    CommandCompleteBody, CopyDataBody, CopyInResponseBody, CopyOutResponseBody, DataRowBody,
    ErrorResponseBody, NotificationResponseBody, ParameterDescriptionBody, ParameterStatusBody,
    ReadyForQueryBody, RowDescriptionBody,
};
use crate::message::Message;
use crate::texts::{TextPair, pair_end, text_end};
use bytes::{Buf, Bytes};
use pg_types::WireFault;

/// The message of a tag and a body, or what is wrong with them: UnknownTag or Layout.
pub(crate) fn message_of(tag: u8, body: Bytes) -> Result<Message, WireFault>
    ensures { Means (record { tag = tag; body = body }) result }
{
    match tag {
        b'D' => data_row(body),
        b'C' => command_complete(body),
        b'T' => row_description(body),
        b'Z' => ready(body),
        _ => other_message_of(tag, body),
    }
}

/// The same of the other tags. They stand apart because a function pays at each call for the room of all
/// its arms, and most messages are those of a query's reply.
#[inline(never)]
fn other_message_of(tag: u8, body: Bytes) -> Result<Message, WireFault>
    requires { is_reply_tag tag ≡ false }
    ensures { Means (record { tag = tag; body = body }) result }
{
    match tag {
        b'R' => authentication(body),
        b'K' => key_data(body),
        b'S' => parameter(body),
        b'N' => Ok(Message::NoticeResponse(ErrorResponseBody { fields: body })),
        b'A' => notification(body),
        b'I' => alone(Message::EmptyQueryResponse, body),
        b'E' => Ok(Message::ErrorResponse(ErrorResponseBody { fields: body })),
        b'1' => alone(Message::ParseComplete, body),
        b'2' => alone(Message::BindComplete, body),
        b'3' => alone(Message::CloseComplete, body),
        b'n' => alone(Message::NoData, body),
        b's' => alone(Message::PortalSuspended, body),
        b'c' => alone(Message::CopyDone, body),
        b't' => parameter_description(body),
        b'G' => copy_in(body),
        b'H' => copy_out(body),
        b'd' => Ok(Message::CopyData(CopyDataBody { data: body })),
        _ => Err(WireFault::UnknownTag),
    }
}

/// Whether the body of a message aside keeps its layout.
pub(crate) fn is_laid_out(tag: u8, body: &[u8]) -> bool
    requires { is_aside_tag tag ≡ true }
    ensures { KeepsLayout (record { tag = tag; body = body.now }) result }
{
    if tag == b'N' {
        return true;
    }
    if tag == b'S' {
        return pair_end(body).is_some();
    }
    if body.len() < 4 {
        return false;
    }
    pair_end(&body[4..]).is_some()
}

/// Nothing may follow.
fn alone(message: Message, body: Bytes) -> Result<Message, WireFault>
    ensures { LaidOut (spec.alone (message_view message) body) result }
{
    if body.is_empty() {
        Ok(message)
    } else {
        Err(WireFault::Layout)
    }
}

fn authentication(mut body: Bytes) -> Result<Message, WireFault>
    ensures { LaidOut (spec.authentication body) result }
{
    match body.try_get_u32() {
        Ok(code) => requested(code, body),
        Err(_) => Err(WireFault::Layout),
    }
}

/// What an authentication request asks for, by its code.
fn requested(code: u32, body: Bytes) -> Result<Message, WireFault>
    ensures { LaidOut (request_of code body) result }
{
    match code {
        0 => alone(Message::AuthenticationOk, body),
        2 => alone(Message::AuthenticationKerberosV5, body),
        3 => alone(Message::AuthenticationCleartextPassword, body),
        5 => md5_password(body),
        6 => alone(Message::AuthenticationScmCredential, body),
        7 => alone(Message::AuthenticationGss, body),
        8 => Ok(Message::AuthenticationGssContinue(AuthenticationGssContinueBody { data: body })),
        9 => alone(Message::AuthenticationSspi, body),
        10 => Ok(Message::AuthenticationSasl(AuthenticationSaslBody { mechanisms: body })),
        11 => Ok(Message::AuthenticationSaslContinue(AuthenticationSaslContinueBody {
            data: body,
        })),
        12 => Ok(Message::AuthenticationSaslFinal(AuthenticationSaslFinalBody { data: body })),
        _ => Err(WireFault::Layout),
    }
}

fn md5_password(body: Bytes) -> Result<Message, WireFault>
    ensures { LaidOut (request_of 5 body) result }
{
    let [a, b, c, d] = *body.as_slice() else {
        return Err(WireFault::Layout);
    };
    Ok(Message::AuthenticationMd5Password(AuthenticationMd5PasswordBody { salt: [a, b, c, d] }))
}

fn key_data(mut body: Bytes) -> Result<Message, WireFault>
    ensures { LaidOut (spec.key_data body) result }
{
    let process_id = match body.try_get_i32() {
        Ok(process_id) => process_id,
        Err(_) => return Err(WireFault::Layout),
    };
    let secret_key = match body.try_get_i32() {
        Ok(secret_key) => secret_key,
        Err(_) => return Err(WireFault::Layout),
    };
    alone(
        Message::BackendKeyData(BackendKeyDataBody {
            process_id,
            secret_key,
        }),
        body,
    )
}

fn ready(body: Bytes) -> Result<Message, WireFault>
    ensures { LaidOut (spec.ready body) result }
{
    let [status] = *body.as_slice() else {
        return Err(WireFault::Layout);
    };
    Ok(Message::ReadyForQuery(ReadyForQueryBody { status }))
}

fn parameter(body: Bytes) -> Result<Message, WireFault>
    ensures { LaidOut (spec.parameter body) result }
{
    match TextPair::read(body) {
        Some(texts) => Ok(Message::ParameterStatus(ParameterStatusBody { texts })),
        None => Err(WireFault::Layout),
    }
}

fn notification(mut body: Bytes) -> Result<Message, WireFault>
    ensures { LaidOut (spec.notification body) result }
{
    let process_id = match body.try_get_i32() {
        Ok(process_id) => process_id,
        Err(_) => return Err(WireFault::Layout),
    };
    match TextPair::read(body) {
        Some(texts) => Ok(Message::NotificationResponse(NotificationResponseBody {
            process_id,
            texts,
        })),
        None => Err(WireFault::Layout),
    }
}

fn row_description(mut body: Bytes) -> Result<Message, WireFault>
    ensures { LaidOut (spec.counted spec.RowDescription body) result }
{
    match body.try_get_u16() {
        Ok(count) => Ok(Message::RowDescription(RowDescriptionBody {
            count,
            fields: body,
        })),
        Err(_) => Err(WireFault::Layout),
    }
}

fn data_row(mut body: Bytes) -> Result<Message, WireFault>
    ensures { LaidOut (spec.counted spec.DataRow body) result }
{
    let [a, b, ..] = *body.as_slice() else {
        return Err(WireFault::Layout);
    };
    body.advance(2);
    Ok(Message::DataRow(DataRowBody {
        count: u16::from_be_bytes([a, b]),
        cells: body,
    }))
}

fn parameter_description(mut body: Bytes) -> Result<Message, WireFault>
    ensures { LaidOut (spec.counted spec.ParameterDescription body) result }
{
    match body.try_get_u16() {
        Ok(count) => Ok(Message::ParameterDescription(ParameterDescriptionBody {
            count,
            oids: body,
        })),
        Err(_) => Err(WireFault::Layout),
    }
}

fn command_complete(mut body: Bytes) -> Result<Message, WireFault>
    ensures { LaidOut (spec.text_alone spec.CommandComplete body) result }
{
    let end = match text_end(body.as_slice()) {
        Some(end) => end,
        None => return Err(WireFault::Layout),
    };
    if end + 1 < body.len() {
        return Err(WireFault::Layout);
    }
    body.truncate(end);
    Ok(Message::CommandComplete(CommandCompleteBody { tag: body }))
}

fn copy_in(body: Bytes) -> Result<Message, WireFault>
    ensures { LaidOut (spec.copying spec.CopyInResponse body) result }
{
    if body.len() < 3 {
        return Err(WireFault::Layout);
    }
    Ok(Message::CopyInResponse(CopyInResponseBody { formats: body }))
}

fn copy_out(body: Bytes) -> Result<Message, WireFault>
    ensures { LaidOut (spec.copying spec.CopyOutResponse body) result }
{
    if body.len() < 3 {
        return Err(WireFault::Layout);
    }
    Ok(Message::CopyOutResponse(CopyOutResponseBody { formats: body }))
}
