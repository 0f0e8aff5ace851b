//! One message of the server, by the phase that the startup waits in.

ghost use Rattle.std.specs.Prelude.{◌≡◌, ◌&&◌, [], if◌then◌else◌, IsTrue, MatchResult, Ok, Err, Some, None, nat_lt, option_map, unwrap_or};
ghost use Rattle.std.specs.List.{list_all};
ghost use Rattle.std.specs.Str.{is_utf8};
ghost use Rattle.pg_spec.specs.Passwords.{is_nonce, md5_reply, server_final_fault};
ghost use Rattle.pg_spec.specs.Faults.{Authentication, BindingRequired};
ghost use Rattle.pg_spec.specs.Frames as frames;
ghost use Rattle.pg_spec.specs.Messages.{AuthenticationCleartextPassword, AuthenticationMd5Password, AuthenticationSasl};
ghost use Rattle.pg_spec.specs.SimpleQuery as queries;
ghost use Rattle.pg_spec.specs.Startup as startups;
ghost use Rattle.pg_config.specs.Views.{settings_of};
ghost use Rattle.pg_scram.specs.Bindings.{binding_of};
ghost use Rattle.pg_scram.specs.Dialogue.{reply_of};
ghost use Rattle.pg_wire.specs.Messages.{message_view};
ghost use Rattle.pg_startup.specs.Stages.{Holds, login_of, phase_of};
ghost use Rattle.pg_startup.specs.Steps.{IsMove, Made, unreadable_error};

use crate::frames::{initial_frame, password_frame, response_frame};
use crate::mechanisms::{PLAIN, PLUS, offered};
use crate::phase::{Login, Phase, Step};
use bytes::BytesMut;
use pg_config::Config;
use pg_errors::{Cause, DbError, Error, ParseFields};
use pg_scram::{ChannelBinding, ScramFault, ScramSha256, ScramSha256Final, md5_hash};
use pg_types::Blob;
use pg_wire::{AuthenticationSaslBody, ErrorResponseBody, Message, ParameterStatusBody, WireFault};
use std::alloc::Global;

/// What one message makes of a startup that waits in this phase.
pub(crate) fn hear(
    alloc: Global,
    login: &Login<'_>,
    phase: Phase,
    message: &Message,
) -> Result<Step, Error>
    requires nonce { IsTrue (is_nonce login.now.nonce.now) }
    requires holds { Holds (login_of login.now) phase }
    ensures { IsMove (login_of login.now) (startups.startup_message (login_of login.now) (phase_of phase) (message_view message.now)) result }
{
    match phase {
        Phase::First => first(alloc, login, message),
        Phase::Continue(scram) => match message {
            Message::AuthenticationSaslContinue(body) => answer(alloc, scram, body.data()),
            Message::ErrorResponse(body) => Err(server_error(alloc, body)),
            _ => Err(Error::UnexpectedMessage),
        },
        Phase::Final(scram) => match message {
            Message::AuthenticationSaslFinal(body) => verdict(alloc, scram, body.data()),
            Message::ErrorResponse(body) => Err(server_error(alloc, body)),
            _ => Err(Error::UnexpectedMessage),
        },
        Phase::Accepted => match message {
            Message::AuthenticationOk => Ok(Step::Goes(Phase::Info)),
            Message::ErrorResponse(body) => Err(server_error(alloc, body)),
            _ => Err(Error::UnexpectedMessage),
        },
        Phase::Info => info(alloc, message),
    }
}

/// Where an ErrorResponse ends it.
fn server_error(alloc: Global, body: &ErrorResponseBody) -> Error
    ensures { (l : startups.Login) → IsMove l (startups.Refuses (queries.server_error body.now.fields)) (Err result) }
{
    match DbError::parse(alloc, body) {
        Ok(error) => match Error::db(alloc, error) {
            Ok(error) => error,
            Err(_) => Error::OutOfMemory,
        },
        Err(e) => e,
    }
}

/// The server's first message, which asks for a password or for none.
fn first(alloc: Global, login: &Login<'_>, message: &Message) -> Result<Step, Error>
    requires nonce { IsTrue (is_nonce login.now.nonce.now) }
    ensures { IsMove (login_of login.now) (startups.startup_message (login_of login.now) startups.First (message_view message.now)) result }
{
    match message {
        Message::AuthenticationOk => match may_skip(login.config) {
            true => Ok(Step::Goes(Phase::Info)),
            false => Err(Error::Authentication(Cause::BindingRequired)),
        },
        Message::AuthenticationCleartextPassword => cleartext(alloc, login),
        Message::AuthenticationMd5Password(body) => digest(alloc, login, body.salt()),
        Message::AuthenticationSasl(body) => sasl(alloc, login, body),
        Message::AuthenticationKerberosV5 => Err(Error::Authentication(Cause::Method)),
        Message::AuthenticationScmCredential => Err(Error::Authentication(Cause::Method)),
        Message::AuthenticationGss => Err(Error::Authentication(Cause::Method)),
        Message::AuthenticationSspi => Err(Error::Authentication(Cause::Method)),
        Message::ErrorResponse(body) => Err(server_error(alloc, body)),
        _ => Err(Error::UnexpectedMessage),
    }
}

/// The channel needn't be bound.
fn may_skip(config: &Config) -> bool
    ensures { (move : startups.Move) → startups.unless_required (settings_of config.now).channel_binding move
        ≡ (if result then move else startups.Refuses (Authentication BindingRequired)) }
{
    match config.get_channel_binding() {
        pg_config::ChannelBinding::Disable => true,
        pg_config::ChannelBinding::Prefer => true,
        pg_config::ChannelBinding::Require => false,
    }
}

/// A request for the password as it is.
fn cleartext(alloc: Global, login: &Login<'_>) -> Result<Step, Error>
    ensures { IsMove (login_of login.now) (startups.startup_message (login_of login.now) startups.First AuthenticationCleartextPassword) result }
{
    if !may_skip(login.config) {
        return Err(Error::Authentication(Cause::BindingRequired));
    }
    let Some(password) = login.config.get_password() else {
        return Err(Error::Config(Cause::NoPassword));
    };
    let frame = password_frame(alloc, password)?;
    Ok(Step::Sends(frame, Phase::Accepted))
}

/// A request for the password's digest.
fn digest(alloc: Global, login: &Login<'_>, salt: [u8; 4]) -> Result<Step, Error>
    ensures { IsMove (login_of login.now) (startups.startup_message (login_of login.now) startups.First (AuthenticationMd5Password salt)) result }
{
    if !may_skip(login.config) {
        return Err(Error::Authentication(Cause::BindingRequired));
    }
    let Some(password) = login.config.get_password() else {
        return Err(Error::Config(Cause::NoPassword));
    };
    let frame = digest_frame(alloc, login.config, password, salt)?;
    Ok(Step::Sends(frame, Phase::Accepted))
}

/// The frame with the password's digest.
fn digest_frame(
    alloc: Global,
    config: &Config,
    password: &[u8],
    salt: [u8; 4],
) -> Result<BytesMut, Error>
    ensures { MatchResult result
        (λ frame. Made (frames.password_frame (md5_reply (unwrap_or (settings_of config.now).user []) password.now salt)) (Ok frame.items))
        (λ e. Made (frames.password_frame (md5_reply (unwrap_or (settings_of config.now).user []) password.now salt)) (Err e)) }
{
    let Ok(reply) = md5_hash(alloc, user_of(config), password, salt) else {
        return Err(Error::OutOfMemory);
    };
    password_frame(alloc, reply.as_str().as_bytes())
}

/// The user's bytes; none where none is set.
fn user_of(config: &Config) -> &[u8]
    ensures { result.now ≡ unwrap_or (settings_of config.now).user [] }
{
    match config.get_user() {
        Some(user) => user.as_bytes(),
        None => &[],
    }
}

/// A request for a login by SASL.
fn sasl(alloc: Global, login: &Login<'_>, body: &AuthenticationSaslBody) -> Result<Step, Error>
    requires nonce { IsTrue (is_nonce login.now.nonce.now) }
    ensures { IsMove (login_of login.now) (startups.startup_message (login_of login.now) startups.First (AuthenticationSasl body.now.mechanisms)) result }
{
    match login.config.get_password() {
        None => Err(Error::Config(Cause::NoPassword)),
        Some(password) => match offered(body) {
            Ok((plus, plain)) => choose(alloc, login, password, plus, plain),
            Err(fault) => Err(unreadable(fault)),
        },
    }
}

/// The error of a list that can't be read.
fn unreadable(fault: WireFault) -> Error
    ensures { result ≡ unreadable_error fault }
{
    match fault {
        WireFault::OutOfMemory => Error::OutOfMemory,
        WireFault::NotUtf8 => Error::Parse(Cause::NotUtf8),
        _ => Error::Parse(Cause::Wire(fault)),
    }
}

/// Which mechanism is used, and how the channel is bound.
fn choose(
    alloc: Global,
    login: &Login<'_>,
    password: &[u8],
    plus: bool,
    plain: bool,
) -> Result<Step, Error>
    requires nonce { IsTrue (is_nonce login.now.nonce.now) }
    requires password { (settings_of login.now.config.now).password ≡ Some password.now }
    ensures { IsMove (login_of login.now) (startups.uses_scheme (login_of login.now) password.now
        (startups.scheme_of (startups.usable (settings_of login.now.config.now).channel_binding login.now.channel) plus plain)) result }
{
    if !plus && !plain {
        return Err(Error::Authentication(Cause::Mechanism));
    }
    match usable(login) {
        Some(hash) => {
            if plus {
                let Ok(hash) = Blob::from_slice(alloc, hash) else {
                    return Err(Error::OutOfMemory);
                };
                return begin(
                    alloc,
                    login,
                    password,
                    PLUS,
                    ChannelBinding::TlsServerEndPoint(hash),
                );
            }
            if !may_skip(login.config) {
                return Err(Error::Authentication(Cause::BindingRequired));
            }
            begin(alloc, login, password, PLAIN, ChannelBinding::Unrequested)
        }
        None => {
            if !may_skip(login.config) {
                return Err(Error::Authentication(Cause::BindingRequired));
            }
            begin(alloc, login, password, PLAIN, ChannelBinding::Unsupported)
        }
    }
}

/// The data that may bind the channel.
fn usable<'a>(login: &'a Login<'_>) -> Option<&'a [u8]>
    ensures { option_map (λ hash. hash.now) result ≡ startups.usable (settings_of login.now.config.now).channel_binding login.now.channel }
{
    match login.config.get_channel_binding() {
        pg_config::ChannelBinding::Disable => None,
        _ => match &login.channel {
            Some(hash) => Some(hash.as_slice()),
            None => None,
        },
    }
}

/// Each byte is below 128.
fn is_ascii(password: &[u8]) -> bool
    ensures { result ≡ list_all (λ b. nat_lt b 128) password.now }
{
    password.iter().all(|byte| *byte < 128)
}

/// The first message of SCRAM.
fn begin(
    alloc: Global,
    login: &Login<'_>,
    password: &[u8],
    mechanism: &str,
    binding: ChannelBinding,
) -> Result<Step, Error>
    requires nonce { IsTrue (is_nonce login.now.nonce.now) }
    requires password { (settings_of login.now.config.now).password ≡ Some password.now }
    ensures { IsMove (login_of login.now) (startups.writes_first (login_of login.now) password.now (record { mechanism = mechanism.now; binding = binding_of binding })) result }
{
    if !is_ascii(password) {
        return Err(Error::Authentication(Cause::NotAscii));
    }
    let Ok(scram) = ScramSha256::new(alloc, password, binding, login.nonce) else {
        return Err(Error::OutOfMemory);
    };
    let frame = initial_frame(alloc, mechanism, scram.message())?;
    Ok(Step::Sends(frame, Phase::Continue(scram)))
}

/// The reply to the server's challenge.
fn answer(alloc: Global, scram: ScramSha256, challenge: &[u8]) -> Result<Step, Error>
    ensures { (l : startups.Login) → IsMove l (startups.goes_on_sasl (reply_of scram challenge.now)) result }
{
    let last = match scram.update(alloc, challenge) {
        Ok(last) => last,
        Err(ScramFault::OutOfMemory) => return Err(Error::OutOfMemory),
        Err(fault) => return Err(Error::Authentication(Cause::Scram(fault))),
    };
    let frame = response_frame(alloc, last.message())?;
    Ok(Step::Sends(frame, Phase::Final(last)))
}

/// The server's proof.
fn verdict(alloc: Global, scram: ScramSha256Final, proof: &[u8]) -> Result<Step, Error>
    ensures { (l : startups.Login) → IsMove l (startups.accepts_proof (server_final_fault scram.signature proof.now)) result }
{
    match scram.finish(alloc, proof) {
        Ok(()) => Ok(Step::Goes(Phase::Accepted)),
        Err(ScramFault::OutOfMemory) => Err(Error::OutOfMemory),
        Err(fault) => Err(Error::Authentication(Cause::Scram(fault))),
    }
}

/// What comes up to ReadyForQuery.
fn info(alloc: Global, message: &Message) -> Result<Step, Error>
    ensures { (l : startups.Login) → IsMove l (startups.startup_message l startups.Info (message_view message.now)) result }
{
    match message {
        Message::BackendKeyData(_) => Ok(Step::Goes(Phase::Info)),
        Message::NoticeResponse(_) => Ok(Step::Goes(Phase::Info)),
        Message::ParameterStatus(report) => match is_readable(report) {
            true => Ok(Step::Goes(Phase::Info)),
            false => Err(Error::Parse(Cause::NotUtf8)),
        },
        Message::ReadyForQuery(_) => Ok(Step::Done),
        Message::ErrorResponse(body) => Err(server_error(alloc, body)),
        _ => Err(Error::UnexpectedMessage),
    }
}

/// Its name and its value are UTF-8.
fn is_readable(report: &ParameterStatusBody) -> bool
    ensures { result ≡ (is_utf8 report.now.name && is_utf8 report.now.value) }
{
    report.name().is_ok() && report.value().is_ok()
}
