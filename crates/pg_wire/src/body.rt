//! The bodies of messages, each with what its layout holds (PostgreSQL documentation, "Message Formats").

ghost use Rattle.std.specs.Prelude.{◌≡◌, true, false, MatchResult, IfOk, IfErr, is_ok};
ghost use Rattle.std.specs.Str.{is_utf8};

use crate::texts::{TextPair, utf8};
use bytes::Bytes;
use pg_types::WireFault;
use std::marker::Model;
use std::str;

/// What a server of GSS answers.
#[derive(Drop)]
pub struct AuthenticationGssContinueBody {
    pub(crate) data: Bytes,
}

/// The salt of an MD5 password.
#[derive(Drop)]
pub struct AuthenticationMd5PasswordBody {
    pub(crate) salt: [u8; 4],
}

/// The mechanisms of SASL that the server offers.
#[derive(Drop)]
pub struct AuthenticationSaslBody {
    pub(crate) mechanisms: Bytes,
}

/// The server's challenge.
#[derive(Drop)]
pub struct AuthenticationSaslContinueBody {
    pub(crate) data: Bytes,
}

/// The server's proof.
#[derive(Drop)]
pub struct AuthenticationSaslFinalBody {
    pub(crate) data: Bytes,
}

/// By which a query can be cancelled.
#[derive(Drop)]
pub struct BackendKeyDataBody {
    pub(crate) process_id: i32,
    pub(crate) secret_key: i32,
}

/// What a command did.
#[derive(Drop)]
pub struct CommandCompleteBody {
    pub(crate) tag: Bytes,
}

/// A piece of a copy.
#[derive(Drop)]
pub struct CopyDataBody {
    pub(crate) data: Bytes,
}

/// The formats of a copy to the server. They aren't read.
#[derive(Drop)]
pub struct CopyInResponseBody {
    pub(crate) formats: Bytes,
}

/// The formats of a copy from the server. They aren't read.
#[derive(Drop)]
pub struct CopyOutResponseBody {
    pub(crate) formats: Bytes,
}

/// A row: how many cells, and the bytes that hold them.
#[derive(Drop)]
pub struct DataRowBody {
    pub(crate) count: u16,
    pub(crate) cells: Bytes,
}

/// The fields of an error or a notice.
#[derive(Drop)]
pub struct ErrorResponseBody {
    pub(crate) fields: Bytes,
}

/// A notification of another session.
#[derive(Drop)]
pub struct NotificationResponseBody {
    pub(crate) process_id: i32,
    pub(crate) texts: TextPair,
}

impl Model for NotificationResponseBody {
    ghost use Rattle.pg_wire.specs.Bodies.{Notified};

    ghost Value = { Notified };

    ghost view = { λ b. record { process_id = b.process_id; channel = b.texts.first; payload = b.texts.second } };
}

/// The types of a statement's parameters: how many, and the bytes that hold them.
#[derive(Drop)]
pub struct ParameterDescriptionBody {
    pub(crate) count: u16,
    pub(crate) oids: Bytes,
}

/// A setting of the server.
#[derive(Drop)]
pub struct ParameterStatusBody {
    pub(crate) texts: TextPair,
}

impl Model for ParameterStatusBody {
    ghost use Rattle.pg_wire.specs.Bodies.{Setting};

    ghost Value = { Setting };

    ghost view = { λ b. record { name = b.texts.first; value = b.texts.second } };
}

/// Whether a transaction is open.
#[derive(Drop)]
pub struct ReadyForQueryBody {
    pub(crate) status: u8,
}

/// The columns of the rows that follow: how many, and the bytes that hold them.
#[derive(Drop)]
pub struct RowDescriptionBody {
    pub(crate) count: u16,
    pub(crate) fields: Bytes,
}

impl AuthenticationGssContinueBody {
    /// What is passed on to GSS.
    pub fn data(&self) -> &[u8]
        ensures { result.now ≡ self.now.data }
    {
        self.data.as_slice()
    }
}

impl AuthenticationMd5PasswordBody {
    /// What the password's digest is mixed with.
    pub fn salt(&self) -> [u8; 4]
        ensures { result ≡ self.now.salt }
    {
        self.salt
    }
}

impl AuthenticationSaslContinueBody {
    /// The challenge as the server wrote it.
    pub fn data(&self) -> &[u8]
        ensures { result.now ≡ self.now.data }
    {
        self.data.as_slice()
    }
}

impl AuthenticationSaslFinalBody {
    /// The proof as the server wrote it.
    pub fn data(&self) -> &[u8]
        ensures { result.now ≡ self.now.data }
    {
        self.data.as_slice()
    }
}

impl BackendKeyDataBody {
    /// The process that serves this session.
    pub fn process_id(&self) -> i32
        ensures { result ≡ self.now.process_id }
    {
        self.process_id
    }

    /// The key without which the server cancels nothing.
    pub fn secret_key(&self) -> i32
        ensures { result ≡ self.now.secret_key }
    {
        self.secret_key
    }
}

impl CommandCompleteBody {
    /// What the command was and on how many rows it acted. NotUtf8 comes where it isn't UTF-8.
    pub fn tag(&self) -> Result<&str, WireFault>
        ensures { MatchResult result
            (λ text. (text.now ≡ self.now.tag) × (is_utf8 self.now.tag ≡ true))
            (λ fault. (fault ≡ WireFault.NotUtf8) × (is_utf8 self.now.tag ≡ false)) }
    {
        utf8(self.tag.as_slice())
    }
}

impl CopyDataBody {
    /// The piece.
    pub fn data(&self) -> &[u8]
        ensures { result.now ≡ self.now.data }
    {
        self.data.as_slice()
    }

    /// The piece, in the bytes that were received.
    pub fn into_bytes(self) -> Bytes
        ensures { result ≡ self.data }
    {
        let CopyDataBody { data } = self;
        data
    }
}

impl NotificationResponseBody {
    /// The process of the session that notified.
    pub fn process_id(&self) -> i32
        ensures { result ≡ self.now.process_id }
    {
        self.process_id
    }

    /// The channel's name. NotUtf8 comes where it isn't UTF-8.
    pub fn channel(&self) -> Result<&str, WireFault>
        ensures { MatchResult result
            (λ text. (text.now ≡ self.now.channel) × (is_utf8 self.now.channel ≡ true))
            (λ fault. (fault ≡ WireFault.NotUtf8) × (is_utf8 self.now.channel ≡ false)) }
    {
        utf8(self.texts.first())
    }

    /// The payload. NotUtf8 comes where it isn't UTF-8.
    pub fn message(&self) -> Result<&str, WireFault>
        ensures { MatchResult result
            (λ text. (text.now ≡ self.now.payload) × (is_utf8 self.now.payload ≡ true))
            (λ fault. (fault ≡ WireFault.NotUtf8) × (is_utf8 self.now.payload ≡ false)) }
    {
        utf8(self.texts.second())
    }
}

impl ParameterStatusBody {
    /// The setting's name. NotUtf8 comes exactly where it isn't UTF-8.
    pub fn name(&self) -> Result<&str, WireFault>
        ensures text { IfOk result (λ text. text.now ≡ self.now.name) }
        ensures utf8 { is_ok result ≡ is_utf8 self.now.name }
        ensures fault { IfErr result (λ fault. fault ≡ WireFault.NotUtf8) }
    {
        text_of(self.texts.first())
    }

    /// Its value. NotUtf8 comes exactly where it isn't UTF-8.
    pub fn value(&self) -> Result<&str, WireFault>
        ensures text { IfOk result (λ text. text.now ≡ self.now.value) }
        ensures utf8 { is_ok result ≡ is_utf8 self.now.value }
        ensures fault { IfErr result (λ fault. fault ≡ WireFault.NotUtf8) }
    {
        text_of(self.texts.second())
    }
}

/// The bytes as a text.
fn text_of(bytes: &[u8]) -> Result<&str, WireFault>
    ensures text { IfOk result (λ text. text.now ≡ bytes.now) }
    ensures utf8 { is_ok result ≡ is_utf8 bytes.now }
    ensures fault { IfErr result (λ fault. fault ≡ WireFault.NotUtf8) }
{
    match str::from_utf8(bytes) {
        Ok(text) => Ok(text),
        Err(_) => Err(WireFault::NotUtf8),
    }
}

impl ReadyForQueryBody {
    /// `I` outside a transaction, `T` in one, `E` in one that failed.
    pub fn status(&self) -> u8
        ensures { result ≡ self.now.status }
    {
        self.status
    }
}
