//! The states of opening a connection.

ghost use Rattle.std.specs.Prelude.{◌<◌, ◌≤◌, ◌^◌};

use crate::tls::TlsConnect;
use crate::{ConnectTls, MaybeTls, SessionInfo, StreamOf};
use pg_config::Config;
use pg_connect::Connection;
use pg_startup::Startup;
use pg_types::Blob;

/// By what a connection is opened, beside its link and its connector.
#[derive(Drop)]
pub struct OpenSettings<'a> {
    pub config: &'a Config,
    /// The client's nonce, for a login that asks for a proof of the password.
    pub nonce: &'a [u8],
    /// The host has a name, for which its certificate can stand.
    pub has_hostname: bool,
    /// The most bytes that the link, or the stream over it, may give.
    pub max_bytes: u64,
    ghost small: { max_bytes < 2 ^ 63 },
}

/// A startup over the link or stream that the choice of TLS gave.
#[derive(Drop)]
pub struct Starting<'a, K> {
    pub link: K,
    pub startup: Startup<'a>,
    /// How many bytes the link gave before it: the one that answers an SSLRequest, or none.
    pub asked: u64,
    ghost small: { startup.bytes.max_bytes < 2 ^ 63 },
    ghost within: { startup.bytes.given ≤ startup.bytes.max_bytes },
}

/// Where opening a connection stands.
#[derive(Drop)]
pub enum OpenStage<'a, L, T: TlsConnect<L>> {
    /// Nothing was begun. Settings or a nonce that can't start up leave the link so.
    Fresh(L, T),
    /// The choice of TLS goes on, or ended by an error.
    Choosing(ConnectTls<L, T>),
    /// The startup goes on over what the choice gave.
    Starting(Starting<'a, MaybeTls<L, StreamOf<L, T>>>),
    /// It has answered. With the link or stream, where an error of the startup left it.
    Over(Option<MaybeTls<L, StreamOf<L, T>>>),
}

/// A connection that is opened, with its link and its connector.
#[derive(Drop)]
pub struct ConnectRaw<'a, L, T: TlsConnect<L>> {
    pub settings: OpenSettings<'a>,
    /// In the last poll the link or stream gave or took a byte, or a handshake was polled, if that was Pending.
    pub moved: bool,
    pub stage: OpenStage<'a, L, T>,
}

/// A connection behind its startup.
#[derive(Drop)]
pub struct Opened<L, T: TlsConnect<L>> {
    /// By what it can be cancelled.
    pub info: SessionInfo,
    /// What was sent in the startup: the SSLRequest, if the server was asked for TLS, and the frames.
    pub sent: Blob,
    pub connection: Connection<MaybeTls<L, StreamOf<L, T>>>,
}
