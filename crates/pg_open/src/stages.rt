//! The states of a choice of TLS.

ghost use Rattle.std.specs.Prelude.{◌<◌, ◌≤◌, ◌^◌};

use crate::tls::{TlsConnect, TlsHandshake};
use pg_config::{SslMode, SslNegotiation};
use pg_startup::SslRequest;

/// The most bytes that a link may give where its caller sets no limit.
pub const NO_LIMIT: u64 = 9_223_372_036_854_775_807;

/// The stream that a connector's handshake gives.
pub type StreamOf<L, T> = <<T as TlsConnect<L>>::Future as TlsHandshake>::Stream;

/// By what the choice is made, beside the connector.
#[derive(Clone, Copy, Debug, Drop)]
pub struct TlsSettings {
    pub mode: SslMode,
    pub negotiation: SslNegotiation,
    /// The host has a name, for which its certificate can stand.
    pub has_hostname: bool,
    /// The most bytes that the link may give. Past 2^63 - 1 it counts as that.
    pub max_bytes: u64,
}

/// The server of a link is asked for TLS.
#[derive(Drop)]
pub struct Question<L, T> {
    pub link: L,
    /// What makes TLS over the link, if the server has it.
    pub tls: T,
    pub request: SslRequest,
    ghost small: { request.bytes.max_bytes < 2 ^ 63 },
    ghost within: { request.bytes.given ≤ request.bytes.max_bytes },
}

/// Where the choice stands.
#[derive(Drop)]
pub enum Stage<L, T: TlsConnect<L>> {
    /// Before the first poll.
    Fresh(L, T),
    /// The server is asked.
    Asking(Question<L, T>),
    /// The handshake has the link. The number is the link's count of calls that weren't ready, as it was before.
    Shaking(T::Future, u64),
    /// It has answered. With the link, where an error other than of the handshake left it.
    Over(Option<L>),
}

/// A choice of TLS, with its link and its connector.
#[derive(Drop)]
pub struct ConnectTls<L, T: TlsConnect<L>> {
    pub settings: TlsSettings,
    /// How many bytes the link gave: the one that answers an SSLRequest, or none.
    pub asked: u64,
    /// In the last poll the link gave or took a byte, or a handshake was polled, if that was Pending.
    pub moved: bool,
    pub stage: Stage<L, T>,
}
