//! The states of a cancelling, and what a session is known by.

use crate::tls::TlsConnect;
use crate::{ConnectTls, MaybeTls, StreamOf};
use pg_config::{SslMode, SslNegotiation};
use pg_startup::Transfer;

/// What a session is known by to its server, and how its link was chosen.
#[derive(Clone, Copy, Drop)]
pub struct SessionInfo {
    /// The server's process. 0 where the server told none.
    pub process_id: i32,
    /// The key that cancels what it does. 0 where the server told none.
    pub secret_key: i32,
    pub ssl_mode: SslMode,
    pub ssl_negotiation: SslNegotiation,
}

/// What cancels the request that a session waits for.
#[derive(Clone, Copy, Drop)]
pub struct CancelToken {
    pub info: SessionInfo,
}

/// Where a cancelling stands.
#[derive(Drop)]
pub enum CancelStage<L, T: TlsConnect<L>> {
    /// The choice of TLS goes on, or ended by an error.
    Choosing(ConnectTls<L, T>),
    /// The CancelRequest is sent over what the choice gave.
    Sending(MaybeTls<L, StreamOf<L, T>>, Transfer),
    /// It has answered. With the link or stream, as it is left.
    Over(Option<MaybeTls<L, StreamOf<L, T>>>),
}

/// A cancelling, with its link and its connector.
#[derive(Drop)]
pub struct CancelQuery<L, T: TlsConnect<L>> {
    /// The session that it is for.
    pub info: SessionInfo,
    pub stage: CancelStage<L, T>,
}
