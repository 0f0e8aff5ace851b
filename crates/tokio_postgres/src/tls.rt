//! TLS over a link. The handshake is the connector's own.

pub use pg_open::tls::{
    ChannelBinding, ForcePrivateApi, MakeTlsConnect, NoTls, NoTlsError, NoTlsFuture, NoTlsStream,
    TlsConnect, TlsHandshake, TlsStream,
};
