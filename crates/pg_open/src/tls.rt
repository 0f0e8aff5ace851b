//! What makes TLS over a link. The handshake is the connector's own.

ghost use Rattle.std.specs.Prelude.{◌≡◌, ℕ, Bool, List, Option, Result, Some, None, IfOk};
ghost use Rattle.futures.specs.declared.task.Poll.{Poll as PollOf};

pub use crate::no_tls::{NoTls, NoTlsError, NoTlsFuture, NoTlsStream};
use futures::task::Poll;
use pg_types::{Blob, OutOfMemory};
use pg_wire::Link;
use std::alloc::Global;
use std::marker::Model;

/// What `can_connect` is asked with, so that only who connects asks it.
#[derive(Clone, Copy, Debug, Drop)]
pub struct ForcePrivateApi;

/// What a login can be bound to its TLS channel by, seen as the hash of the server's certificate, where there is one
/// (RFC 5929, section 4).
#[derive(Drop)]
pub struct ChannelBinding {
    tls_server_end_point: Option<Blob>,
}

impl Model for ChannelBinding {
    ghost use Rattle.std.specs.Prelude.{ℕ, List, Option};

    ghost Value = { Option (List ℕ) };

    ghost view = { λ b. b.tls_server_end_point };
}

impl ChannelBinding {
    /// Nothing to bind by.
    pub fn none() -> ChannelBinding
        ensures { result ≡ None }
    {
        ChannelBinding {
            tls_server_end_point: None,
        }
    }

    /// The data of `tls-server-end-point`: the hash of the server's certificate.
    pub fn tls_server_end_point(tls_server_end_point: Blob) -> ChannelBinding
        ensures { result ≡ Some tls_server_end_point }
    {
        ChannelBinding {
            tls_server_end_point: Some(tls_server_end_point),
        }
    }

    /// The hash, to be kept.
    pub fn into_hash(self) -> Option<Blob>
        ensures { result ≡ self }
    {
        let ChannelBinding {
            tls_server_end_point,
        } = self;
        tls_server_end_point
    }
}

/// A link through TLS. What crosses it is what the session says: bytes before the cipher.
pub trait TlsStream: Link {
    /// The hash of the server's certificate, where there is one.
    ghost binding: { Self → Option (List ℕ) };

    /// What a login can be bound by. Nothing but want of memory is refused.
    fn channel_binding(&self, alloc: Global) -> Result<ChannelBinding, OutOfMemory>
        ensures { IfOk result (λ b. b ≡ binding self.now) };
}

/// A handshake that has the link. It is polled until it answers, and not again.
pub trait TlsHandshake {
    /// The stream that it gives.
    type Stream: TlsStream + Drop;
    /// Why it gives none.
    type Error: Drop;

    /// What a poll made of it, and answered.
    ghost polled: { Self → Self → PollOf (Result Self.Stream Self.Error) → Type 0 };

    /// The stream, or why there is none.
    fn poll(&mut self) -> Poll<Result<Self::Stream, Self::Error>>
        ensures { polled self.old self.new result };
}

/// A connector: it begins one handshake.
pub trait TlsConnect<L> {
    /// Its handshake, which has the link.
    type Future: TlsHandshake + Drop;

    /// It can connect.
    ghost connects: { Self → Bool };

    /// The handshake is this connector's, over this link.
    ghost begins: { Self → L → Self.Future → Type 0 };

    /// Whether it can connect. Where TLS is only preferred, a connector that can't leaves the link as it is.
    fn can_connect(&self, api: ForcePrivateApi) -> bool
        ensures { result ≡ connects self.now };

    /// Begins the handshake.
    fn connect(self, link: L) -> Self::Future
        ensures { begins self link result };
}

/// What makes a connector for each host.
pub trait MakeTlsConnect<L> {
    /// The connector that it makes.
    type TlsConnect: TlsConnect<L> + Drop;
    /// Why it makes none.
    type Error: Drop;

    /// What it made of itself, and answered for this host's name.
    ghost makes: { Self → Self → List ℕ → Result Self.TlsConnect Self.Error → Type 0 };

    /// A connector to the host of this name, for which its certificate has to stand.
    fn make_tls_connect(&mut self, domain: &str) -> Result<Self::TlsConnect, Self::Error>
        ensures { makes self.old self.new domain.now result };
}
