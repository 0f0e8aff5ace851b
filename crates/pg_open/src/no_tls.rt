//! The connector that can't connect.

ghost use Rattle.std.specs.Prelude.{◌≡◌, Ok, Err};
ghost use Rattle.futures.specs.declared.task.Poll.TheVariants.{Ready};

use crate::tls::{
    ChannelBinding, ForcePrivateApi, MakeTlsConnect, TlsConnect, TlsHandshake, TlsStream,
};
use futures::task::Poll;
use pg_types::OutOfMemory;
use pg_wire::{Link, LinkRead, LinkStep, LinkWait, LinkWrite};
use std::alloc::Global;
use thiserror::Error;

/// A connector that can't connect, for a session without TLS: where `sslmode` is `disable` or `prefer`.
#[derive(Clone, Copy, Debug, Drop)]
pub struct NoTls;

/// The handshake of `NoTls`, which answers NoTlsError at once.
#[derive(Drop)]
pub struct NoTlsFuture<L> {
    /// The link that was handed in.
    link: L,
}

/// The stream of `NoTls`. Its handshake never gives one; it would be the link as it is.
#[derive(Drop)]
pub struct NoTlsStream<L> {
    link: L,
}

/// `NoTls` was to connect.
#[derive(Debug, Drop, Error)]
#[error("no TLS implementation configured")]
pub struct NoTlsError(());

impl<L: Link> Link for NoTlsStream<L> {
    ghost view = { λ s. L.view s.link };

    fn read(&mut self, out: &mut [u8]) -> LinkRead {
        self.link.read(out)
    }

    fn write(&mut self, bytes: &[u8]) -> LinkWrite {
        self.link.write(bytes)
    }

    fn flush(&mut self) -> LinkStep {
        self.link.flush()
    }

    fn shutdown(&mut self) -> LinkStep {
        self.link.shutdown()
    }

    fn wait(&mut self) -> LinkWait {
        self.link.wait()
    }

    fn quiet(&self) -> u64 {
        self.link.quiet()
    }

    ghost tells = { λ s. L.tells s.link };
}

impl<L: Link> TlsStream for NoTlsStream<L> {
    ghost use Rattle.std.specs.Prelude.{None};

    ghost binding = { λ s. None };

    fn channel_binding(&self, alloc: Global) -> Result<ChannelBinding, OutOfMemory> {
        Ok(ChannelBinding::none())
    }
}

impl<L: Link + Drop> TlsHandshake for NoTlsFuture<L> {
    type Stream = NoTlsStream<L>;

    type Error = NoTlsError;

    ghost use Rattle.pg_open.specs.declared.no_tls.NoTlsError.{NoTlsError};

    // It fails at once, and whenever it is polled.
    ghost polled = { λ old new answer. (e : NoTlsError) × (answer ≡ Ready (Err e)) };

    fn poll(&mut self) -> Poll<Result<NoTlsStream<L>, NoTlsError>> {
        Poll::Ready(Err(NoTlsError(())))
    }
}

impl<L: Link + Drop> TlsConnect<L> for NoTls {
    type Future = NoTlsFuture<L>;

    ghost use Rattle.std.specs.Prelude.{false, ⊤};

    ghost connects = { λ c. false };

    // All its handshakes are alike.
    ghost begins = { λ c link future. ⊤ };

    fn can_connect(&self, api: ForcePrivateApi) -> bool {
        false
    }

    fn connect(self, link: L) -> NoTlsFuture<L> {
        NoTlsFuture { link }
    }
}

impl<L: Link + Drop> MakeTlsConnect<L> for NoTls {
    type TlsConnect = NoTls;

    type Error = NoTlsError;

    ghost use Rattle.pg_open.specs.declared.no_tls.NoTls.{NoTls};

    // It always makes one.
    ghost makes = { λ old new domain answer. (connector : NoTls) × (answer ≡ Ok connector) };

    fn make_tls_connect(&mut self, domain: &str) -> Result<NoTls, NoTlsError> {
        Ok(NoTls)
    }
}
