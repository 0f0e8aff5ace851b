//! A connector in memory: what it gives is a link in memory of its own, beside the one that it was handed.

use futures::task::Poll;
use pg_open::tls::{ChannelBinding, ForcePrivateApi, TlsConnect, TlsHandshake, TlsStream};
use pg_types::{Blob, OutOfMemory};
use pg_wire::{Link, LinkRead, LinkStep, LinkWait, LinkWrite, MemoryLink};
use std::alloc::Global;

/// A connector to a server whose side of the handshake is made up.
#[derive(Drop)]
pub(crate) struct Connector {
    pub(crate) can_connect: bool,
    /// What crosses the stream. None: the handshake fails.
    pub(crate) inside: Option<MemoryLink>,
    /// The hash of the server's certificate.
    pub(crate) hash: Option<Blob>,
}

/// A handshake that is pending twice.
#[derive(Drop)]
pub(crate) struct Handshake {
    link: Option<MemoryLink>,
    connector: Connector,
    pauses: u32,
}

/// The handshake failed.
#[derive(Drop)]
pub(crate) struct HandshakeFault(());

/// A stream that has both links.
#[derive(Drop)]
pub(crate) struct Stream {
    /// The link that the connector was handed.
    pub(crate) under: Option<MemoryLink>,
    pub(crate) inside: MemoryLink,
    hash: Option<Blob>,
}

impl Link for Stream {
    ghost use Rattle.pg_wire.specs.Memory.{link_of, tells as tells_all};

    ghost view = { λ s. link_of s.inside };

    fn read(&mut self, out: &mut [u8]) -> LinkRead {
        self.inside.read(out)
    }

    fn write(&mut self, bytes: &[u8]) -> LinkWrite {
        self.inside.write(bytes)
    }

    fn flush(&mut self) -> LinkStep {
        self.inside.flush()
    }

    fn shutdown(&mut self) -> LinkStep {
        self.inside.shutdown()
    }

    fn wait(&mut self) -> LinkWait {
        self.inside.wait()
    }

    fn quiet(&self) -> u64 {
        self.inside.quiet()
    }

    ghost tells = { λ s. tells_all s.inside };
}

impl TlsStream for Stream {
    ghost binding = { λ s. s.hash };

    fn channel_binding(&self, alloc: Global) -> Result<ChannelBinding, OutOfMemory> {
        match &self.hash {
            Some(hash) => Ok(ChannelBinding::tls_server_end_point(hash.copy(alloc)?)),
            None => Ok(ChannelBinding::none()),
        }
    }
}

impl TlsHandshake for Handshake {
    type Stream = Stream;

    type Error = HandshakeFault;

    ghost use Rattle.std.specs.Prelude.{⊤};

    // Nothing is said of its polls.
    ghost polled = { λ old new answer. ⊤ };

    fn poll(&mut self) -> Poll<Result<Stream, HandshakeFault>> {
        if self.pauses > 0 {
            self.pauses -= 1;
            return Poll::Pending;
        }
        match self.connector.inside.take() {
            Some(inside) => Poll::Ready(Ok(Stream {
                under: self.link.take(),
                inside,
                hash: self.connector.hash.take(),
            })),
            None => Poll::Ready(Err(HandshakeFault(()))),
        }
    }
}

impl TlsConnect<MemoryLink> for Connector {
    type Future = Handshake;

    ghost use Rattle.std.specs.Prelude.{⊤};

    ghost connects = { λ c. c.can_connect };

    // Nothing is said of its handshakes.
    ghost begins = { λ c link handshake. ⊤ };

    fn can_connect(&self, api: ForcePrivateApi) -> bool {
        self.can_connect
    }

    fn connect(self, link: MemoryLink) -> Handshake {
        Handshake {
            link: Some(link),
            connector: self,
            pauses: 2,
        }
    }
}
