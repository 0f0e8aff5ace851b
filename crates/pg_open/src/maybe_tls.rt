//! A link that is raw, or a stream of TLS.

ghost use Rattle.pg_open.specs.Links.{binding_of, view_of};

use crate::tls::{ChannelBinding, TlsStream};
use pg_types::OutOfMemory;
use pg_wire::{Link, LinkRead, LinkStep, LinkWait, LinkWrite};
use std::alloc::Global;

/// A raw link, or a stream of TLS over one. Each call is that of the link that it is.
#[derive(Drop)]
pub enum MaybeTls<L, S> {
    Raw(L),
    Tls(S),
}

impl<L: Link, S: Link> Link for MaybeTls<L, S> {
    ghost use Rattle.pg_wire.specs.LinkCalls.{Tells};
    ghost use Rattle.pg_open.specs.declared.maybe_tls.MaybeTls.TheVariants.{Raw, Tls};

    ghost view = { view_of L.view S.view };

    fn read(&mut self, out: &mut [u8]) -> LinkRead {
        match self {
            MaybeTls::Raw(link) => link.read(out),
            MaybeTls::Tls(stream) => stream.read(out),
        }
    }

    fn write(&mut self, bytes: &[u8]) -> LinkWrite {
        match self {
            MaybeTls::Raw(link) => link.write(bytes),
            MaybeTls::Tls(stream) => stream.write(bytes),
        }
    }

    fn flush(&mut self) -> LinkStep {
        match self {
            MaybeTls::Raw(link) => link.flush(),
            MaybeTls::Tls(stream) => stream.flush(),
        }
    }

    fn shutdown(&mut self) -> LinkStep {
        match self {
            MaybeTls::Raw(link) => link.shutdown(),
            MaybeTls::Tls(stream) => stream.shutdown(),
        }
    }

    fn wait(&mut self) -> LinkWait {
        match self {
            MaybeTls::Raw(link) => link.wait(),
            MaybeTls::Tls(stream) => stream.wait(),
        }
    }

    fn quiet(&self) -> u64 {
        match self {
            MaybeTls::Raw(link) => link.quiet(),
            MaybeTls::Tls(stream) => stream.quiet(),
        }
    }

    ghost tells = { λ m. elim m as (λ k. Tells (view_of L.view S.view k)) [ Raw link ↦ L.tells link | Tls stream ↦ S.tells stream ] };
}

impl<L: Link, S: TlsStream> TlsStream for MaybeTls<L, S> {
    ghost binding = { binding_of S.binding };

    fn channel_binding(&self, alloc: Global) -> Result<ChannelBinding, OutOfMemory> {
        match self {
            MaybeTls::Raw(_) => Ok(ChannelBinding::none()),
            MaybeTls::Tls(stream) => stream.channel_binding(alloc),
        }
    }
}
