//! How the dialogue is bound to its channel (RFC 5802, section 6).

ghost use Rattle.std.specs.Prelude.{◌≡◌};
ghost use Rattle.pg_spec.specs.Bindings as spec;
ghost use Rattle.pg_scram.specs.Bindings.{binding_of};

use pg_types::Blob;

/// The channel binding of a SCRAM dialogue.
#[derive(Drop)]
pub enum ChannelBinding {
    /// The client doesn't support it.
    Unsupported,
    /// The client supports it, and the server doesn't offer it.
    Unrequested,
    /// The hash of the server's certificate (RFC 5929, section 4).
    TlsServerEndPoint(Blob),
}

impl ChannelBinding {
    /// The header of the client's first message.
    pub(crate) fn gs2_header(&self) -> &'static [u8]
        ensures { result.now ≡ spec.gs2_header (binding_of self.now) }
    {
        match self {
            ChannelBinding::Unsupported => b"n,,",
            ChannelBinding::Unrequested => b"y,,",
            ChannelBinding::TlsServerEndPoint(_) => b"p=tls-server-end-point,,",
        }
    }

    /// What the header is followed by in the client's last message.
    pub(crate) fn data(&self) -> &[u8]
        ensures { result.now ≡ spec.binding_data (binding_of self.now) }
    {
        match self {
            ChannelBinding::TlsServerEndPoint(data) => data.as_slice(),
            _ => &[],
        }
    }
}
