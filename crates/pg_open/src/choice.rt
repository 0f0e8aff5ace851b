//! Whether there is TLS, by the settings, the connector, the host's name and one byte of the server.

ghost use Rattle.std.specs.Prelude.{◌≡◌};
ghost use Rattle.pg_config.specs.Views.{ssl_mode, ssl_negotiation};
ghost use Rattle.pg_open.specs.Choices as choices;

use pg_config::{SslMode, SslNegotiation};
use pg_types::Cause;

/// How a link goes on before a startup.
#[derive(Debug, Drop)]
pub enum TlsChoice {
    /// The link stays as it is.
    Raw,
    /// The connector's handshake begins.
    Shakes,
    /// It is an error of TLS with this cause: PreferDirect, Refused or NoHostname.
    Fails(Cause),
    /// An SSLRequest is sent, and one byte of the server decides.
    Asks,
}

impl TlsChoice {
    /// Before a byte was given or taken. `can_connect` is the connector's word. PreferDirect comes exactly where TLS
    /// is only preferred, was to begin at once, and the connector can connect; NoHostname exactly where it is required
    /// and begins at once, and there is no name of a host (PostgreSQL documentation, "SSL Session Encryption").
    pub fn first(
        mode: SslMode,
        negotiation: SslNegotiation,
        can_connect: bool,
        has_hostname: bool,
    ) -> TlsChoice
        ensures { result ≡ choices.first_choice (ssl_mode mode) (ssl_negotiation negotiation)
            can_connect has_hostname }
    {
        match (mode, negotiation) {
            (SslMode::Disable, _) => TlsChoice::Raw,
            (SslMode::Prefer, _) if !can_connect => TlsChoice::Raw,
            (SslMode::Prefer, SslNegotiation::Direct) => TlsChoice::Fails(Cause::PreferDirect),
            (SslMode::Require, SslNegotiation::Direct) => TlsChoice::shakes(has_hostname),
            (_, SslNegotiation::Postgres) => TlsChoice::Asks,
        }
    }

    /// By the byte that answers the SSLRequest. Refused comes exactly where it isn't `S` and TLS is required,
    /// NoHostname exactly where it is `S` and there is no name of a host.
    pub fn after_byte(mode: SslMode, has_hostname: bool, byte: u8) -> TlsChoice
        ensures { result ≡ choices.after_byte (ssl_mode mode) has_hostname byte }
    {
        if byte == b'S' {
            return TlsChoice::shakes(has_hostname);
        }
        match mode {
            SslMode::Require => TlsChoice::Fails(Cause::Refused),
            _ => TlsChoice::Raw,
        }
    }

    /// A handshake, where the host has a name.
    fn shakes(has_hostname: bool) -> TlsChoice
        ensures { result ≡ choices.shakes has_hostname }
    {
        if has_hostname {
            return TlsChoice::Shakes;
        }
        TlsChoice::Fails(Cause::NoHostname)
    }
}
