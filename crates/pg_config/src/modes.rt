//! What a setting chooses between (PostgreSQL documentation, "Parameter Key Words").

ghost use Rattle.std.specs.Prelude.{◌≡◌};
ghost use Rattle.pg_config.specs.Options.{channel_binding_named, load_balance_hosts_named, ssl_mode_named, ssl_negotiation_named, target_session_attrs_named};

/// Properties required of a session.
#[derive(Clone, Copy, Debug, PartialEq, Eq, Drop)]
pub enum TargetSessionAttrs {
    /// No special properties are required.
    Any,
    /// The session must allow writes.
    ReadWrite,
    /// The session must allow only reads.
    ReadOnly,
}

impl TargetSessionAttrs {
    /// What this word stands for.
    pub(crate) fn named(name: &str) -> Option<TargetSessionAttrs>
        ensures { result ≡ target_session_attrs_named name.now }
    {
        if name == "any" {
            return Some(TargetSessionAttrs::Any);
        }
        if name == "read-write" {
            return Some(TargetSessionAttrs::ReadWrite);
        }
        if name == "read-only" {
            return Some(TargetSessionAttrs::ReadOnly);
        }
        None
    }
}

/// Whether TLS is used.
#[derive(Clone, Copy, Debug, PartialEq, Eq, Drop)]
pub enum SslMode {
    /// Do not use TLS.
    Disable,
    /// Ask for TLS, but allow a session without.
    Prefer,
    /// Require TLS.
    Require,
}

impl SslMode {
    /// What this word stands for.
    pub(crate) fn named(name: &str) -> Option<SslMode>
        ensures { result ≡ ssl_mode_named name.now }
    {
        if name == "disable" {
            return Some(SslMode::Disable);
        }
        if name == "prefer" {
            return Some(SslMode::Prefer);
        }
        if name == "require" {
            return Some(SslMode::Require);
        }
        None
    }
}

/// How TLS begins.
#[derive(Clone, Copy, Debug, Default, PartialEq, Eq, Drop)]
pub enum SslNegotiation {
    /// After an SSLRequest.
    #[default]
    Postgres,
    /// At once, which PostgreSQL can do from version 17 on.
    Direct,
}

impl SslNegotiation {
    /// What this word stands for.
    pub(crate) fn named(name: &str) -> Option<SslNegotiation>
        ensures { result ≡ ssl_negotiation_named name.now }
    {
        if name == "postgres" {
            return Some(SslNegotiation::Postgres);
        }
        if name == "direct" {
            return Some(SslNegotiation::Direct);
        }
        None
    }
}

/// Whether a login is bound to its TLS channel.
#[derive(Clone, Copy, Debug, PartialEq, Eq, Drop)]
pub enum ChannelBinding {
    /// Do not use channel binding.
    Disable,
    /// Use it where it can be had, but allow a session without.
    Prefer,
    /// Require it.
    Require,
}

impl ChannelBinding {
    /// What this word stands for.
    pub(crate) fn named(name: &str) -> Option<ChannelBinding>
        ensures { result ≡ channel_binding_named name.now }
    {
        if name == "disable" {
            return Some(ChannelBinding::Disable);
        }
        if name == "prefer" {
            return Some(ChannelBinding::Prefer);
        }
        if name == "require" {
            return Some(ChannelBinding::Require);
        }
        None
    }
}

/// In which order hosts are tried.
#[derive(Clone, Copy, Debug, PartialEq, Eq, Drop)]
pub enum LoadBalanceHosts {
    /// In the order given.
    Disable,
    /// In a random order.
    Random,
}

impl LoadBalanceHosts {
    /// What this word stands for.
    pub(crate) fn named(name: &str) -> Option<LoadBalanceHosts>
        ensures { result ≡ load_balance_hosts_named name.now }
    {
        if name == "disable" {
            return Some(LoadBalanceHosts::Disable);
        }
        if name == "random" {
            return Some(LoadBalanceHosts::Random);
        }
        None
    }
}
