//! Settings of a connection.

pub use pg_config::{
    Address, Attempt, ChannelBinding, Config, Host, IpAddr, LoadBalanceHosts, SslMode,
    SslNegotiation, TargetSessionAttrs,
};
