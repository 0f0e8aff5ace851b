//! Settings of a connection, and the two forms of connection strings that say them.
#![tactic(auto)]

mod address;
mod attempts;
mod config;
mod config_debug;
mod connection_string;
mod fault;
mod host;
mod key_value;
mod laws;
mod modes;
mod number;
mod option;
mod piece;
mod url;
mod url_parameter;

pub use attempts::{Address, Attempt};
pub use config::Config;
pub use host::{Host, IpAddr};
pub use laws::one_meaning;
pub use modes::{ChannelBinding, LoadBalanceHosts, SslMode, SslNegotiation, TargetSessionAttrs};
