//! TLS over a link: what a connector is, the one that can't connect, and the choice whether there is TLS.
//! How a connection is opened over a link: the choice of TLS, the handshake and the startup; and how a request is cancelled.
#![tactic(auto)]

mod cancel_stages;
mod cancelling;
mod choice;
mod choosing;
mod laws;
mod may_start;
mod maybe_tls;
mod no_tls;
mod open_stages;
mod opening;
mod stages;
pub mod tls;

pub use cancel_stages::{CancelQuery, CancelStage, CancelToken, SessionInfo};
pub use choice::TlsChoice;
pub use choosing::connect_tls;
pub use laws::rows_of_the_choice;
pub use maybe_tls::MaybeTls;
pub use no_tls::NoTls;
pub use open_stages::{ConnectRaw, OpenSettings, OpenStage, Opened, Starting};
pub use opening::connect_raw;
pub use stages::{ConnectTls, NO_LIMIT, Question, Stage, StreamOf, TlsSettings};
