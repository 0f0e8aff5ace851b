//! What each message of the server makes of a startup: frames to be sent, a next phase, or a refusal. It does no IO.
//! The startup of any login, polled, over any link: frames go out, messages come in, up to the first ReadyForQuery.
#![tactic(auto)]

mod dialogue;
mod frames;
mod hearing;
mod keeping;
mod laws;
mod login_opening;
mod mechanisms;
mod phase;
mod polling;
mod ssl_request;
mod startup;
mod talk;
mod transfer;

pub use laws::history_of_a_startup;
pub use login_opening::opening_frame;
pub use phase::Login;
pub use ssl_request::SslRequest;
pub use startup::{Heard, Startup};
pub use talk::{Dialogue, Told};
pub use transfer::Transfer;
