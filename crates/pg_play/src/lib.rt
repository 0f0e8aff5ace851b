//! Sessions behind their startup, over any commands: handles and the connection take turns, until the connection is shut down.
#![tactic(auto)]

mod handle;
mod opening;
mod play;
mod report;
mod session;

pub use handle::Handle;
pub use opening::{open, pause, wait_for};
pub use play::Play;
pub use report::Report;
pub use session::play_over;
