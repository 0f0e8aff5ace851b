//! Calls that are asked over a line, and told in words: what they answered, and which frames went out.
#![tactic(auto)]

mod answers;
mod asking;
mod crossed;
mod given;
mod opened;
mod streams;

pub use answers::{Told, tell_answer, tell_aside, tell_columns, tell_error, tell_running};
pub use asking::{ask, ask_for};
pub use crossed::{Session, Wired, tell_asides, tell_end};
pub use given::{Given, split};
pub use opened::{open, open_over};
pub use streams::{Parts, stream};
