//! Sessions that are made of two numbers, and what a session's report comes to.
#![tactic(auto)]

mod counts;
mod draws;
mod generated;
mod laws;
mod reply;
mod summary;

pub use generated::{MOST_COMMANDS, gen_session};
pub use laws::{generated_is_well_made, worked_two};
pub use summary::summary_text;
