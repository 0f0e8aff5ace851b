//! Commands as lists of steps, and the one machine that takes them.
#![tactic(auto)]

mod abandoning;
mod call;
mod laws;
mod modes;
mod one;
mod requests;
mod savepoint;
mod step;
mod steps;

pub use abandoning::abandon;
pub use call::{Call, command};
pub use laws::{calls_are_commands, lists_of_steps_are_commands};
pub use modes::{IsolationLevel, Modes};
pub use one::{Gives, One};
pub use requests::query_request;
pub use savepoint::Savepoint;
pub use step::Step;
pub use steps::Steps;
