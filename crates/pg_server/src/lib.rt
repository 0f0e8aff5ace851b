//! The server half of the protocol: the frames of a client, read, and a server that a handler answers for. It does no IO.
#![tactic(auto)]

mod answer;
mod binding;
mod copies;
mod echo;
mod fault;
mod frame;
mod handler;
mod items;
mod laws;
mod layout;
mod opening;
mod parsing;
mod reach;
mod reading;
mod server;
mod server_link;
mod session;
mod startup;
mod traffic;

pub use echo::Echo;
pub use fault::ServerFault;
pub use frame::Frame;
pub use handler::{Effect, Handler};
pub use laws::{
    a_fault_comes_behind_what_was_said, a_fault_follows_from_what_was_taken,
    a_server_says_what_the_rules_say, an_echo_has_no_fault, cuttings_of_what_is_fed,
    what_is_laid_out_is_read,
};
pub use server::Server;
pub use server_link::ServerLink;
