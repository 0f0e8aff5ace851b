//! The connection: each poll reads, writes and flushes, over any link and any hub.
#![tactic(auto)]

mod asides;
mod connection;
mod ends;
mod fault;
mod flushing;
mod laws;
mod parameters;
mod polling;
mod reading;
mod sending;
mod streams;
mod turning;

pub use connection::Connection;
pub use ends::{FlushEnd, Off, PartsEnd, ReadEnd, SendEnd, Step, TurnEnd, WriteEnd};
pub use fault::ConnectionFault;
pub use laws::{history_of_a_connection, settings_of_a_connection, settled_poll};
pub use parameters::Parameters;
pub use streams::{Held, Streams};
