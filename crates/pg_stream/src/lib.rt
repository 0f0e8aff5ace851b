//! A link to the server over std's `Read` and `Write`.
#![tactic(auto)]

mod ahead;
mod crossed;
mod heard;
mod inlet;
mod outlet;
mod stream_link;
mod tally;
mod told_link;

pub use stream_link::StreamLink;
pub use told_link::Told;
