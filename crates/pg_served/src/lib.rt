//! Sessions over a server that stands in the repository: a handler's, or a table's.
//! Session texts played against a server of the repository, in place of a real one.
#![tactic(auto)]

mod alone;
mod echo;
mod laws;
mod machine;
mod pieces;
mod rehearsal;
mod served;

pub use alone::feed_alone;
pub use echo::{echo_link, echo_server, rehearse_echo};
pub use laws::{
    a_session_over_a_machine_is_one_at_a_time, a_session_over_a_server_is_one_at_a_time,
    a_session_over_an_echo_ends_well, simple_queries_are_requests,
};
pub use machine::{machine_link, rehearse_machine};
pub use pg_tool::Outcome;
pub use pieces::{Pieces, pieces_of};
pub use served::{run_over_machine, run_served};
