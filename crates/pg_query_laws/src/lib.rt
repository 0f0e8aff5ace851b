//! That the lookups of types are commands that a session takes.
//! That executions are commands which a session takes, and what they leave to do where they are given up. It has no code.
//! That typed queries and executes are commands which a session takes. How the types that the desk keeps were found. It has no code.
#![tactic(auto)]

mod execution_laws;
mod kept_laws;
mod laws;
mod portal_laws;
mod run_laws;
mod typed_laws;

pub use execution_laws::{closes_are_written, executions_are_commands, executions_are_given_up};
pub use kept_laws::{
    all_that_is_kept, types_are_found, types_are_kept_by_lookups, types_are_kept_by_their_oids,
};
pub use laws::lookups_are_commands;
pub use portal_laws::{portals_are_commands, portals_are_given_up};
pub use run_laws::{asked_in_one_way, runs_of_whole_requests, types_of_runs};
pub use typed_laws::typed_executions_are_commands;
