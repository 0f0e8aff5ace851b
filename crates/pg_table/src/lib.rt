//! The table of commands: what each asks, the states of all of them in one, and what of that is said of simple queries.
//! Isolation, for the commands of a session: what one answers follows from what it read, whatever else happened.
#![tactic(auto)]

mod abandons;
mod isolation_laws;
mod laws;
mod levels;
mod making;
mod own;
mod slots;
mod spoken;
mod state;
mod telling;
mod transacting;

pub use abandons::{AbandonState, Abandons};
pub use isolation_laws::{
    answers_of_sessions, commands_are_kept_apart, commands_go_by_names, desks_of_sessions,
    isolation_of_runs, isolation_of_sessions, names_in_requests, what_desks_tell,
    what_each_command_answered,
};
pub use laws::{
    emptied_slots_hold_nothing, failed_sessions_of_simple_queries, sessions_of_simple_queries,
    simple_queries_of_the_table, slots_hold_what_was_put_last, the_table_is_of_commands,
};
pub use levels::{Level, Levels};
pub use making::begin;
pub use own::Own;
pub use slots::{Slot, Slots};
pub use state::{AnyAnswer, AnyState, keep};
pub use transacting::BeginState;
