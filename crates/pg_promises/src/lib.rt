//! What a session promises: what one that ended well did, when it may answer each failure, when it must end well, what
//! it sent where it failed; and laws that show what these mean.
//! What a session of any commands that ended well did; and that this, of simple queries alone, is what `pg_promises` says of them.
//! What is promised of a session of any commands where it failed, or must end well; and that this, of simple queries alone, is what `pg_promises` says.
//! Worked sessions of a few commands, made small: what `pg_spec`'s definitions accept, and what they refuse.
#![tactic(auto)]

mod example_laws;
mod failed_laws;
mod headline_laws;
mod laws;

pub use example_laws::{accepted, commands_go_by_names, refused, simple_queries_are_simple};
pub use failed_laws::{
    causes_of_simple_queries, ended_requests_are_whole, none_kept_back_of_simple_queries,
    plans_of_simple_queries, sent_of_simple_queries, simple_queries_must_end_well,
};
pub use headline_laws::{
    as_landed, headline_of_session, run_of_simple_queries, session_of_simple_queries,
    simple_queries_end_well, what_ended_well_has_run,
};
pub use laws::{
    counts_of_a_stall, what_crosses_where_tls_is_required, worked_plans, worked_refused,
    worked_session, worked_strings, worked_three, worked_turns,
};
