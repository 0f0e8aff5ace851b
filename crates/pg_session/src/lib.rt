//! What a session does, turn by turn, whatever its commands are: the relation that every turn of the program meets, and how a
//! session runs commands.
//! From the turns of a session to what its commands mean, whatever they are.
//! What a session does, turn by turn, whatever its commands are: what follows from the relation that every turn meets.
#![tactic(auto)]

mod causes;
mod completeness;
mod crossed;
mod events;
mod handle_turn;
mod held_up;
mod laws;
mod lives;
mod main_theorem;
mod measure;
mod sent;
mod spoken;
mod turn_order;
mod turns_given;

pub use causes::each_failure_has_its_cause;
pub use completeness::{valid_input_ends_well, what_may_fail_over_a_link_that_conforms};
pub use crossed::what_crossed;
pub use events::each_request_reads_its_reply;
pub use handle_turn::Polling;
pub use held_up::none_pauses_where_it_could_go_on;
pub use laws::{a_new_session_is_kept, a_session_has_run, a_turn_keeps_a_session};
pub use lives::what_came;
pub use main_theorem::every_session_ends_well;
pub use measure::{
    a_copy_puts_its_parts, each_turn_is_nearer, each_turn_is_nearer_within, each_turn_leaves_less,
    turns_leave_no_more, turns_leave_no_more_parts, turns_leave_no_more_within,
};
pub use sent::{
    the_link_stays_open_where_it_failed, what_was_asked_where_it_stalled,
    what_was_sent_where_it_failed,
};
pub use spoken::Spoken;
pub use turn_order::turns_in_order;
pub use turns_given::what_was_sent_gives_few_turns;
