//! What follows from the dialogue of a command, for any number of requests, questions and readings: what its
//! polls book, ask and answer.
//! Scripts put together: one behind the answer of another, an answer in place of one, and the draw of a
//! statement's number.
//! How a text is prepared, and how the types of its parameters and columns are found in the server's catalog, as
//! dialogues. So far it has definitions and laws alone.
//! How a text is prepared: a number is drawn, the text is sent, the server describes it, and the types of its
//! parameters and columns are found.
#![tactic(auto)]

mod describes;
mod description;
mod description_reading;
mod draws;
mod finder;
mod follow;
mod known_types;
mod laws;
mod lookup_laws;
mod making;
mod maybe;
mod param_types;
mod prepares;
mod ready;
mod then;

pub use describes::{Describes, Numbers, Parses, Parsing, describes_text};
pub use description::{Description, NewColumn, NewStatement};
pub use description_reading::{DescriptionReading, new_columns};
pub use draws::Draws;
pub use finder::Finder;
pub use follow::{Follow, Go, OrAnswer};
pub use known_types::{Known, KnownTypes};
pub use laws::{
    a_begin_stands, a_command_begins_upright, a_command_behind_another, a_copy_is_a_command,
    a_legal_list_serves, a_poll_is_a_turn, a_poll_is_a_turn_of_the_course, a_request_is_a_command,
    a_trail_unfolds, another_command_leaves_alone, its_copy_is_open_at_the_desk, one_walk,
    others_questions_are_none, others_requests_are_none, others_requests_keep_their_parts,
    others_turn_keeps, others_turn_stays_upright, outcome_in_a_legal_list, outcome_of_a_life,
    own_questions_grow, own_requests_grow, own_requests_have_their_parts, own_turn_keeps,
    own_turn_stays_upright, questions_of_a_turn, requests_of_a_turn,
    requests_without_copies_are_whole, serves_itself, turns_of_others_keep, what_came_is_counted,
    what_no_copy_does,
};
pub use lookup_laws::{
    a_search_is_a_stack, at_most_64_are_in_progress, kinds_are_found, numbers_are_used_up,
    refused_lookups, second_texts, types_are_kept, types_of_themselves_are_refused,
    what_comes_is_its_outcome,
};
pub use making::columns_of;
pub use maybe::Maybe;
pub use param_types::ParamTypes;
pub use prepares::{FindsTypes, Makes, MakesStatement, Prepares};
pub use ready::{Answered, Ready};
pub use then::Then;
