//! How a server goes on from frame to frame: the one definition that a server of a table and a server of a handler
//! share, over any states. It holds no bytes and does no IO.
//! A server as a finite table of replies, and a link to it.
//! Machines as texts: what a server answers, a row a line.
#![tactic(auto)]

mod alone;
mod answer;
mod draft;
mod fault;
mod feeding;
mod front;
mod laws;
mod line;
mod machine;
mod machine_file_laws;
mod machine_link;
mod making;
mod opening;
mod read;
mod server_laws;
mod serving;
mod tags;
mod word;

pub use answer::{mode_behind, put, says_ready};
pub use draft::MachineFile;
pub use fault::{FileFault, LineFault};
pub use front::{Found, front as front_message};
pub use laws::{pipelined_equals_one_at_a_time, replies_of_a_machine_are_sound};
pub use machine::{Machine, MachineFault, MachineRow};
pub use machine_file_laws::what_is_written_is_read;
pub use machine_link::MachineLink;
pub use read::machine_of;
pub use server_laws::{
    any_server_answers_one_at_a_time, link_in_course_is_over_its_server, request_gets_one_reply,
};
pub use serving::{Kind, Mode, Turn, kind_of, turn_of};
pub use tags::{Tags, may_answer, tags_of};
