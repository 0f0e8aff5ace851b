//! Sessions over a link, and the program around them.
#![tactic(auto)]

mod asked;
mod laws;
mod numbers;
mod over;
mod program;
mod reading;
mod required;
mod session;
mod writing;

pub use laws::{
    no_text_is_neither, sessions_of_simple_queries_keep_theirs, simple_texts_are_well_made,
    some_text_is_well_made,
};
pub use pg_text::{
    Answer, Cells, Command, CommandTarget, Pair, Report, RowCells, Scripts, Session, SimpleMessage,
    TextFault, TurnMark, TypedText, report_text, session_text,
};
pub use program::{Outcome, run};
pub use session::run_session;
