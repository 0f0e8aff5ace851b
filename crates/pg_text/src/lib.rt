//! Scripts of commands, the report on a session, and both as texts.
#![tactic(auto)]

mod command;
mod executing;
mod execution;
mod given;
mod laws;
mod levels;
mod line;
mod parse;
mod print;
mod put;
mod quoted;
mod report;
mod scripts;
mod session;
mod type_name;
mod word;

pub use command::{Answer, Command, CommandTarget, TypedText};
pub use laws::{
    one_line, one_session, refused_is_none, simple_refusals_stay, simple_reports_print_so,
    simple_texts_stay,
};
pub use parse::session_text;
pub use pg_desk::Statement;
pub use pg_query::{Cells, SimpleMessage};
pub use pg_rows::RowCells;
pub use pg_spec::TurnMark;
pub use pg_steps::{IsolationLevel, Modes};
pub use print::{error_text, report_text};
pub use report::{Pair, Report};
pub use scripts::Scripts;
pub use session::{Session, TextFault};
pub use word::number_of;
