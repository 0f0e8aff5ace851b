//! What a client asks of a server, as states that are polled.
//! The check of what a session may do, as a state that is polled.
#![tactic(auto)]

mod checks_laws;
mod done_reading;
mod done_script;
mod laws;
mod query;
mod session_check;
mod show_reading;
mod show_script;
mod simple_query;
mod simple_reading;
mod simple_script;

pub use checks_laws::{session_check_answers, session_check_awaits, session_check_leaves_none};
pub use done_reading::DoneReading;
pub use done_script::DoneScript;
pub use laws::{
    batch_execute_answers, batch_execute_awaits, batch_execute_leaves_none,
    check_connection_answers, check_connection_awaits, check_connection_leaves_none,
    simple_query_answers, simple_query_awaits, simple_query_leaves_none,
};
pub use query::{CheckConnectionState, check_connection_state};
pub use session_check::{SessionCheckState, session_check_state};
pub use show_script::ShowScript;
pub use simple_query::{
    BatchExecuteState, SimpleQueryState, batch_execute_state, simple_query_state,
};
pub use simple_script::{SimpleScript, query_frame};
