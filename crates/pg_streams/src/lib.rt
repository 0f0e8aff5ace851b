//! Replies that are given item by item, as streams that are polled.
//! Queries whose rows are given one by one, of statements and of texts, as a state that is polled.
//! A text that is queried with values of given types, and whose rows are given one by one, as a state that is polled.
#![tactic(auto)]

mod columns;
mod finding;
mod giving;
mod heads;
mod items;
mod known;
mod laws;
mod opens;
mod parts_reading;
mod portal_raw;
mod posting;
mod query_raw;
mod raw;
mod rests;
mod row_giving;
mod row_stream;
mod simple_giving;
mod simple_query;
mod simple_query_message;
mod simple_query_raw;
mod simple_query_stream;
mod state;
mod taking;

pub use giving::{Giving, Told};
pub use items::Items;
pub use laws::streamed_rows_are_those_of_a_typed_query;
pub use opens::Opens;
pub use parts_reading::PartsReading;
pub use portal_raw::QueryPortalRawState;
pub use query_raw::StatementRawState;
pub use raw::{QueryRawState, TargetRawState};
pub use row_stream::RowStream;
pub use simple_query::{AnswersParts, AskedParts, AsksParts, SimpleQueryState, simple_query_state};
pub use simple_query_message::SimpleQueryMessage;
pub use simple_query_raw::SimpleQueryRawState;
pub use simple_query_stream::SimpleQueryStream;
pub use state::QueryTypedRawState;
