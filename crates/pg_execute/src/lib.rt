//! How a statement or a text is executed with values, and what is made of its reply: rows, the values of one column, or how
//! many rows it affected.
#![tactic(auto)]

mod closes;
mod columns;
mod count_reading;
mod execute_typed;
mod executes;
mod first_rows;
mod form;
pub mod given_values;
mod got;
mod head_reading;
mod how_many;
mod knows_all;
mod laws;
mod make;
mod passing;
mod query_typed;
mod reads_on;
mod request;
mod result_rows;
mod result_set;
mod rows_reading;
mod said;
mod scalar;
mod takes_rest;
mod target;
mod typed_count_reading;
mod typed_requests;
mod types;
mod values;
mod widths;

pub use closes::{Closes, Closing};
pub use count_reading::CountReading;
pub use execute_typed::{ExecuteTyped, executes_typed};
pub use executes::Executes;
pub use first_rows::FirstRows;
pub use form::{Count, First, Form, Query};
pub use got::Got;
pub use head_reading::HeadReading;
pub use how_many::HowMany;
pub use knows_all::KnowsAll;
pub use laws::{
    executes_are_counted, first_rows_are_taken, refused_values_ask_nothing, rows_are_counted,
    statements_of_texts_are_closed, typed_executes_are_counted, typed_queries_look_up_later,
    values_of_one_column,
};
pub use make::{Make, Scalars, WholeRows};
pub use query_typed::{QueryTyped, queries_typed};
pub use reads_on::ReadsOn;
pub use request::{ask, close_bytes, close_request, execute_request};
pub use result_set::ResultSet;
pub use rows_reading::RowsReading;
pub use said::{Said, said_by};
pub use scalar::Scalar;
pub use takes_rest::TakesRest;
pub use target::{OnTarget, Target, Targeted, on_closing, on_target};
pub use typed_count_reading::TypedCountReading;
pub use typed_requests::{Unwritten, request_under, typed_request};
pub use types::Types;
pub use widths::rows_of_queries_have_their_columns;
