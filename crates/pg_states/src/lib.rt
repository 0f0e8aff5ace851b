//! Preparing, executing and closing statements, and clearing what is cached of types, as states that are polled.
#![tactic(auto)]

mod clear;
mod clearing;
mod close;
mod closing;
mod execute;
mod executed;
mod executed_typed;
mod first_rows;
mod laws;
mod missing;
mod prepare;
mod queried_typed;
mod query;
mod query_scalar;

pub use clear::ClearState;
pub use close::{CloseState, close_owned_state, close_state};
pub use closing::Closing;
pub use execute::{ExecuteState, execute_state};
pub use executed::{Executed, executed_state};
pub use executed_typed::{ExecutedTyped, executed_by_oids, executed_by_owned, executed_by_types};
pub use first_rows::{FirstRowsState, first_rows_state};
pub use laws::values_are_as_many_as_types;
pub use missing::{MissingState, missing_state};
pub use pg_search::Finds;
pub use prepare::{PrepareState, prepare_state};
pub use queried_typed::{QueriedTyped, queried_by_oids, queried_by_owned, queried_by_types};
pub use query::{QueryState, query_state};
pub use query_scalar::{QueryScalarState, query_scalar_state};
