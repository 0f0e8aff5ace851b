//! A client of a connection: its calls, each as a state that is polled.
#![tactic(auto)]

mod answered;
mod answers;
mod builder;
mod client;
mod level;
mod owned;
mod portals;
mod transaction;

pub use answered::{Answered, Make};
pub use answers::{
    AllRows, ExecuteTypedState, MaybeOf, MaybeRow, OneOf, OneRow, QueryOneScalarState,
    QueryOneState, QueryOptScalarState, QueryOptState, QueryPortalState, QueryState,
    QueryTypedOneState, QueryTypedOptState, QueryTypedState,
};
pub use builder::TransactionBuilder;
pub use client::Client;
pub use level::{
    CommitState, NestedState, Opened, RollbackState, SavepointState, TransactionState,
};
pub use pg_client::{BatchExecuteState, CheckConnectionState, SessionCheckState};
pub use pg_execute::{HowMany, Scalar, Target};
pub use pg_open::{CancelToken, SessionInfo};
pub use pg_portals::{BindState, ClosePortalState, Portal};
pub use pg_query::Polled;
pub use pg_states::{CloseState, ExecuteState, PrepareState, QueryScalarState};
pub use pg_steps::{IsolationLevel, Savepoint};
pub use pg_streams::{
    Opens, QueryPortalRawState, QueryRawState, QueryTypedRawState, RowStream, SimpleQueryMessage,
    SimpleQueryRawState, SimpleQueryState, SimpleQueryStream,
};
pub use transaction::Transaction;
