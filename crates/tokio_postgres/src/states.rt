//! The states that the calls of a client give, each polled until it answers.

pub use pg_calls::{
    BatchExecuteState, BindState, CheckConnectionState, ClosePortalState, CloseState, CommitState,
    ExecuteState, ExecuteTypedState, NestedState, PrepareState, QueryOneScalarState, QueryOneState,
    QueryOptScalarState, QueryOptState, QueryPortalRawState, QueryPortalState, QueryRawState,
    QueryScalarState, QueryState, QueryTypedOneState, QueryTypedOptState, QueryTypedRawState,
    QueryTypedState, RollbackState, SavepointState, SessionCheckState, SimpleQueryRawState,
    SimpleQueryState, TransactionState,
};
