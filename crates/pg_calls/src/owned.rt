//! Calls that own their texts, types and values, so that their states borrow nothing and may lie in a list beside one another. They
//! ask what the calls of the same names ask.

ghost use Rattle.std.specs.Prelude.{◌≡◌, length, map, None};
ghost use Rattle.pg_client.specs.Done.{batch_execute};
ghost use Rattle.pg_client.specs.DoneStates.{place_of_batch, IsLiveBatch};
ghost use Rattle.pg_core.specs.Lookups.{find_all, prepare};
ghost use Rattle.pg_execute.specs.Parameters.{params};
ghost use Rattle.pg_execute.specs.Typed.{execute_typed, query_typed};
ghost use Rattle.pg_states.specs.Paired.{paired};
ghost use Rattle.pg_calls.specs.Answers.{maybe_row, one_row, rows_of};
ghost use Rattle.pg_query.specs.Made.{made};

use crate::answered::Answered;
use crate::answers::{
    AllRows, ExecuteTypedState, MaybeRow, OneRow, QueryTypedOneState, QueryTypedOptState,
    QueryTypedState,
};
use crate::client::Client;
use pg_client::{BatchExecuteState, batch_execute_state};
use pg_core::ParamTypes;
use pg_execute::HowMany;
use pg_query::Polled;
use pg_states::{PrepareState, executed_by_owned, prepare_state, queried_by_owned};
use pg_types::{List, Params, Sql, Text, Type};

impl Client {
    /// `batch_execute` of an owned text.
    pub fn batch_execute_owned(&self, query: Text) -> BatchExecuteState<'static>
        ensures live { IsLiveBatch result }
        ensures asks { (place_of_batch result).dialogue ≡ batch_execute query }
    {
        batch_execute_state(Sql::Owned(query))
    }

    /// `prepare_typed` of an owned text. No types are given by an empty list.
    pub fn prepare_owned(&self, query: Text, types: List<Type>) -> PrepareState<'static>
        ensures live { ⟦<PrepareState<'static> as Polled>⟧.is_live result }
        ensures asks { (⟦<PrepareState<'static> as Polled>⟧.place result).dialogue ≡ prepare query (map (λ ty. ty.oid) types) }
    {
        prepare_state(Sql::Owned(query), ParamTypes::Owned(types))
    }

    /// `query_typed` of an owned text.
    pub fn query_typed_owned<P: Params + Drop>(
        &self,
        query: Text,
        values: P,
        types: List<Type>,
    ) -> QueryTypedState<'static, P>
        ensures live { ⟦<QueryTypedState<'static, P> as Polled>⟧.is_live result }
        ensures asks { (⟦<QueryTypedState<'static, P> as Polled>⟧.place result).dialogue ≡ made rows_of (paired (length types) (params (P.count values) (P.gives_at values)) (query_typed find_all HowMany.Any query types (params (P.count values) (P.gives_at values)))) }
    {
        Answered::new(
            queried_by_owned(HowMany::Any, query, types, values),
            AllRows,
        )
    }

    /// `query_typed_one` of an owned text.
    pub fn query_typed_one_owned<P: Params + Drop>(
        &self,
        query: Text,
        values: P,
        types: List<Type>,
    ) -> QueryTypedOneState<'static, P>
        ensures live { ⟦<QueryTypedOneState<'static, P> as Polled>⟧.is_live result }
        ensures asks { (⟦<QueryTypedOneState<'static, P> as Polled>⟧.place result).dialogue ≡ made one_row (paired (length types) (params (P.count values) (P.gives_at values)) (query_typed find_all HowMany.One query types (params (P.count values) (P.gives_at values)))) }
    {
        Answered::new(queried_by_owned(HowMany::One, query, types, values), OneRow)
    }

    /// `query_typed_opt` of an owned text.
    pub fn query_typed_opt_owned<P: Params + Drop>(
        &self,
        query: Text,
        values: P,
        types: List<Type>,
    ) -> QueryTypedOptState<'static, P>
        ensures live { ⟦<QueryTypedOptState<'static, P> as Polled>⟧.is_live result }
        ensures asks { (⟦<QueryTypedOptState<'static, P> as Polled>⟧.place result).dialogue ≡ made maybe_row (paired (length types) (params (P.count values) (P.gives_at values)) (query_typed find_all HowMany.AtMostOne query types (params (P.count values) (P.gives_at values)))) }
    {
        Answered::new(
            queried_by_owned(HowMany::AtMostOne, query, types, values),
            MaybeRow,
        )
    }

    /// `execute_typed` of an owned text.
    pub fn execute_typed_owned<P: Params + Drop>(
        &self,
        query: Text,
        values: P,
        types: List<Type>,
    ) -> ExecuteTypedState<'static, P>
        ensures live { ⟦<ExecuteTypedState<'static, P> as Polled>⟧.is_live result }
        ensures asks { (⟦<ExecuteTypedState<'static, P> as Polled>⟧.place result).dialogue ≡ paired (length types) (params (P.count values) (P.gives_at values)) (execute_typed query types (params (P.count values) (P.gives_at values))) }
    {
        executed_by_owned(query, types, values)
    }
}
