//! A level of a transaction, and what it can be asked.

ghost use Rattle.std.specs.Prelude.{◌≡◌, [], length, map, None, Some};
ghost use Rattle.pg_client.specs.Done.{batch_execute};
ghost use Rattle.pg_client.specs.DoneStates.{place_of_batch, IsLiveBatch};
ghost use Rattle.pg_execute.specs.Executes.{execute, query};
ghost use Rattle.pg_execute.specs.Parameters.{params};
ghost use Rattle.pg_execute.specs.Targets.{on_target};
ghost use Rattle.pg_execute.specs.Typed.{execute_typed, query_typed};
ghost use Rattle.pg_states.specs.Texts.{prepare_text};
ghost use Rattle.pg_core.specs.Lookups.{find_all, prepare};
ghost use Rattle.pg_streams.specs.States.{FindsIn, statement_in};
ghost use Rattle.pg_streams.specs.RowStreams.{query_raw};
ghost use Rattle.pg_streams.specs.SimpleStreams.{simple_query_raw};
ghost use Rattle.pg_states.specs.Paired.{paired};
ghost use Rattle.pg_streams.specs.TypedRawStates.{opens_first};
ghost use Rattle.pg_streams.specs.TypedRaw.{FoundRows, finds_rows, query_typed_raw};
ghost use Rattle.pg_steps.specs.Dialogues as spec;
ghost use Rattle.pg_steps.specs.Doing.{Does};
ghost use Rattle.pg_steps.specs.Mapped.{giving};
ghost use Rattle.pg_steps.specs.declared.savepoint.Savepoint.TheVariants.{Named};
ghost use Rattle.pg_calls.specs.Answers.{maybe_row, one_row, rows_of};
ghost use Rattle.pg_query.specs.Made.{made};
ghost use Rattle.pg_calls.specs.Levels.{deeper, inside, next_name};

use crate::answers::{
    ExecuteTypedState, QueryOneState, QueryOptState, QueryState, QueryTypedOneState,
    QueryTypedOptState, QueryTypedState,
};
use crate::client::Client;
use crate::level::{CommitState, NestedState, Opened, RollbackState, SavepointState};
use pg_client::BatchExecuteState;
use pg_desk::{Desk, Stamp};
use pg_errors::Error;
use pg_execute::{HowMany, Target};
use pg_open::CancelToken;
use pg_query::Polled;
use pg_states::{ExecuteState, PrepareState};
use pg_steps::{Call, One, Savepoint, abandon, command};
use pg_streams::{Opens, QueryRawState, QueryTypedRawState, SimpleQueryState};
use pg_types::{Params, Type};
use std::alloc::Global;

/// A level of a transaction: the transaction itself, or a savepoint in it. It must be spent, by `commit`, `rollback` or `abandon`.
/// It holds no connection, as a client doesn't: its calls make states. What other calls of the client ask meanwhile stands in the
/// transaction too.
pub struct Transaction<'a> {
    pub(crate) client: Client,
    /// None: the transaction itself.
    pub(crate) savepoint: Option<Savepoint<'a>>,
    /// How many savepoints are open.
    pub(crate) depth: u32,
}

impl<'a> Transaction<'a> {
    /// Ends this level, and keeps what was done in it: by `RELEASE` of its savepoint, or `COMMIT`. What is kept in a savepoint stands
    /// in the level around it. The level is ended, whatever is answered. Encode comes where the savepoint's name can't be sent; the
    /// other errors are those of `Client::batch_execute`.
    pub fn commit(self) -> CommitState<'a>
        ensures live { ⟦<CommitState<'a> as Polled>⟧.is_live result }
        ensures asks { (⟦<CommitState<'a> as Polled>⟧.place result).dialogue ≡ spec.commit self.entry.savepoint }
    {
        let Transaction {
            client: _,
            savepoint,
            depth: _,
        } = self;
        command(Call::Commit(savepoint))
    }

    /// Undoes what was done in this level: by `ROLLBACK TO` its savepoint, or `ROLLBACK`. Like `commit`, errors too.
    pub fn rollback(self) -> RollbackState<'a>
        ensures live { ⟦<RollbackState<'a> as Polled>⟧.is_live result }
        ensures asks { (⟦<RollbackState<'a> as Polled>⟧.place result).dialogue ≡ spec.rollback self.entry.savepoint }
    {
        let Transaction {
            client: _,
            savepoint,
            depth: _,
        } = self;
        command(Call::Rollback(savepoint))
    }

    /// Does what `rollback` does, at once; nobody reads the server's reply. Encode comes where the savepoint's name can't be sent;
    /// Closed where the desk takes no requests any more.
    pub fn abandon<D: Desk>(self, alloc: Global, desk: &mut D, stamp: Stamp) -> Result<(), Error>
        ensures { Does D.becomes stamp desk.old (spec.abandon self.entry.savepoint) desk.new result }
    {
        let Transaction {
            client: _,
            savepoint,
            depth: _,
        } = self;
        abandon(alloc, savepoint, desk, stamp)
    }

    /// Opens a savepoint in this level, under the name `sp_` and how many savepoints are open with it. It answers the level of the
    /// savepoint, which must be spent before this one. A refused savepoint isn't open. The errors are those of
    /// `Client::batch_execute`.
    pub fn transaction(&mut self) -> NestedState
        ensures live { ⟦<NestedState as Polled>⟧.is_live result }
        ensures asks { (⟦<NestedState as Polled>⟧.place result).dialogue ≡ giving (inside self.old (next_name self.old)) (spec.savepoint (next_name self.old)) }
        ensures same { self.new ≡ self.old }
    {
        let depth = self.depth.saturating_add(1);
        let opened = Opened {
            client: self.client,
            savepoint: Some(Savepoint::AtDepth(depth)),
            depth,
        };
        One::new(Call::Savepoint(Savepoint::AtDepth(depth)), opened)
    }

    /// The same under this name, which is written as it is given. Encode comes where it can't be sent.
    pub fn savepoint<'b>(&mut self, name: &'b str) -> SavepointState<'b>
        ensures live { ⟦<SavepointState<'b> as Polled>⟧.is_live result }
        ensures asks { (⟦<SavepointState<'b> as Polled>⟧.place result).dialogue ≡ giving (inside self.old (Named name.entry)) (spec.savepoint (Named name.entry)) }
        ensures same { self.new ≡ self.old }
    {
        let opened = Opened {
            client: self.client,
            savepoint: Some(Savepoint::Named(name)),
            depth: self.depth.saturating_add(1),
        };
        One::new(Call::Savepoint(Savepoint::Named(name)), opened)
    }

    /// What cancels a request of its session.
    pub fn cancel_token(&self) -> CancelToken
        ensures { result.info ≡ self.now.client.info }
    {
        self.client.cancel_token()
    }

    /// `Client::simple_query`, in the transaction.
    pub fn simple_query<'b>(&self, query: &'b str) -> SimpleQueryState<'b>
        ensures live { ⟦<SimpleQueryState<'b> as Polled>⟧.is_live result }
        ensures asks { (⟦<SimpleQueryState<'b> as Polled>⟧.place result).dialogue ≡ simple_query_raw query.now }
    {
        self.client.simple_query(query)
    }

    /// `Client::batch_execute`, in the transaction.
    pub fn batch_execute<'b>(&self, query: &'b str) -> BatchExecuteState<'b>
        ensures live { IsLiveBatch result }
        ensures asks { (place_of_batch result).dialogue ≡ batch_execute query.now }
    {
        self.client.batch_execute(query)
    }

    /// `Client::prepare`, in the transaction.
    pub fn prepare<'b>(&self, query: &'b str) -> PrepareState<'b>
        ensures live { ⟦<PrepareState<'b> as Polled>⟧.is_live result }
        ensures asks { (⟦<PrepareState<'b> as Polled>⟧.place result).dialogue ≡ prepare query.now [] }
    {
        self.client.prepare(query)
    }

    /// `Client::prepare_typed`, in the transaction.
    pub fn prepare_typed<'b>(&self, query: &'b str, types: &'b [Type]) -> PrepareState<'b>
        ensures live { ⟦<PrepareState<'b> as Polled>⟧.is_live result }
        ensures asks { (⟦<PrepareState<'b> as Polled>⟧.place result).dialogue ≡ prepare query.now (map (λ ty. ty.oid) types.now) }
    {
        self.client.prepare_typed(query, types)
    }

    /// `Client::query`, in the transaction.
    pub fn query<'b, P: Params + Drop>(&self, target: Target<'b>, values: P) -> QueryState<'b, P>
        ensures live { ⟦<QueryState<'b, P> as Polled>⟧.is_live result }
        ensures asks { (⟦<QueryState<'b, P> as Polled>⟧.place result).dialogue ≡ made rows_of (on_target prepare_text (λ s. query HowMany.Any s (params (P.count values) (P.gives_at values))) target.entry) }
    {
        self.client.query(target, values)
    }

    /// `Client::query_raw`, in the transaction.
    pub fn query_raw<'b, P: Params + Drop>(
        &self,
        target: Target<'b>,
        values: P,
    ) -> QueryRawState<'b, P>
        ensures live { ⟦<QueryRawState<'b, P> as Opens>⟧.is_live result }
        ensures asks { (⟦<QueryRawState<'b, P> as Opens>⟧.place result).dialogue ≡ on_target prepare_text (λ s. query_raw s (params (P.count values) (P.gives_at values))) target.entry }
        ensures knows { ⟦<QueryRawState<'b, P> as Opens>⟧.knows result ≡ statement_in target.entry }
        ensures finds { FindsIn target.entry (params (P.count values) (P.gives_at values)) (⟦<QueryRawState<'b, P> as Opens>⟧.finding result) (⟦<QueryRawState<'b, P> as Opens>⟧.asks result) (⟦<QueryRawState<'b, P> as Opens>⟧.first result) }
    {
        self.client.query_raw(target, values)
    }

    /// `Client::query_one`, in the transaction.
    pub fn query_one<'b, P: Params + Drop>(
        &self,
        target: Target<'b>,
        values: P,
    ) -> QueryOneState<'b, P>
        ensures live { ⟦<QueryOneState<'b, P> as Polled>⟧.is_live result }
        ensures asks { (⟦<QueryOneState<'b, P> as Polled>⟧.place result).dialogue ≡ made one_row (on_target prepare_text (λ s. query HowMany.One s (params (P.count values) (P.gives_at values))) target.entry) }
    {
        self.client.query_one(target, values)
    }

    /// `Client::query_opt`, in the transaction.
    pub fn query_opt<'b, P: Params + Drop>(
        &self,
        target: Target<'b>,
        values: P,
    ) -> QueryOptState<'b, P>
        ensures live { ⟦<QueryOptState<'b, P> as Polled>⟧.is_live result }
        ensures asks { (⟦<QueryOptState<'b, P> as Polled>⟧.place result).dialogue ≡ made maybe_row (on_target prepare_text (λ s. query HowMany.AtMostOne s (params (P.count values) (P.gives_at values))) target.entry) }
    {
        self.client.query_opt(target, values)
    }

    /// `Client::execute`, in the transaction.
    pub fn execute<'b, P: Params + Drop>(
        &self,
        target: Target<'b>,
        values: P,
    ) -> ExecuteState<'b, P>
        ensures live { ⟦<ExecuteState<'b, P> as Polled>⟧.is_live result }
        ensures asks { (⟦<ExecuteState<'b, P> as Polled>⟧.place result).dialogue ≡ on_target prepare_text (λ s. execute s (params (P.count values) (P.gives_at values))) target.entry }
    {
        self.client.execute(target, values)
    }

    /// `Client::execute_raw`, in the transaction.
    pub fn execute_raw<'b, P: Params + Drop>(
        &self,
        target: Target<'b>,
        values: P,
    ) -> ExecuteState<'b, P>
        ensures live { ⟦<ExecuteState<'b, P> as Polled>⟧.is_live result }
        ensures asks { (⟦<ExecuteState<'b, P> as Polled>⟧.place result).dialogue ≡ on_target prepare_text (λ s. execute s (params (P.count values) (P.gives_at values))) target.entry }
    {
        self.client.execute_raw(target, values)
    }

    /// `Client::query_typed`, in the transaction.
    pub fn query_typed<'b, P: Params + Drop>(
        &self,
        query: &'b str,
        values: P,
        types: &'b [Type],
    ) -> QueryTypedState<'b, P>
        ensures live { ⟦<QueryTypedState<'b, P> as Polled>⟧.is_live result }
        ensures asks { (⟦<QueryTypedState<'b, P> as Polled>⟧.place result).dialogue ≡ made rows_of (paired (length types.now) (params (P.count values) (P.gives_at values)) (query_typed find_all HowMany.Any query.now types.now (params (P.count values) (P.gives_at values)))) }
    {
        self.client.query_typed(query, values, types)
    }

    /// `Client::query_typed_raw`, in the transaction.
    pub fn query_typed_raw<'b, P: Params + Drop>(
        &self,
        query: &'b str,
        values: P,
        types: &'b [Type],
    ) -> QueryTypedRawState<'b, P>
        ensures live { ⟦<QueryTypedRawState<'b, P> as Opens>⟧.is_live result }
        ensures asks { (⟦<QueryTypedRawState<'b, P> as Opens>⟧.place result).dialogue ≡ paired (length types.now) (params (P.count values) (P.gives_at values)) (query_typed_raw find_all query.now types.now (params (P.count values) (P.gives_at values))) }
        ensures finds { (⟦<QueryTypedRawState<'b, P> as Opens>⟧.finding result).dialogue ≡ paired (length types.now) (params (P.count values) (P.gives_at values)) (finds_rows find_all query.now types.now (params (P.count values) (P.gives_at values))) }
        ensures stands { ⟦<QueryTypedRawState<'b, P> as Opens>⟧.asks result ≡ (λ _. (⟦<QueryTypedRawState<'b, P> as Opens>⟧.place result).dialogue) }
        ensures first { ⟦<QueryTypedRawState<'b, P> as Opens>⟧.first result ≡ (λ (k : FoundRows). opens_first k.taken) }
    {
        self.client.query_typed_raw(query, values, types)
    }

    /// `Client::query_typed_one`, in the transaction.
    pub fn query_typed_one<'b, P: Params + Drop>(
        &self,
        query: &'b str,
        values: P,
        types: &'b [Type],
    ) -> QueryTypedOneState<'b, P>
        ensures live { ⟦<QueryTypedOneState<'b, P> as Polled>⟧.is_live result }
        ensures asks { (⟦<QueryTypedOneState<'b, P> as Polled>⟧.place result).dialogue ≡ made one_row (paired (length types.now) (params (P.count values) (P.gives_at values)) (query_typed find_all HowMany.One query.now types.now (params (P.count values) (P.gives_at values)))) }
    {
        self.client.query_typed_one(query, values, types)
    }

    /// `Client::query_typed_opt`, in the transaction.
    pub fn query_typed_opt<'b, P: Params + Drop>(
        &self,
        query: &'b str,
        values: P,
        types: &'b [Type],
    ) -> QueryTypedOptState<'b, P>
        ensures live { ⟦<QueryTypedOptState<'b, P> as Polled>⟧.is_live result }
        ensures asks { (⟦<QueryTypedOptState<'b, P> as Polled>⟧.place result).dialogue ≡ made maybe_row (paired (length types.now) (params (P.count values) (P.gives_at values)) (query_typed find_all HowMany.AtMostOne query.now types.now (params (P.count values) (P.gives_at values)))) }
    {
        self.client.query_typed_opt(query, values, types)
    }

    /// `Client::execute_typed`, in the transaction.
    pub fn execute_typed<'b, P: Params + Drop>(
        &self,
        query: &'b str,
        values: P,
        types: &'b [Type],
    ) -> ExecuteTypedState<'b, P>
        ensures live { ⟦<ExecuteTypedState<'b, P> as Polled>⟧.is_live result }
        ensures asks { (⟦<ExecuteTypedState<'b, P> as Polled>⟧.place result).dialogue ≡ paired (length types.now) (params (P.count values) (P.gives_at values)) (execute_typed query.now types.now (params (P.count values) (P.gives_at values))) }
    {
        self.client.execute_typed(query, values, types)
    }
}
