//! The client, and what it can be asked.

ghost use Rattle.std.specs.Prelude.{◌≡◌, [], length, map, None};
ghost use Rattle.pg_client.specs.Showing.{session_check};
ghost use Rattle.pg_client.specs.States.{place_of_check as place_of_session_check, IsLiveCheck as IsLiveSessionCheck};
ghost use Rattle.pg_client.specs.Done.{batch_execute, check_connection};
ghost use Rattle.pg_client.specs.DoneStates.{place_of_batch, IsLiveBatch, place_of_check, IsLiveCheck};
ghost use Rattle.pg_execute.specs.Executes.{close, execute, query, query_scalar_as};
ghost use Rattle.pg_execute.specs.Parameters.{params};
ghost use Rattle.pg_execute.specs.Targets.{on_target};
ghost use Rattle.pg_execute.specs.Typed.{execute_typed, query_typed};
ghost use Rattle.pg_states.specs.Texts.{prepare_text};
ghost use Rattle.pg_core.specs.Lookups.{find_all, prepare};
ghost use Rattle.pg_streams.specs.States.{FindsIn, statement_in};
ghost use Rattle.pg_streams.specs.RowStreams.{query_raw};
ghost use Rattle.pg_streams.specs.SimpleStreams.{simple_query_raw};
ghost use Rattle.pg_states.specs.Paired.{paired};
ghost use Rattle.pg_streams.specs.TypedRawStates.{opens_first};
ghost use Rattle.pg_streams.specs.TypedRaw.{FoundRows, finds_rows, query_typed_raw};
ghost use Rattle.pg_calls.specs.Answers.{at_most_one, maybe_row, one_of, one_row, rows_of};
ghost use Rattle.pg_calls.specs.Clearing.{Clears};
ghost use Rattle.pg_query.specs.Made.{made};

use crate::answered::Answered;
use crate::answers::{
    AllRows, ExecuteTypedState, MaybeOf, MaybeRow, OneOf, OneRow, QueryOneScalarState,
    QueryOneState, QueryOptScalarState, QueryOptState, QueryState, QueryTypedOneState,
    QueryTypedOptState, QueryTypedState,
};
use pg_client::{
    BatchExecuteState, CheckConnectionState, SessionCheckState, batch_execute_state,
    check_connection_state, session_check_state,
};
use pg_config::TargetSessionAttrs;
use pg_core::ParamTypes;
use pg_desk::{Desk, Statement};
use pg_errors::Error;
use pg_execute::{HowMany, Scalar, Target, Types};
use pg_open::{CancelToken, SessionInfo};
use pg_query::{Polled, error_of};
use pg_states::{
    CloseState, ExecuteState, PrepareState, QueryScalarState, close_state, execute_state,
    executed_by_types, prepare_state, queried_by_types, query_scalar_state, query_state,
};
use pg_streams::{
    Opens, QueryRawState, QueryTypedRawState, SimpleQueryRawState, SimpleQueryState,
    simple_query_state,
};
use pg_types::{Params, Sql, Type};

/// A client of a connection. It holds no connection: a call makes a state, which is polled over the desk of the
/// connection until it answers. Making a state books nothing and takes no memory, and the state doesn't borrow the
/// client.
#[derive(Clone, Copy, Drop)]
pub struct Client {
    owner: u32,
    info: SessionInfo,
}

impl Client {
    /// The client of the session of which this is known. `owner` is its number among the clients of the connection,
    /// from 0, for the stamps of its requests.
    pub fn new(owner: u32, info: &SessionInfo) -> Client
        ensures owner { result.owner ≡ owner }
        ensures info { result.info ≡ info.now }
    {
        Client { owner, info: *info }
    }

    /// Its number among the clients of the connection, from 0.
    pub fn owner(&self) -> u32
        ensures { result ≡ self.now.owner }
    {
        self.owner
    }

    /// What cancels a request of its session.
    pub fn cancel_token(&self) -> CancelToken
        ensures { result.info ≡ self.now.info }
    {
        CancelToken::new(&self.info)
    }

    /// Has the desk drop the types that it keeps. The statements that look types up stay. Closed comes exactly where
    /// the desk answers it, which is after the connection failed; it changes nothing then.
    pub fn clear_type_cache<D: Desk>(&self, desk: &mut D) -> Result<(), Error>
        ensures { Clears D.becomes desk.old desk.new result }
    {
        desk.clear_type_cache().map_err(|fault| error_of(fault))
    }

    /// Whether the connection takes no request any more.
    pub fn is_closed<D: Desk>(&self, desk: &D) -> bool
        ensures { D.tells_closed desk.now result }
    {
        desk.is_closed()
    }

    /// A simple query of this text, which may hold several statements (PostgreSQL documentation, "Simple Query"). It
    /// answers the columns, the rows and the counts, in order. Encode comes where the text can't be sent;
    /// Db at an error of the server; Parse at a message that can't be read; UnexpectedMessage at one out of place; Closed
    /// where the desk takes no requests any more, or gives no more of the reply. At an error the request is hung up.
    pub fn simple_query<'a>(&self, query: &'a str) -> SimpleQueryState<'a>
        ensures live { ⟦<SimpleQueryState<'a> as Polled>⟧.is_live result }
        ensures asks { (⟦<SimpleQueryState<'a> as Polled>⟧.place result).dialogue ≡ simple_query_raw query.now }
    {
        simple_query_state(Sql::Borrowed(query))
    }

    /// Like `simple_query`, where its reply is handed on as a stream, in the first poll. Encode comes in that poll, and Closed
    /// where the desk takes no requests any more; all errors but Encode come from the stream too.
    pub fn simple_query_raw<'a>(&self, query: &'a str) -> SimpleQueryRawState<'a>
        ensures live { ⟦<SimpleQueryRawState<'a> as Opens>⟧.is_live result }
        ensures asks { (⟦<SimpleQueryRawState<'a> as Opens>⟧.place result).dialogue ≡ simple_query_raw query.now }
        ensures first { ⟦<SimpleQueryRawState<'a> as Opens>⟧.first result ≡ (λ _ more. record { told = None; giving = tt; left = more }) }
    {
        SimpleQueryRawState::new(Sql::Borrowed(query))
    }

    /// A batch of the statements of this text. Like `simple_query`, errors too, with the end alone as its answer.
    pub fn batch_execute<'a>(&self, query: &'a str) -> BatchExecuteState<'a>
        ensures live { IsLiveBatch result }
        ensures asks { (place_of_batch result).dialogue ≡ batch_execute query.now }
    {
        batch_execute_state(Sql::Borrowed(query))
    }

    /// A check of the connection: a Sync alone (PostgreSQL documentation, "Extended Query"). The errors are those of
    /// `simple_query` but Encode.
    pub fn check_connection(&self) -> CheckConnectionState
        ensures live { IsLiveCheck result }
        ensures asks { (place_of_check result).dialogue ≡ check_connection }
    {
        check_connection_state()
    }

    /// A check that the session is of this kind; `session_check_state` says when Connect, Column and FromSql come. The
    /// others are those of `simple_query` but Encode. For Any nothing is asked.
    pub fn session_check(&self, attrs: TargetSessionAttrs) -> SessionCheckState
        ensures live { IsLiveSessionCheck result }
        ensures asks { (place_of_session_check result).dialogue ≡ session_check attrs }
    {
        session_check_state(attrs)
    }

    /// Prepares a statement of this text (PostgreSQL documentation, "Extended Query"). The server tells the types of its
    /// parameters; types that aren't known are looked up in its catalog. The errors are those of `simple_query`. Encode
    /// comes also where the numbers of statements are used up, and errors of Parameters, ToSql, Column and FromSql where
    /// the catalog answers out of form.
    pub fn prepare<'a>(&self, query: &'a str) -> PrepareState<'a>
        ensures live { ⟦<PrepareState<'a> as Polled>⟧.is_live result }
        ensures asks { (⟦<PrepareState<'a> as Polled>⟧.place result).dialogue ≡ prepare query.now [] }
    {
        prepare_state(Sql::Borrowed(query), ParamTypes::Oids(&[]))
    }

    /// Like `prepare`, with the types of the first parameters. The server tells those of any further ones.
    pub fn prepare_typed<'a>(&self, query: &'a str, types: &'a [Type]) -> PrepareState<'a>
        ensures live { ⟦<PrepareState<'a> as Polled>⟧.is_live result }
        ensures asks { (⟦<PrepareState<'a> as Polled>⟧.place result).dialogue ≡ prepare query.now (map (λ ty. ty.oid) types.now) }
    {
        prepare_state(Sql::Borrowed(query), ParamTypes::Types(types))
    }

    /// Executes a statement or a text with these values, and answers its rows (PostgreSQL documentation, "Extended
    /// Query"). A text is prepared before, with the errors of that, and its statement is closed behind the answer.
    /// Parameters comes where the values aren't as many as the parameters; ToSql at the first that can't stand as its
    /// parameter; Encode where the frames can't be written. These three book nothing for the statement. The others are
    /// those of `simple_query`.
    pub fn query<'a, P: Params + Drop>(&self, target: Target<'a>, values: P) -> QueryState<'a, P>
        ensures live { ⟦<QueryState<'a, P> as Polled>⟧.is_live result }
        ensures asks { (⟦<QueryState<'a, P> as Polled>⟧.place result).dialogue ≡ made rows_of (on_target prepare_text (λ s. query HowMany.Any s (params (P.count values) (P.gives_at values))) target.entry) }
    {
        Answered::new(query_state(target, HowMany::Any, values), AllRows)
    }

    /// Like `query`, where its rows are handed on as a stream, once the server took the values. The errors are those of `query`;
    /// from then on they come from the stream. The statement of a text is closed behind the stream.
    pub fn query_raw<'a, P: Params + Drop>(
        &self,
        target: Target<'a>,
        values: P,
    ) -> QueryRawState<'a, P>
        ensures live { ⟦<QueryRawState<'a, P> as Opens>⟧.is_live result }
        ensures asks { (⟦<QueryRawState<'a, P> as Opens>⟧.place result).dialogue ≡ on_target prepare_text (λ s. query_raw s (params (P.count values) (P.gives_at values))) target.entry }
        ensures knows { ⟦<QueryRawState<'a, P> as Opens>⟧.knows result ≡ statement_in target.entry }
        ensures finds { FindsIn target.entry (params (P.count values) (P.gives_at values)) (⟦<QueryRawState<'a, P> as Opens>⟧.finding result) (⟦<QueryRawState<'a, P> as Opens>⟧.asks result) (⟦<QueryRawState<'a, P> as Opens>⟧.first result) }
    {
        QueryRawState::new(target, values)
    }

    /// Like `query`, where there must be one row, which is the answer: RowCount comes where there is none, or a second one.
    pub fn query_one<'a, P: Params + Drop>(
        &self,
        target: Target<'a>,
        values: P,
    ) -> QueryOneState<'a, P>
        ensures live { ⟦<QueryOneState<'a, P> as Polled>⟧.is_live result }
        ensures asks { (⟦<QueryOneState<'a, P> as Polled>⟧.place result).dialogue ≡ made one_row (on_target prepare_text (λ s. query HowMany.One s (params (P.count values) (P.gives_at values))) target.entry) }
    {
        Answered::new(query_state(target, HowMany::One, values), OneRow)
    }

    /// Like `query`, where there may be one row, which is the answer: RowCount comes where there is a second one.
    pub fn query_opt<'a, P: Params + Drop>(
        &self,
        target: Target<'a>,
        values: P,
    ) -> QueryOptState<'a, P>
        ensures live { ⟦<QueryOptState<'a, P> as Polled>⟧.is_live result }
        ensures asks { (⟦<QueryOptState<'a, P> as Polled>⟧.place result).dialogue ≡ made maybe_row (on_target prepare_text (λ s. query HowMany.AtMostOne s (params (P.count values) (P.gives_at values))) target.entry) }
    {
        Answered::new(query_state(target, HowMany::AtMostOne, values), MaybeRow)
    }

    /// Like `query`, where the rows have one column, whose values are the answer. At the end of the rows, where there
    /// are any, ColumnCount comes where they have another number of columns, then FromSql at the first cell that isn't a value of its type.
    pub fn query_scalar<'a, R: Scalar, P: Params + Drop>(
        &self,
        target: Target<'a>,
        values: P,
    ) -> QueryScalarState<'a, R, P>
        ensures live { ⟦<QueryScalarState<'a, R, P> as Polled>⟧.is_live result }
        ensures asks { (⟦<QueryScalarState<'a, R, P> as Polled>⟧.place result).dialogue ≡ on_target prepare_text (λ s. query_scalar_as R.reads HowMany.Any s (params (P.count values) (P.gives_at values))) target.entry }
    {
        query_scalar_state(target, HowMany::Any, values)
    }

    /// The value of the one column of one row: like `query_scalar` and `query_one`.
    pub fn query_one_scalar<'a, R: Scalar, P: Params + Drop>(
        &self,
        target: Target<'a>,
        values: P,
    ) -> QueryOneScalarState<'a, R, P>
        ensures live { ⟦<QueryOneScalarState<'a, R, P> as Polled>⟧.is_live result }
        ensures asks { (⟦<QueryOneScalarState<'a, R, P> as Polled>⟧.place result).dialogue ≡ made one_of (on_target prepare_text (λ s. query_scalar_as R.reads HowMany.One s (params (P.count values) (P.gives_at values))) target.entry) }
    {
        Answered::new(
            query_scalar_state(target, HowMany::One, values),
            OneOf::new(),
        )
    }

    /// The value of the one column of the row, where there is one: like `query_scalar` and `query_opt`.
    pub fn query_opt_scalar<'a, R: Scalar, P: Params + Drop>(
        &self,
        target: Target<'a>,
        values: P,
    ) -> QueryOptScalarState<'a, R, P>
        ensures live { ⟦<QueryOptScalarState<'a, R, P> as Polled>⟧.is_live result }
        ensures asks { (⟦<QueryOptScalarState<'a, R, P> as Polled>⟧.place result).dialogue ≡ made at_most_one (on_target prepare_text (λ s. query_scalar_as R.reads HowMany.AtMostOne s (params (P.count values) (P.gives_at values))) target.entry) }
    {
        Answered::new(
            query_scalar_state(target, HowMany::AtMostOne, values),
            MaybeOf::new(),
        )
    }

    /// Executes a statement or a text with these values, and answers how many rows its last command affected, 0 where none
    /// ended. Rows aren't read. The errors are those of `query`.
    pub fn execute<'a, P: Params + Drop>(
        &self,
        target: Target<'a>,
        values: P,
    ) -> ExecuteState<'a, P>
        ensures live { ⟦<ExecuteState<'a, P> as Polled>⟧.is_live result }
        ensures asks { (⟦<ExecuteState<'a, P> as Polled>⟧.place result).dialogue ≡ on_target prepare_text (λ s. execute s (params (P.count values) (P.gives_at values))) target.entry }
    {
        execute_state(target, values)
    }

    /// The same as `execute`: values are any `Params` in both.
    pub fn execute_raw<'a, P: Params + Drop>(
        &self,
        target: Target<'a>,
        values: P,
    ) -> ExecuteState<'a, P>
        ensures live { ⟦<ExecuteState<'a, P> as Polled>⟧.is_live result }
        ensures asks { (⟦<ExecuteState<'a, P> as Polled>⟧.place result).dialogue ≡ on_target prepare_text (λ s. execute s (params (P.count values) (P.gives_at values))) target.entry }
    {
        self.execute(target, values)
    }

    /// Executes a text with these values, each of the type at its place, in one request, and answers its rows
    /// (PostgreSQL documentation, "Extended Query"). Nothing is booked where one of these comes: Parameters, if the values
    /// aren't as many as the types; Parse, if the text can't be sent, or there are more than 65,535 types; ToSql at the first
    /// value that can't stand under its type; Encode, if the other frames can't be written. Behind that, Db comes at an error of
    /// the server; Parse at a message that can't be read; UnexpectedMessage at one out of place; Closed as for `simple_query`.
    /// Types of columns that aren't known are looked up in the server's catalog, with the errors of a prepare, once the rest of
    /// the reply was taken.
    pub fn query_typed<'a, P: Params + Drop>(
        &self,
        query: &'a str,
        values: P,
        types: &'a [Type],
    ) -> QueryTypedState<'a, P>
        ensures live { ⟦<QueryTypedState<'a, P> as Polled>⟧.is_live result }
        ensures asks { (⟦<QueryTypedState<'a, P> as Polled>⟧.place result).dialogue ≡ made rows_of (paired (length types.now) (params (P.count values) (P.gives_at values)) (query_typed find_all HowMany.Any query.now types.now (params (P.count values) (P.gives_at values)))) }
    {
        Answered::new(
            queried_by_types(HowMany::Any, query, types, values),
            AllRows,
        )
    }

    /// Like `query_typed`, where its rows are handed on as a stream, once their columns came and the types of these are known. Where one
    /// is looked up, the rest of the reply is taken before, and once the lookup succeeded the stream gives what was taken: rows in
    /// front of an error, and then the error.
    pub fn query_typed_raw<'a, P: Params + Drop>(
        &self,
        query: &'a str,
        values: P,
        types: &'a [Type],
    ) -> QueryTypedRawState<'a, P>
        ensures live { ⟦<QueryTypedRawState<'a, P> as Opens>⟧.is_live result }
        ensures asks { (⟦<QueryTypedRawState<'a, P> as Opens>⟧.place result).dialogue ≡ paired (length types.now) (params (P.count values) (P.gives_at values)) (query_typed_raw find_all query.now types.now (params (P.count values) (P.gives_at values))) }
        ensures finds { (⟦<QueryTypedRawState<'a, P> as Opens>⟧.finding result).dialogue ≡ paired (length types.now) (params (P.count values) (P.gives_at values)) (finds_rows find_all query.now types.now (params (P.count values) (P.gives_at values))) }
        ensures stands { ⟦<QueryTypedRawState<'a, P> as Opens>⟧.asks result ≡ (λ _. (⟦<QueryTypedRawState<'a, P> as Opens>⟧.place result).dialogue) }
        ensures first { ⟦<QueryTypedRawState<'a, P> as Opens>⟧.first result ≡ (λ (k : FoundRows). opens_first k.taken) }
    {
        QueryTypedRawState::new(Sql::Borrowed(query), Types::Given(types), values)
    }

    /// Like `query_typed`, where there must be one row: RowCount comes where there is none, or a second one.
    pub fn query_typed_one<'a, P: Params + Drop>(
        &self,
        query: &'a str,
        values: P,
        types: &'a [Type],
    ) -> QueryTypedOneState<'a, P>
        ensures live { ⟦<QueryTypedOneState<'a, P> as Polled>⟧.is_live result }
        ensures asks { (⟦<QueryTypedOneState<'a, P> as Polled>⟧.place result).dialogue ≡ made one_row (paired (length types.now) (params (P.count values) (P.gives_at values)) (query_typed find_all HowMany.One query.now types.now (params (P.count values) (P.gives_at values)))) }
    {
        Answered::new(queried_by_types(HowMany::One, query, types, values), OneRow)
    }

    /// Like `query_typed`, where there may be one row: RowCount comes where there is a second one.
    pub fn query_typed_opt<'a, P: Params + Drop>(
        &self,
        query: &'a str,
        values: P,
        types: &'a [Type],
    ) -> QueryTypedOptState<'a, P>
        ensures live { ⟦<QueryTypedOptState<'a, P> as Polled>⟧.is_live result }
        ensures asks { (⟦<QueryTypedOptState<'a, P> as Polled>⟧.place result).dialogue ≡ made maybe_row (paired (length types.now) (params (P.count values) (P.gives_at values)) (query_typed find_all HowMany.AtMostOne query.now types.now (params (P.count values) (P.gives_at values)))) }
    {
        Answered::new(
            queried_by_types(HowMany::AtMostOne, query, types, values),
            MaybeRow,
        )
    }

    /// Executes a text with values of these types, in one request, and answers how many rows its last command affected, 0
    /// where it is empty, where NoData stands behind it, or where none ended. Rows aren't read, and no type is looked up. The
    /// errors are those of `query_typed` but those of a lookup.
    pub fn execute_typed<'a, P: Params + Drop>(
        &self,
        query: &'a str,
        values: P,
        types: &'a [Type],
    ) -> ExecuteTypedState<'a, P>
        ensures live { ⟦<ExecuteTypedState<'a, P> as Polled>⟧.is_live result }
        ensures asks { (⟦<ExecuteTypedState<'a, P> as Polled>⟧.place result).dialogue ≡ paired (length types.now) (params (P.count values) (P.gives_at values)) (execute_typed query.now types.now (params (P.count values) (P.gives_at values))) }
    {
        executed_by_types(query, types, values)
    }

    /// Closes a statement (PostgreSQL documentation, "Extended Query", under Close). Nobody reads the server's reply. Closed
    /// comes where the desk takes no requests any more; Encode where the statement's name can't be written, which no prepare
    /// gives, and nothing is sent then.
    pub fn close<'a>(&self, statement: &'a Statement) -> CloseState<'a>
        ensures live { ⟦<CloseState<'a> as Polled>⟧.is_live result }
        ensures asks { (⟦<CloseState<'a> as Polled>⟧.place result).dialogue ≡ close statement.now }
    {
        close_state(statement)
    }
}
