//! A text is queried with values of given types, and its rows are given one by one.

ghost use Rattle.std.specs.Prelude.{◌≡◌, ℕ, List, [], true, IfOk, MatchResult};
ghost use Rattle.pg_core.specs.Lookups.{find_all};
ghost use Rattle.pg_query.specs.Meaning.{GivesUp, MatchPoll};
ghost use Rattle.pg_types.specs.declared.pg_type.PgType.{PgType};
ghost use Rattle.pg_types.specs.Texts.{sql_text};
ghost use Rattle.pg_execute.specs.Parameters as parameters;
ghost use Rattle.pg_execute.specs.Parameters.{params};
ghost use Rattle.pg_execute.specs.Types.{types_in};
ghost use Rattle.pg_execute.specs.Typed.{has_ended};
ghost use Rattle.pg_streams.specs.Brought.{joined};
ghost use Rattle.pg_streams.specs.Heads as spec;
ghost use Rattle.pg_streams.specs.Known.{stands_behind};
ghost use Rattle.pg_streams.specs.Rests.{IsRest, came, takes_so};
ghost use Rattle.pg_streams.specs.Rests as resting;
ghost use Rattle.pg_streams.specs.TypedRawStates.{Books, Finishes, FindsOn, GivesOn, IsFinding, IsLiveAt, IsRequest, Polls, ReadsOn, TakesOn, asks_typed, behind_columns, behind_rest, columns_first, found_place, opens_first, paired_request, place_of_finding, rests_first, stage_first, stage_place, types_count};
ghost use Rattle.pg_streams.specs.TypedRaw.{FoundRows, finds_rows, oids_of, query_typed_raw};
ghost use Rattle.pg_states.specs.Paired.{paired};

use crate::columns::{type_oids, unnamed};
use crate::finding::FindState;
use crate::heads::Heads;
use crate::known::all_known;
use crate::rests::Rest;
use crate::taking::give_up;
use crate::{Opens, RowStream};
use bytes::Bytes;
use futures::task::Poll;
use pg_core::NewColumn;
use pg_desk::{Desk, Stamp};
use pg_errors::Error;
use pg_execute::{Types, request_under};
use pg_query::{Polled, error_of};
use pg_types::{List, Params, Sql, Type};
use pg_wire::BackendMessages;
use std::alloc::Global;
use std::collections::VecDeque;
use std::mem;

/// What is asked in the first poll.
#[derive(Drop)]
pub(crate) struct TypedAsks<'a, P> {
    text: Sql<'a>,
    types: Types<'a>,
    values: P,
}

/// How far the reply has come.
#[derive(Drop)]
pub(crate) enum Stage {
    /// The request was booked, and its columns haven't come.
    Reads(Heads),
    /// A type has to be looked up, and the rest of the reply hasn't come.
    Takes(List<NewColumn>, Rest),
    /// The rest was taken, and the types are found.
    Finds(List<NewColumn>, VecDeque<BackendMessages>, FindState),
    /// Nothing was asked, or it answered.
    Done,
}

/// How many types were given.
fn count_of(types: &Types) -> usize
    ensures { result ≡ types_count types.now }
{
    match types {
        Types::Given(types) => types.len(),
        Types::BuiltIn(oids) => oids.len(),
        Types::Owned(types) => types.as_slice().len(),
    }
}

/// The request, or why it is refused.
fn request_of<P: Params>(
    alloc: Global,
    text: &str,
    types: &Types,
    values: &P,
) -> Result<Bytes, Error>
    ensures { IsRequest (paired_request text.now (types_count types.now) (types_in types.now) (params (P.count values.now) (P.gives_at values.now))) result }
{
    let given = values.len();
    let count = count_of(types);
    if given != count {
        return Err(Error::Parameters(given, count));
    }
    request_under(alloc, text, types, values)?
}

/// Books a request.
fn ask<D: Desk>(
    alloc: Global,
    desk: &mut D,
    stamp: Stamp,
    request: Result<Bytes, Error>,
) -> Result<Heads, Error>
    ensures books { (text : List ℕ) (count : ℕ) (types : List PgType) (vs : parameters.Params) → IsRequest (paired_request text count types vs) request →
        Books D.becomes stamp desk.old (λ rows. record { dialogue = asks_typed rows text count types vs; reads = 0 }) desk.new result }
    ensures empty { IfOk result (λ heads. heads.batch ≡ []) }
{
    match request {
        Ok(request) => match desk.book(alloc, stamp, request, false) {
            Ok(id) => {
                Ok(Heads {
                    id,
                    batch: BackendMessages::empty(),
                })
            }
            Err(fault) => Err(error_of(fault)),
        },
        Err(error) => Err(error),
    }
}

/// The rows of columns whose types are known, behind which these messages came.
fn read_on(
    alloc: Global,
    columns: List<NewColumn>,
    types: List<Type>,
    request: Heads,
) -> Result<RowStream, Error>
    ensures { MatchResult result (λ stream. ReadsOn columns types request stream) (λ e. e ≡ Error.OutOfMemory) }
{
    let statement = unnamed(alloc, columns, types)?;
    let Heads { id, batch } = request;
    Ok(RowStream::behind_columns(alloc, statement, id, batch))
}

/// The rows that were taken, of columns whose types were found.
fn give_on(
    alloc: Global,
    columns: List<NewColumn>,
    types: List<Type>,
    batches: VecDeque<BackendMessages>,
) -> Result<RowStream, Error>
    ensures { MatchResult result (λ stream. GivesOn columns types (joined batches.items) stream) (λ e. e ≡ Error.OutOfMemory) }
{
    let statement = unnamed(alloc, columns, types)?;
    Ok(RowStream::of_taken(statement, batches))
}

/// The state that finds the types of these columns.
fn find_types(alloc: Global, columns: &[NewColumn]) -> Result<FindState, Error>
    ensures { MatchResult result
        (λ state. IsFinding state × ((place_of_finding state).dialogue ≡ find_all (oids_of columns.now)))
        (λ e. e ≡ Error.OutOfMemory) }
{
    let Ok(oids) = type_oids(alloc, columns) else {
        return Err(Error::OutOfMemory);
    };
    match FindState::new(alloc, oids) {
        Ok(state) => Ok(state),
        Err(_) => Err(Error::OutOfMemory),
    }
}

/// The reply of a typed query, whose stream of rows is handed on.
#[derive(Drop)]
pub(crate) struct TypedReply {
    stage: Stage,
}

impl TypedReply {
    /// Books the request, and reads on to the columns.
    fn begin<D: Desk>(
        &mut self,
        alloc: Global,
        desk: &mut D,
        stamp: Stamp,
        request: Result<Bytes, Error>,
    ) -> Poll<Result<RowStream, Error>>
        ensures { (text : List ℕ) (count : ℕ) (types : List PgType) (vs : parameters.Params) → IsRequest (paired_request text count types vs) request →
            Polls D.becomes stamp desk.old (λ rows. record { dialogue = asks_typed rows text count types vs; reads = 0 }) opens_first desk.new self.new.stage result }
    {
        match ask(alloc, desk, stamp, request) {
            Ok(request) => self.read(alloc, desk, stamp, request),
            Err(error) => Poll::Ready(Err(error)),
        }
    }

    /// Goes on with the reply.
    fn go_on<D: Desk>(
        &mut self,
        alloc: Global,
        desk: &mut D,
        stamp: Stamp,
    ) -> Poll<Result<RowStream, Error>>
        requires { IsLiveAt self.old.stage }
        ensures { Polls D.becomes stamp desk.old (λ rows. stage_place rows self.old.stage) (stage_first self.old.stage) desk.new self.new.stage result }
    {
        match mem::replace(&mut self.stage, Stage::Done) {
            Stage::Reads(request) => self.read(alloc, desk, stamp, request),
            Stage::Takes(columns, rest) => self.take(alloc, desk, stamp, columns, rest),
            Stage::Finds(columns, batches, state) => {
                self.find(alloc, desk, stamp, columns, batches, state)
            }
            Stage::Done => Poll::Ready(Err(Error::Closed)),
        }
    }

    /// Reads on to the columns.
    fn read<D: Desk>(
        &mut self,
        alloc: Global,
        desk: &mut D,
        stamp: Stamp,
        request: Heads,
    ) -> Poll<Result<RowStream, Error>>
        requires { request.batch ≡ [] }
        ensures { Polls D.becomes stamp desk.old (λ rows. (spec.heads rows request).place (behind_columns rows)) opens_first desk.new self.new.stage result }
    {
        let mut request = request;
        match request.go_on(alloc, desk, stamp) {
            Poll::Pending => {
                self.stage = Stage::Reads(request);
                Poll::Pending
            }
            Poll::Ready(Ok(columns)) => self.know(alloc, desk, stamp, columns, request),
            Poll::Ready(Err(error)) => Poll::Ready(Err(error)),
        }
    }

    /// Goes on with the columns: where the type of each is known the rows are read on, and otherwise the rest is taken.
    fn know<D: Desk>(
        &mut self,
        alloc: Global,
        desk: &mut D,
        stamp: Stamp,
        columns: List<NewColumn>,
        request: Heads,
    ) -> Poll<Result<RowStream, Error>>
        ensures { Polls D.becomes stamp desk.old (λ rows. (spec.with_columns rows columns request).place (behind_columns rows)) (columns_first request.batch) desk.new self.new.stage result }
    {
        let Ok(oids) = type_oids(alloc, columns.as_slice()) else {
            return Poll::Ready(Err(Error::OutOfMemory));
        };
        match all_known(alloc, desk, request.id, oids) {
            Ok(Some(types)) => Poll::Ready(read_on(alloc, columns, types, request)),
            Ok(None) => self.take_rest(alloc, desk, stamp, columns, request),
            Err(error) => Poll::Ready(Err(error)),
        }
    }

    /// Begins to take the rest, with the messages that came.
    fn take_rest<D: Desk>(
        &mut self,
        alloc: Global,
        desk: &mut D,
        stamp: Stamp,
        columns: List<NewColumn>,
        request: Heads,
    ) -> Poll<Result<RowStream, Error>>
        ensures { TakesOn D.becomes stamp desk.old (λ rows. stands_behind request.batch (takes_so (behind_rest rows columns)) request.id) (rests_first request.batch) desk.new self.new.stage result }
    {
        let Heads { id, batch } = request;
        let mut rest = Rest::new(alloc, id);
        match rest.add(batch) {
            Ok(()) => self.take(alloc, desk, stamp, columns, rest),
            Err(error) => Poll::Ready(Err(error)),
        }
    }

    /// Takes the rest up to its end.
    fn take<D: Desk>(
        &mut self,
        alloc: Global,
        desk: &mut D,
        stamp: Stamp,
        columns: List<NewColumn>,
        rest: Rest,
    ) -> Poll<Result<RowStream, Error>>
        requires { IsRest rest }
        ensures { TakesOn D.becomes stamp desk.old (λ rows. (resting.rests rows rest).place (behind_rest rows columns)) (rests_first (came rest)) desk.new self.new.stage result }
    {
        let mut rest = rest;
        match rest.go_on(desk, stamp) {
            Poll::Pending => {
                self.stage = Stage::Takes(columns, rest);
                Poll::Pending
            }
            Poll::Ready(Ok(())) => self.end(alloc, desk, stamp, columns, rest),
            Poll::Ready(Err(error)) => Poll::Ready(Err(error)),
        }
    }

    /// Hangs up the request whose rest was taken, and finds the types of its columns.
    fn end<D: Desk>(
        &mut self,
        alloc: Global,
        desk: &mut D,
        stamp: Stamp,
        columns: List<NewColumn>,
        rest: Rest,
    ) -> Poll<Result<RowStream, Error>>
        requires { has_ended (came rest) ≡ true }
        ensures { TakesOn D.becomes stamp desk.old (λ rows. (resting.rests rows rest).place (behind_rest rows columns)) (rests_first (came rest)) desk.new self.new.stage result }
    {
        let Rest { id, batches, .. } = rest;
        match desk.hang_up(id) {
            Ok(()) => {}
            Err(fault) => return Poll::Ready(Err(error_of(fault))),
        }
        match find_types(alloc, columns.as_slice()) {
            Ok(state) => self.find(alloc, desk, stamp, columns, batches, state),
            Err(error) => Poll::Ready(Err(error)),
        }
    }

    /// Goes on with types that are found.
    fn find<D: Desk>(
        &mut self,
        alloc: Global,
        desk: &mut D,
        stamp: Stamp,
        columns: List<NewColumn>,
        batches: VecDeque<BackendMessages>,
        state: FindState,
    ) -> Poll<Result<RowStream, Error>>
        requires { IsFinding state }
        ensures { MatchPoll result
            (λ r. Finishes D.becomes stamp desk.old (λ rows. found_place rows columns (joined batches.items) (place_of_finding state)) (joined batches.items) desk.new r)
            (FindsOn D.becomes stamp desk.old (λ rows. found_place rows columns (joined batches.items) (place_of_finding state)) (joined batches.items) desk.new self.new.stage) }
    {
        let mut state = state;
        match state.poll(alloc, desk, stamp) {
            Poll::Pending => {
                self.stage = Stage::Finds(columns, batches, state);
                Poll::Pending
            }
            Poll::Ready(Ok(types)) => Poll::Ready(give_on(alloc, columns, types, batches)),
            Poll::Ready(Err(error)) => Poll::Ready(Err(error)),
        }
    }

    /// Ends it without an answer, and does what is left to do.
    fn hang_up<D: Desk>(self, alloc: Global, desk: &mut D, stamp: Stamp) -> Result<(), Error>
        requires { IsLiveAt self.stage }
        ensures { GivesUp D.becomes stamp desk.old (stage_place true self.stage) desk.new result }
    {
        let TypedReply { stage } = self;
        match stage {
            Stage::Reads(request) => give_up(desk, request.id),
            Stage::Takes(_, rest) => give_up(desk, rest.id),
            Stage::Finds(_, _, state) => state.hang_up(alloc, desk, stamp),
            Stage::Done => Ok(()),
        }
    }
}

/// The state that queries a text with values of given types, in one request, and whose stream of rows is the answer, once its columns
/// and their types are known.
#[derive(Drop)]
pub struct QueryTypedRawState<'a, P> {
    /// None once it was asked.
    asks: Option<TypedAsks<'a, P>>,
    reply: TypedReply,
}

impl<'a, P: Params + Drop> QueryTypedRawState<'a, P> {
    /// Makes the state that queries this text with these values, each of the type at its place. It takes no memory, and books nothing
    /// before its first poll. Parameters comes where the values aren't as many as the types, Parse where the text can't be sent or there are more than 65,535 types, then
    /// ToSql at the first value that can't stand under its type, then Encode where the other frames can't be written; nothing is
    /// booked then. Behind that Db comes at an error of the server, Parse at a message that can't be read, UnexpectedMessage at one
    /// out of place, Closed where the desk takes no requests any more, or gives no more of the reply. Types of columns that aren't
    /// known are looked up in the server's catalog, once the rest of the reply was taken; where a lookup fails, its error is the answer,
    /// and what was taken is lost. Else the stream gives the rows in front of an error, and then that.
    pub fn new(text: Sql<'a>, types: Types<'a>, values: P) -> QueryTypedRawState<'a, P>
        ensures live { ⟦<QueryTypedRawState<'a, P> as Opens>⟧.is_live result }
        ensures asks { (⟦<QueryTypedRawState<'a, P> as Opens>⟧.place result).dialogue ≡ paired (types_count types.entry) (params (P.count values) (P.gives_at values)) (query_typed_raw find_all (sql_text text.entry) (types_in types.entry) (params (P.count values) (P.gives_at values))) }
        ensures finds { (⟦<QueryTypedRawState<'a, P> as Opens>⟧.finding result).dialogue ≡ paired (types_count types.entry) (params (P.count values) (P.gives_at values)) (finds_rows find_all (sql_text text.entry) (types_in types.entry) (params (P.count values) (P.gives_at values))) }
        ensures stands { ⟦<QueryTypedRawState<'a, P> as Opens>⟧.asks result ≡ (λ _. (⟦<QueryTypedRawState<'a, P> as Opens>⟧.place result).dialogue) }
        ensures first { ⟦<QueryTypedRawState<'a, P> as Opens>⟧.first result ≡ (λ (k : FoundRows). opens_first k.taken) }
    {
        QueryTypedRawState {
            asks: Some(TypedAsks {
                text,
                types,
                values,
            }),
            reply: TypedReply { stage: Stage::Done },
        }
    }
}

impl<'a, P: Params + Drop> Opens for QueryTypedRawState<'a, P> {
    ghost use Rattle.std.specs.Prelude.{◌≡◌, None, false, true};
    ghost use Rattle.pg_execute.specs.Parameters.{params};
    ghost use Rattle.pg_streams.specs.RowStates.{IsBegun, rows_opened, rows_place};
    ghost use Rattle.pg_streams.specs.RowStreams as streams;
    ghost use Rattle.pg_streams.specs.TypedRawStates.{IsLiveSo, first_so, known_of, place_so};
    ghost use Rattle.pg_streams.specs.TypedRaw as typed;

    type Stream = RowStream;

    ghost Whole = { streams.RowsGiven };

    ghost place = { λ s. place_so (λ p. params (P.count p) (P.gives_at p)) true s.asks s.reply.stage };

    ghost Known = { typed.FoundRows };

    ghost knows = { λ _. None };

    ghost known = { known_of };

    ghost asks = { λ s _. (place_so (λ p. params (P.count p) (P.gives_at p)) true s.asks s.reply.stage).dialogue };

    ghost finding = { λ s. place_so (λ p. params (P.count p) (P.gives_at p)) false s.asks s.reply.stage };

    ghost is_whole = { λ k. k.taken ≡ true };

    ghost first = { λ s k. first_so s.asks s.reply.stage k.taken };

    ghost stands = { rows_place };

    ghost opened = { rows_opened };

    ghost is_open = { IsBegun };

    ghost is_live = { λ s. IsLiveSo s.asks s.reply.stage };

    fn poll<D: Desk>(
        &mut self,
        alloc: Global,
        desk: &mut D,
        stamp: Stamp,
    ) -> Poll<Result<RowStream, Error>> {
        match self.asks.take() {
            Some(asks) => {
                let request = request_of(alloc, asks.text.as_str(), &asks.types, &asks.values);
                drop(asks);
                self.reply.begin(alloc, desk, stamp, request)
            }
            None => self.reply.go_on(alloc, desk, stamp),
        }
    }

    fn hang_up<D: Desk>(self, alloc: Global, desk: &mut D, stamp: Stamp) -> Result<(), Error> {
        let QueryTypedRawState { asks, reply } = self;
        match asks {
            // Nothing was asked yet.
            Some(asks) => {
                drop(asks);
                drop(reply);
                Ok(())
            }
            None => reply.hang_up(alloc, desk, stamp),
        }
    }
}
