//! A statement or a text is queried, and its rows are given one by one.
//! The query of a text is booked in the poll in which its prepare answers: a state that held a statement to be
//! closed and had asked nothing yet would have nothing to do where it is given up, and the statement would stay.

ghost use Rattle.std.specs.Prelude.{◌≡◌, ℕ, Some, None, IfOk};
ghost use Rattle.pg_query.specs.Meaning.{MatchPoll};
ghost use Rattle.pg_execute.specs.Executes.{close_part};
ghost use Rattle.pg_execute.specs.Parameters as parameters;
ghost use Rattle.pg_execute.specs.Parameters.{params};
ghost use Rattle.pg_execute.specs.Targets.{on_target};
ghost use Rattle.pg_states.specs.Texts.{prepare_text};
ghost use Rattle.pg_streams.specs.Families.{PausesFor};
ghost use Rattle.pg_streams.specs.Handing.{HandsOn, HandsOnLater, PausesLater, alone, asking, never_whole};
ghost use Rattle.pg_streams.specs.RowStates.{IsBegun, IsLiveAt, asked, asked_first, rows_opened, rows_place, stage_first, stage_place, stage_statement, statement_of};
ghost use Rattle.pg_streams.specs.RowStreams.{query_raw};
ghost use Rattle.pg_streams.specs.States.{FindsIn, IsLiveSo, asks_so, finding_so, first_so, place_so, queried_and_closed, statement_in, statement_so, text_place};

use crate::query_raw::RowReply;
use crate::{Opens, RowStream, StatementRawState};
use bytes::Bytes;
use futures::task::Poll;
use pg_core::ParamTypes;
use pg_desk::{Desk, Stamp, Statement};
use pg_errors::Error;
use pg_execute::{Target, close_bytes, execute_request};
use pg_query::Polled;
use pg_states::{PrepareState, prepare_state};
use pg_types::{Params, Sql};
use std::alloc::{AllocError, Global};

/// A text that is prepared, to be queried with these values.
#[derive(Drop)]
pub(crate) struct TextAsks<A, P> {
    prepare: A,
    values: P,
}

/// The state that executes a statement or a text as a query whose stream of rows is the answer, once BindComplete came. `A` prepares
/// the text.
#[derive(Drop)]
pub struct TargetRawState<'a, A, P> {
    /// None once it was prepared, and of a statement.
    text: Option<TextAsks<A, P>>,
    /// The query, which asks nothing until the text was prepared.
    query: StatementRawState<'a, P>,
}

/// The same, where the types of a text are found in the server's catalog.
pub type QueryRawState<'a, P> = TargetRawState<'a, PrepareState<'a>, P>;

impl<'a, P: Params + Drop> TargetRawState<'a, PrepareState<'a>, P> {
    /// Makes the state that executes this target with these values. It takes no memory, and books nothing before its first poll.
    /// A text is prepared before, with the errors of that, and its statement is closed behind the rows, behind an error that a
    /// message tells, behind refused values, and where the stream is given up, or the state once its query was booked. The other
    /// errors come as of `StatementRawState::new`.
    pub fn new(target: Target<'a>, values: P) -> QueryRawState<'a, P>
        ensures live { ⟦<QueryRawState<'a, P> as Opens>⟧.is_live result }
        ensures asks { (⟦<QueryRawState<'a, P> as Opens>⟧.place result).dialogue ≡ on_target prepare_text (λ s. query_raw s (params (P.count values) (P.gives_at values))) target.entry }
        ensures knows { ⟦<QueryRawState<'a, P> as Opens>⟧.knows result ≡ statement_in target.entry }
        ensures finds { FindsIn target.entry (params (P.count values) (P.gives_at values)) (⟦<QueryRawState<'a, P> as Opens>⟧.finding result) (⟦<QueryRawState<'a, P> as Opens>⟧.asks result) (⟦<QueryRawState<'a, P> as Opens>⟧.first result) }
    {
        match target {
            Target::Query(text) => {
                TargetRawState {
                    text: Some(TextAsks {
                        prepare: prepare_state(Sql::Borrowed(text), ParamTypes::Oids(&[])),
                        values,
                    }),
                    query: StatementRawState::spent(),
                }
            }
            Target::OwnedQuery(text) => {
                TargetRawState {
                    text: Some(TextAsks {
                        prepare: prepare_state(Sql::Owned(text), ParamTypes::Oids(&[])),
                        values,
                    }),
                    query: StatementRawState::spent(),
                }
            }
            Target::Statement(statement) => {
                TargetRawState {
                    text: None,
                    query: StatementRawState::new(statement, values),
                }
            }
            Target::Owned(statement) => {
                TargetRawState {
                    text: None,
                    query: StatementRawState::owned(statement, values),
                }
            }
        }
    }
}

impl<'a, A: Polled<Output = Statement> + Drop, P: Params + Drop> TargetRawState<'a, A, P> {
    /// Goes on with a text that is prepared.
    fn prepare<D: Desk>(
        &mut self,
        alloc: Global,
        desk: &mut D,
        stamp: Stamp,
        prepare: A,
        values: P,
    ) -> Poll<Result<RowStream, Error>>
        requires live { A.is_live prepare }
        requires alone { self.old.text ≡ None }
        requires asks { self.old.query.asks ≡ None }
        ensures finds { MatchPoll result
            (λ r. HandsOnLater D.becomes (λ s. alone (rows_place s) (rows_opened s)) IsBegun statement_of never_whole stamp desk.old (A.place prepare) (text_place (A.place prepare) (params (P.count values) (P.gives_at values))) (asking (queried_and_closed (params (P.count values) (P.gives_at values))) asked_first) desk.new r)
            (PausesLater D.becomes stamp desk.old (A.place prepare) (text_place (A.place prepare) (params (P.count values) (P.gives_at values))) (asking (queried_and_closed (params (P.count values) (P.gives_at values))) asked_first) never_whole desk.new (finding_so A.place self.new.text) (place_so A.place (λ p. params (P.count p) (P.gives_at p)) self.new.text self.new.query) (asking (asks_so (λ p. params (P.count p) (P.gives_at p)) self.new.text self.new.query) (first_so self.new.text self.new.query)) (statement_so self.new.text self.new.query) × IsLiveSo A.is_live self.new.text self.new.query) }
    {
        let mut prepare = prepare;
        match prepare.poll(alloc, desk, stamp) {
            Poll::Pending => {
                self.text = Some(TextAsks { prepare, values });
                Poll::Pending
            }
            Poll::Ready(Ok(statement)) => {
                drop(prepare);
                let request = execute_request(alloc, &statement, &values);
                drop(values);
                close_behind(
                    &mut self.query.reply,
                    alloc,
                    desk,
                    stamp,
                    statement,
                    request,
                )
            }
            Poll::Ready(Err(error)) => Poll::Ready(Err(error)),
        }
    }
}

/// Queries a statement that was prepared for that alone, by this request. The statement is closed behind its rows, behind an error
/// that a message tells, where it is given up, and where values are refused. Nothing is closed where the desk takes no requests any
/// more, or gives no more of the reply. Where the desk refuses the close, its error is the answer.
fn close_behind<D: Desk>(
    reply: &mut RowReply,
    alloc: Global,
    desk: &mut D,
    stamp: Stamp,
    statement: Statement,
    request: Result<Result<Bytes, Error>, AllocError>,
) -> Poll<Result<RowStream, Error>>
    ensures opens { (vs : parameters.Params) → IfOk request (λ request. request ≡ parameters.execute_request statement vs) → (n : ℕ) → MatchPoll result
        (λ r. HandsOn D.becomes (λ s. alone (rows_place s) (rows_opened s)) IsBegun stamp desk.old (asked (close_part statement.name) statement vs n) desk.new r)
        (PausesFor D.becomes stamp desk.old (asked (close_part statement.name) statement vs n) desk.new (alone (stage_place reply.new.stage) (stage_first reply.new.stage)) × IsLiveAt reply.new.stage) }
    ensures known { MatchPoll result (λ r. IfOk r (λ stream. statement_of stream ≡ statement)) (stage_statement reply.new.stage ≡ Some statement) }
{
    let Ok(request) = request else {
        return Poll::Ready(Err(Error::OutOfMemory));
    };
    match close_bytes(alloc, statement.name()) {
        Ok(close) => reply.begin(alloc, desk, stamp, statement, request, close),
        Err(_) => Poll::Ready(Err(Error::OutOfMemory)),
    }
}

impl<'a, A: Polled<Output = Statement> + Drop, P: Params + Drop> Opens
    for TargetRawState<'a, A, P> {
    ghost use Rattle.pg_desk.specs.declared.statement.Described as described;
    ghost use Rattle.pg_execute.specs.Parameters.{params};
    ghost use Rattle.pg_streams.specs.Handing.{never_whole};
    ghost use Rattle.pg_streams.specs.RowStates.{IsBegun, rows_opened, rows_place, statement_of};
    ghost use Rattle.pg_streams.specs.RowStreams as streams;
    ghost use Rattle.pg_streams.specs.States.{IsLiveSo, asks_so, finding_so, first_so, place_so, statement_so};

    type Stream = RowStream;

    ghost Whole = { streams.RowsGiven };

    ghost place = { λ s. place_so A.place (λ p. params (P.count p) (P.gives_at p)) s.text s.query };

    ghost Known = { described.Described };

    ghost knows = { λ s. statement_so s.text s.query };

    ghost known = { statement_of };

    ghost asks = { λ s. asks_so (λ p. params (P.count p) (P.gives_at p)) s.text s.query };

    ghost finding = { λ s. finding_so A.place s.text };

    ghost is_whole = { never_whole };

    ghost first = { λ s. first_so s.text s.query };

    ghost stands = { rows_place };

    ghost opened = { rows_opened };

    ghost is_open = { IsBegun };

    ghost is_live = { λ s. IsLiveSo A.is_live s.text s.query };

    fn poll<D: Desk>(
        &mut self,
        alloc: Global,
        desk: &mut D,
        stamp: Stamp,
    ) -> Poll<Result<RowStream, Error>> {
        match self.text.take() {
            Some(text) => {
                let TextAsks { prepare, values } = text;
                self.prepare(alloc, desk, stamp, prepare, values)
            }
            None => self.query.poll(alloc, desk, stamp),
        }
    }

    fn hang_up<D: Desk>(self, alloc: Global, desk: &mut D, stamp: Stamp) -> Result<(), Error> {
        let TargetRawState { text, query } = self;
        match text {
            Some(text) => {
                let TextAsks { prepare, values } = text;
                drop(values);
                drop(query);
                prepare.hang_up(alloc, desk, stamp)
            }
            None => query.hang_up(alloc, desk, stamp),
        }
    }
}
