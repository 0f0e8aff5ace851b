//! A statement that is queried, whose rows are given one by one.

ghost use Rattle.std.specs.Prelude.{◌≡◌, ℕ, IfOk, Some, None};
ghost use Rattle.pg_desk.specs.declared.statement.Described.{Described};
ghost use Rattle.pg_query.specs.Meaning.{GivesUp, MatchPoll};
ghost use Rattle.pg_execute.specs.Parameters as parameters;
ghost use Rattle.pg_execute.specs.Parameters.{params};
ghost use Rattle.pg_streams.specs.Families.{PausesFor};
ghost use Rattle.pg_streams.specs.Handing.{HandsOn, alone};
ghost use Rattle.pg_streams.specs.RowStates as spec;
ghost use Rattle.pg_streams.specs.RowStates.{IsBegun, IsLiveAt, IsOpening, asked, asked_first, opening, rows_opened, rows_place, stage_first, stage_place, stage_statement, statement_of};
ghost use Rattle.pg_streams.specs.RowStreams.{query_raw};

use crate::items::Items;
use crate::opens;
use crate::posting::fail_behind;
use crate::row_giving::RowOpening;
use crate::row_stream::RowStream;
use bytes::Bytes;
use futures::task::Poll;
use pg_desk::{Desk, Stamp, Statement};
use pg_errors::Error;
use pg_execute::execute_request;
use pg_query::error_of;
use pg_types::{OutOfMemory, Params};
use std::alloc::Global;
use std::mem;

/// A statement that is handed in.
#[derive(Drop)]
pub(crate) enum Handed<'a> {
    /// It is copied in the first poll.
    Borrowed(&'a Statement),
    Owned(Statement),
}

impl<'a> Handed<'a> {
    fn into_statement(self) -> Result<Statement, OutOfMemory>
        ensures { IfOk result (λ statement. statement ≡ spec.handed self.entry) }
    {
        match self {
            Handed::Borrowed(statement) => statement.copy(),
            Handed::Owned(statement) => Ok(statement),
        }
    }
}

/// What is asked in the first poll.
#[derive(Drop)]
pub(crate) struct StatementAsks<'a, P> {
    statement: Handed<'a>,
    values: P,
}

/// How far the reply has come.
#[derive(Drop)]
pub(crate) enum Stage {
    /// The request was booked, and BindComplete hasn't come.
    Opens(Items<RowOpening>),
    /// Nothing was asked, or it answered.
    Done,
}

/// Books the request that executes a statement. Another request closes the statement behind the reply, if there is one; where
/// values are refused it is sent at once, and nothing else is booked.
fn ask<D: Desk>(
    alloc: Global,
    desk: &mut D,
    stamp: Stamp,
    statement: Statement,
    request: Result<Bytes, Error>,
    close: Option<Bytes>,
) -> Result<Items<RowOpening>, Error>
    ensures goes { (vs : parameters.Params) → request ≡ parameters.execute_request statement vs → (n : ℕ) → HandsOn D.becomes opening IsOpening stamp desk.old (asked close statement vs n) desk.new result }
    ensures known { IfOk result (λ items. IsOpening items × (items.giving.statement ≡ statement)) }
{
    let request = match request {
        Ok(request) => request,
        Err(error) => return Err(fail_behind(alloc, desk, stamp, close, error)),
    };
    match desk.book(alloc, stamp, request, false) {
        Ok(id) => {
            let opening = RowOpening {
                statement,
                bound: false,
            };
            Ok(Items::new(opening, id, close))
        }
        Err(fault) => Err(error_of(fault)),
    }
}

/// The reply of a query whose stream of rows is handed on, once BindComplete came.
#[derive(Drop)]
pub(crate) struct RowReply {
    pub(crate) stage: Stage,
}

impl RowReply {
    /// Books the request of a statement, as `ask`, and reads on to BindComplete.
    pub(crate) fn begin<D: Desk>(
        &mut self,
        alloc: Global,
        desk: &mut D,
        stamp: Stamp,
        statement: Statement,
        request: Result<Bytes, Error>,
        close: Option<Bytes>,
    ) -> Poll<Result<RowStream, Error>>
        ensures opens { (vs : parameters.Params) → request ≡ parameters.execute_request statement vs → (n : ℕ) → MatchPoll result
            (λ r. HandsOn D.becomes (λ s. alone (rows_place s) (rows_opened s)) IsBegun stamp desk.old (asked close statement vs n) desk.new r)
            (PausesFor D.becomes stamp desk.old (asked close statement vs n) desk.new (alone (stage_place self.new.stage) (stage_first self.new.stage)) × IsLiveAt self.new.stage) }
        ensures known { MatchPoll result (λ r. IfOk r (λ stream. statement_of stream ≡ statement)) (stage_statement self.new.stage ≡ Some statement) }
    {
        match ask(alloc, desk, stamp, statement, request, close) {
            Ok(items) => self.open(alloc, desk, stamp, items),
            Err(error) => Poll::Ready(Err(error)),
        }
    }

    /// Goes on with the reply.
    fn go_on<D: Desk>(
        &mut self,
        alloc: Global,
        desk: &mut D,
        stamp: Stamp,
    ) -> Poll<Result<RowStream, Error>>
        requires { IsLiveAt self.old.stage }
        ensures opens { MatchPoll result
            (λ r. HandsOn D.becomes (λ s. alone (rows_place s) (rows_opened s)) IsBegun stamp desk.old (alone (stage_place self.old.stage) (stage_first self.old.stage)) desk.new r)
            (PausesFor D.becomes stamp desk.old (alone (stage_place self.old.stage) (stage_first self.old.stage)) desk.new (alone (stage_place self.new.stage) (stage_first self.new.stage)) × IsLiveAt self.new.stage) }
        ensures known { (k : Described) → stage_statement self.old.stage ≡ Some k → MatchPoll result
            (λ r. IfOk r (λ stream. statement_of stream ≡ k))
            (stage_statement self.new.stage ≡ Some k) }
    {
        match mem::replace(&mut self.stage, Stage::Done) {
            Stage::Opens(items) => self.open(alloc, desk, stamp, items),
            Stage::Done => Poll::Ready(Err(Error::Closed)),
        }
    }

    /// Reads on to BindComplete.
    fn open<D: Desk>(
        &mut self,
        alloc: Global,
        desk: &mut D,
        stamp: Stamp,
        items: Items<RowOpening>,
    ) -> Poll<Result<RowStream, Error>>
        requires { IsOpening items }
        ensures opens { MatchPoll result
            (λ r. HandsOn D.becomes (λ s. alone (rows_place s) (rows_opened s)) IsBegun stamp desk.old (opening items) desk.new r)
            (PausesFor D.becomes stamp desk.old (opening items) desk.new (alone (stage_place self.new.stage) (stage_first self.new.stage)) × IsLiveAt self.new.stage) }
        ensures known { MatchPoll result
            (λ r. IfOk r (λ stream. statement_of stream ≡ items.giving.statement))
            (stage_statement self.new.stage ≡ Some items.giving.statement) }
    {
        let mut items = items;
        match items.poll_next(alloc, desk, stamp) {
            Poll::Pending => {
                self.stage = Stage::Opens(items);
                Poll::Pending
            }
            Poll::Ready(Some(Ok(()))) => Poll::Ready(Ok(RowStream::opened(alloc, items))),
            Poll::Ready(Some(Err(error))) => Poll::Ready(Err(error)),
            // The reply doesn't end before.
            Poll::Ready(None) => Poll::Ready(Err(Error::OutOfMemory)),
        }
    }

    /// Ends it without an answer.
    fn hang_up<D: Desk>(self, alloc: Global, desk: &mut D, stamp: Stamp) -> Result<(), Error>
        requires { IsLiveAt self.stage }
        ensures { GivesUp D.becomes stamp desk.old (stage_place self.stage) desk.new result }
    {
        let RowReply { stage } = self;
        match stage {
            Stage::Opens(items) => items.hang_up(alloc, desk, stamp),
            Stage::Done => Ok(()),
        }
    }
}

/// The state that executes a statement as a query whose stream of rows is the answer, once BindComplete came.
#[derive(Drop)]
pub struct StatementRawState<'a, P> {
    /// None once it was asked.
    pub(crate) asks: Option<StatementAsks<'a, P>>,
    pub(crate) reply: RowReply,
}

impl<'a, P: Params + Drop> StatementRawState<'a, P> {
    /// Makes the state that executes this statement with these values. It takes no memory, and books nothing before its first
    /// poll. Refused values book nothing: Parameters comes where they aren't as many as the parameters, then ToSql at the first
    /// that can't stand as its parameter, then Encode where the frames can't be written. Behind that Db comes at an error of the
    /// server, Parse at a message that can't be read, UnexpectedMessage at one out of place, Closed where the desk takes no
    /// requests any more, or gives no more of the reply.
    pub fn new(statement: &'a Statement, values: P) -> StatementRawState<'a, P>
        ensures live { ⟦<StatementRawState<'a, P> as opens::Opens>⟧.is_live result }
        ensures asks { (⟦<StatementRawState<'a, P> as opens::Opens>⟧.place result).dialogue ≡ query_raw statement.now (params (P.count values) (P.gives_at values)) }
        ensures knows { ⟦<StatementRawState<'a, P> as opens::Opens>⟧.knows result ≡ Some statement.now }
        ensures first { ⟦<StatementRawState<'a, P> as opens::Opens>⟧.first result ≡ (λ _. asked_first statement.now) }
    {
        StatementRawState {
            asks: Some(StatementAsks {
                statement: Handed::Borrowed(statement),
                values,
            }),
            reply: RowReply { stage: Stage::Done },
        }
    }

    /// The same of a statement that can't be borrowed for so long.
    pub fn owned(statement: Statement, values: P) -> StatementRawState<'a, P>
        ensures live { ⟦<StatementRawState<'a, P> as opens::Opens>⟧.is_live result }
        ensures asks { (⟦<StatementRawState<'a, P> as opens::Opens>⟧.place result).dialogue ≡ query_raw statement (params (P.count values) (P.gives_at values)) }
        ensures knows { ⟦<StatementRawState<'a, P> as opens::Opens>⟧.knows result ≡ Some statement }
        ensures first { ⟦<StatementRawState<'a, P> as opens::Opens>⟧.first result ≡ (λ _. asked_first statement) }
    {
        StatementRawState {
            asks: Some(StatementAsks {
                statement: Handed::Owned(statement),
                values,
            }),
            reply: RowReply { stage: Stage::Done },
        }
    }

    /// One that has asked nothing and never will.
    pub(crate) fn spent() -> StatementRawState<'a, P>
        ensures { result.asks ≡ None }
    {
        StatementRawState {
            asks: None,
            reply: RowReply { stage: Stage::Done },
        }
    }
}

impl<'a, P: Params + Drop> opens::Opens for StatementRawState<'a, P> {
    ghost use Rattle.pg_desk.specs.declared.statement.Described as described;
    ghost use Rattle.pg_execute.specs.Parameters.{params};
    ghost use Rattle.pg_streams.specs.Handing.{never_whole, nothing_to_find};
    ghost use Rattle.pg_streams.specs.RowStates.{IsBegun, IsLiveState, rows_opened, rows_place, state_first, state_place, state_statement, statement_of};
    ghost use Rattle.pg_streams.specs.RowStreams as streams;

    type Stream = RowStream;

    ghost Whole = { streams.RowsGiven };

    ghost place = { state_place (λ p. params (P.count p) (P.gives_at p)) };

    ghost Known = { described.Described };

    ghost knows = { state_statement };

    ghost known = { statement_of };

    ghost asks = { λ s _. (state_place (λ p. params (P.count p) (P.gives_at p)) s).dialogue };

    ghost finding = { λ _. nothing_to_find };

    ghost is_whole = { never_whole };

    ghost first = { λ s _. state_first s };

    ghost stands = { rows_place };

    ghost opened = { rows_opened };

    ghost is_open = { IsBegun };

    ghost is_live = { IsLiveState };

    fn poll<D: Desk>(
        &mut self,
        alloc: Global,
        desk: &mut D,
        stamp: Stamp,
    ) -> Poll<Result<RowStream, Error>> {
        match self.asks.take() {
            Some(asks) => {
                let StatementAsks { statement, values } = asks;
                let Ok(statement) = statement.into_statement() else {
                    return Poll::Ready(Err(Error::OutOfMemory));
                };
                let request = execute_request(alloc, &statement, &values);
                drop(values);
                match request {
                    Ok(request) => {
                        self.reply
                            .begin(alloc, desk, stamp, statement, request, None)
                    }
                    Err(_) => Poll::Ready(Err(Error::OutOfMemory)),
                }
            }
            None => self.reply.go_on(alloc, desk, stamp),
        }
    }

    fn hang_up<D: Desk>(self, alloc: Global, desk: &mut D, stamp: Stamp) -> Result<(), Error> {
        let StatementRawState { asks, reply } = self;
        match asks {
            // Nothing was asked yet.
            Some(asks) => {
                drop(asks);
                drop(reply);
                Ok(())
            }
            None => reply.hang_up(alloc, desk, stamp),
        }
    }
}
