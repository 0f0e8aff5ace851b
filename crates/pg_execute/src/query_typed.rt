//! A text that is queried with values of given types, as a script.

ghost use Rattle.std.specs.Prelude.{◌≡◌, ◌≤◌, ◌+◌, ◌^◌, ℕ, List as Items, Option, Result, false, IfOk};
ghost use Rattle.pg_spec.specs.Bodies.{Field};
ghost use Rattle.pg_spec.specs.RawMessages.{RawMessage};
ghost use Rattle.pg_types.specs.Texts.{sql_text};
ghost use Rattle.pg_types.specs.declared.error.Error as errors;
ghost use Rattle.pg_types.specs.declared.pg_type.PgType.{PgType};
ghost use Rattle.pg_query.specs.Dialogue.{Dialogue, feed_one};
ghost use Rattle.pg_query.specs.Messages.{Means};
ghost use Rattle.pg_query.specs.Reading.{reads};
ghost use Rattle.pg_query.specs.Scripts.{Falls, IsMessage};
ghost use Rattle.pg_core.specs.Sequences.{then_do};
ghost use Rattle.pg_core.specs.Composing.{asks_for};
ghost use Rattle.pg_execute.specs.Parameters.{params};
ghost use Rattle.pg_execute.specs.Typed.{behind_head, head, query_typed, takes_rest, typed_rows};
ghost use Rattle.pg_execute.specs.TypedQueries as spec;
ghost use Rattle.pg_execute.specs.TypedQueries.{QueryGoes, query_at, query_steps, query_waits};
ghost use Rattle.pg_execute.specs.Types.{types_in};
ghost use Rattle.pg_execute.specs.Typing.{by_known, finds_typed};
ghost use Rattle.pg_execute.specs.declared.got.Got as got;

use crate::columns::{ReadRows, read_rows, rows_made, search_for, type_oids};
use crate::passing::{ends, value_of};
use crate::typed_requests::Unwritten;
use crate::{Got, HeadReading, HowMany, KnowsAll, ResultSet, TakesRest, Types, ask};
use bytes::Bytes;
use pg_core::{Finder, NewColumn};
use pg_errors::Error;
use pg_query::{Cleanup, Reply, Script, SingleRequest, Want};
use pg_types::{List, Params, Sql, Type};
use pg_wire::{Message, WireFault};
use std::alloc::{AllocError, Global};
use std::collections::VecDeque;
use std::mem;

/// Queries a text with values of given types, in one request. The types of columns that aren't known are found by `F`,
/// once the rest of the reply was taken; `S` is the search that it makes.
pub enum QueryTyped<'a, F, S, P> {
    /// The request isn't written yet.
    Begins(Unwritten<'a, P>, HowMany, F),
    /// The columns are read, which come before the rows.
    Heads(SingleRequest<HeadReading, List<NewColumn>>, HowMany, F),
    /// The desk is asked for their types.
    Knows(KnowsAll, HowMany, List<NewColumn>, F),
    /// All of them are known, and the rows are read on.
    Rows(ReadRows),
    /// One isn't known, and the rest of the reply is taken.
    Rests(TakesRest, List<NewColumn>, F),
    /// The types are found, and rows are made of what was taken.
    Finds(S, List<NewColumn>, Result<Got, Error>),
    /// It answered, or memory lacked.
    Spent,
}

impl<'a, F: Drop, S: Drop, P: Drop> Drop for QueryTyped<'a, F, S, P> {
    fn drop(self) {
        match self {
            QueryTyped::Begins(request, _how_many, finder) => {
                drop(request);
                drop(finder);
            }
            QueryTyped::Heads(asks, _how_many, finder) => {
                drop(asks);
                drop(finder);
            }
            QueryTyped::Knows(asks, _how_many, columns, finder) => {
                drop(asks);
                drop(columns);
                drop(finder);
            }
            QueryTyped::Rows(rows) => drop(rows),
            QueryTyped::Rests(rest, columns, finder) => {
                drop(rest);
                drop(columns);
                drop(finder);
            }
            QueryTyped::Finds(search, columns, told) => {
                drop(search);
                drop(columns);
                drop(told);
            }
            QueryTyped::Spent => {}
        }
    }
}

impl<'a, F: Drop, S: Drop, P: Drop> QueryTyped<'a, F, S, P> {
    /// The request that isn't written yet, and what comes behind it.
    fn into_request(self) -> Option<(Unwritten<'a, P>, HowMany, F)>
        ensures { result ≡ spec.unwritten self.entry }
    {
        match self {
            QueryTyped::Begins(request, how_many, finder) => Some((request, how_many, finder)),
            other => {
                drop(other);
                None
            }
        }
    }

    /// What stands behind the reading of the columns.
    fn after_head(self) -> Option<(HowMany, F)>
        ensures { result ≡ spec.after_head self.entry }
    {
        match self {
            QueryTyped::Heads(asks, how_many, finder) => {
                drop(asks);
                Some((how_many, finder))
            }
            other => {
                drop(other);
                None
            }
        }
    }

    /// What stands behind the asking for types.
    fn after_know(self) -> Option<(HowMany, List<NewColumn>, F)>
        ensures { result ≡ spec.after_know self.entry }
    {
        match self {
            QueryTyped::Knows(asks, how_many, columns, finder) => {
                drop(asks);
                Some((how_many, columns, finder))
            }
            other => {
                drop(other);
                None
            }
        }
    }

    /// What stands behind the taking of the rest.
    fn after_rest(self) -> Option<(List<NewColumn>, F)>
        ensures { result ≡ spec.after_rest self.entry }
    {
        match self {
            QueryTyped::Rests(rest, columns, finder) => {
                drop(rest);
                Some((columns, finder))
            }
            other => {
                drop(other);
                None
            }
        }
    }

    /// What stands behind the search.
    fn after_find(self) -> Option<(List<NewColumn>, Result<Got, Error>)>
        ensures { result ≡ spec.after_find self.entry }
    {
        match self {
            QueryTyped::Finds(search, columns, told) => {
                drop(search);
                Some((columns, told))
            }
            other => {
                drop(other);
                None
            }
        }
    }
}

impl<'a, F: Finder, P: Params + Drop> QueryTyped<'a, F, F::Search, P> {
    /// Writes the request, and asks by it.
    fn begin(&mut self, alloc: Global) -> Result<Want<ResultSet>, AllocError>
        ensures goes_on { IfOk result (λ want. QueryGoes F.finds F.Search.dialogue F.Search.refuses F.Search.waits (λ p. params (P.count p) (P.gives_at p)) (spec.begun F.finds (λ p. params (P.count p) (P.gives_at p)) self.old) want self.new) }
        ensures falls { IfOk result (λ want. Falls want (spec.begun_most F.most self.old) (query_steps F.most F.Search.steps self.new)) }
    {
        match mem::replace(self, QueryTyped::Spent).into_request() {
            Some((request, how_many, finder)) => {
                let request = request.write(alloc)?;
                self.asks(alloc, how_many, request, finder)
            }
            None => Err(AllocError),
        }
    }

    /// Asks by this request, or answers why it can't be sent.
    fn asks(
        &mut self,
        alloc: Global,
        how_many: HowMany,
        request: Result<Bytes, Error>,
        finder: F,
    ) -> Result<Want<ResultSet>, AllocError>
        ensures goes_on { IfOk result (λ want. QueryGoes F.finds F.Search.dialogue F.Search.refuses F.Search.waits (λ p. params (P.count p) (P.gives_at p)) (asks_for request (then_do (reads false head) (behind_head (F.finds finder) how_many))) want self.new) }
        ensures falls { IfOk result (λ want. Falls want (2 + (2 ^ 64 + F.most finder)) (query_steps F.most F.Search.steps self.new)) }
    {
        let mut asks = ask(HeadReading {}, request);
        let want = asks.next(alloc)?;
        *self = QueryTyped::Heads(asks, how_many, finder);
        self.headed(alloc, want)
    }

    /// What the reading of the columns wants. Behind them their types are asked for.
    fn headed(
        &mut self,
        alloc: Global,
        want: Want<List<NewColumn>>,
    ) -> Result<Want<ResultSet>, AllocError>
        ensures goes_on { (d : Dialogue (Items Field)) → spec.HeadWants d want self.old → IfOk result (λ w. QueryGoes F.finds F.Search.dialogue F.Search.refuses F.Search.waits (λ p. params (P.count p) (P.gives_at p)) (spec.head_with F.finds self.old d) w self.new) }
        ensures falls { (n : ℕ) → spec.HeadFalls want n self.old → IfOk result (λ w. Falls w (n + spec.head_most F.most self.old) (query_steps F.most F.Search.steps self.new)) }
    {
        match value_of(want) {
            Ok(columns) => match mem::replace(self, QueryTyped::Spent).after_head() {
                Some((how_many, finder)) => self.asks_types(alloc, how_many, columns, finder),
                None => Err(AllocError),
            },
            Err(want) => Ok(want),
        }
    }

    /// Asks for the types of these columns.
    fn asks_types(
        &mut self,
        alloc: Global,
        how_many: HowMany,
        columns: List<NewColumn>,
        finder: F,
    ) -> Result<Want<ResultSet>, AllocError>
        ensures goes_on { IfOk result (λ want. QueryGoes F.finds F.Search.dialogue F.Search.refuses F.Search.waits (λ p. params (P.count p) (P.gives_at p)) (behind_head (F.finds finder) how_many columns) want self.new) }
        ensures falls { IfOk result (λ want. Falls want (2 ^ 64 + F.most finder) (query_steps F.most F.Search.steps self.new)) }
    {
        let oids = type_oids(alloc, columns.as_slice())?;
        let mut asks = KnowsAll::new(alloc, oids);
        let want = asks.next(alloc)?;
        *self = QueryTyped::Knows(asks, how_many, columns, finder);
        self.known(alloc, want)
    }

    /// What the asking for types wants. Behind them the rows are read on, or the rest is taken.
    fn known(
        &mut self,
        alloc: Global,
        want: Want<Option<List<Type>>>,
    ) -> Result<Want<ResultSet>, AllocError>
        ensures goes_on { (d : Dialogue (Option (Items PgType))) → spec.KnowWants d want self.old → IfOk result (λ w. QueryGoes F.finds F.Search.dialogue F.Search.refuses F.Search.waits (λ p. params (P.count p) (P.gives_at p)) (spec.know_with F.finds self.old d) w self.new) }
        ensures falls { (n : ℕ) → spec.KnowFalls want n self.old → IfOk result (λ w. Falls w (n + spec.know_most F.most self.old) (query_steps F.most F.Search.steps self.new)) }
    {
        match value_of(want) {
            Ok(types) => match mem::replace(self, QueryTyped::Spent).after_know() {
                Some((how_many, columns, finder)) => {
                    self.goes_by(alloc, types, how_many, columns, finder)
                }
                None => Err(AllocError),
            },
            Err(want) => Ok(want),
        }
    }

    /// Goes on by whether the types of all columns are known.
    fn goes_by(
        &mut self,
        alloc: Global,
        types: Option<List<Type>>,
        how_many: HowMany,
        columns: List<NewColumn>,
        finder: F,
    ) -> Result<Want<ResultSet>, AllocError>
        ensures goes_on { IfOk result (λ want. QueryGoes F.finds F.Search.dialogue F.Search.refuses F.Search.waits (λ p. params (P.count p) (P.gives_at p)) (by_known (F.finds finder) how_many columns types) want self.new) }
        ensures falls { IfOk result (λ want. Falls want (F.most finder) (query_steps F.most F.Search.steps self.new)) }
    {
        match types {
            Some(types) => {
                drop(finder);
                self.reads(alloc, how_many, columns, types)
            }
            None => self.takes(alloc, how_many, columns, finder),
        }
    }

    /// Reads the rows on, whose columns have these types.
    fn reads(
        &mut self,
        alloc: Global,
        how_many: HowMany,
        columns: List<NewColumn>,
        types: List<Type>,
    ) -> Result<Want<ResultSet>, AllocError>
        ensures goes_on { IfOk result (λ want. QueryGoes F.finds F.Search.dialogue F.Search.refuses F.Search.waits (λ p. params (P.count p) (P.gives_at p)) (reads false (typed_rows how_many columns types)) want self.new) }
        ensures falls { (n : ℕ) → IfOk result (λ want. Falls want n (query_steps F.most F.Search.steps self.new)) }
    {
        let mut rows = read_rows(alloc, how_many, columns, types)?;
        let want = rows.next(alloc)?;
        *self = QueryTyped::Rows(rows);
        Ok(want)
    }

    /// Takes the rest of the reply, before any type is looked up.
    fn takes(
        &mut self,
        alloc: Global,
        how_many: HowMany,
        columns: List<NewColumn>,
        finder: F,
    ) -> Result<Want<ResultSet>, AllocError>
        ensures goes_on { IfOk result (λ want. QueryGoes F.finds F.Search.dialogue F.Search.refuses F.Search.waits (λ p. params (P.count p) (P.gives_at p)) (takes_rest (F.finds finder) how_many columns) want self.new) }
        ensures falls { IfOk result (λ want. Falls want (F.most finder) (query_steps F.most F.Search.steps self.new)) }
    {
        let count = columns.as_slice().len();
        let mut rest = TakesRest::new(alloc, count, how_many);
        let want = rest.next(alloc)?;
        *self = QueryTyped::Rests(rest, columns, finder);
        self.rested(alloc, want)
    }

    /// What the taking of the rest wants. Behind it the types are found.
    fn rested(
        &mut self,
        alloc: Global,
        want: Want<Result<Got, Error>>,
    ) -> Result<Want<ResultSet>, AllocError>
        ensures goes_on { (d : Dialogue (Result got.Got errors.Error)) → spec.RestWants d want self.old → IfOk result (λ w. QueryGoes F.finds F.Search.dialogue F.Search.refuses F.Search.waits (λ p. params (P.count p) (P.gives_at p)) (spec.rest_with F.finds self.old d) w self.new) }
        ensures falls { (n : ℕ) → spec.RestFalls want n self.old → IfOk result (λ w. Falls w (n + spec.rest_most F.most self.old) (query_steps F.most F.Search.steps self.new)) }
    {
        match value_of(want) {
            Ok(told) => match mem::replace(self, QueryTyped::Spent).after_rest() {
                Some((columns, finder)) => self.finds(alloc, columns, told, finder),
                None => Err(AllocError),
            },
            Err(want) => Ok(want),
        }
    }

    /// Finds the types of these columns, where the rows told this.
    fn finds(
        &mut self,
        alloc: Global,
        columns: List<NewColumn>,
        told: Result<Got, Error>,
        finder: F,
    ) -> Result<Want<ResultSet>, AllocError>
        ensures goes_on { IfOk result (λ want. QueryGoes F.finds F.Search.dialogue F.Search.refuses F.Search.waits (λ p. params (P.count p) (P.gives_at p)) (finds_typed (F.finds finder) columns told) want self.new) }
        ensures falls { IfOk result (λ want. Falls want (F.most finder) (query_steps F.most F.Search.steps self.new)) }
    {
        let mut search = search_for(alloc, columns.as_slice(), finder)?;
        let want = search.next(alloc)?;
        *self = QueryTyped::Finds(search, columns, told);
        self.found(alloc, want)
    }

    /// What the search wants. Behind it rows are made of what was taken.
    fn found(
        &mut self,
        alloc: Global,
        want: Want<List<Type>>,
    ) -> Result<Want<ResultSet>, AllocError>
        ensures goes_on { (d : Dialogue (Items PgType)) → spec.FindWants F.Search.dialogue F.Search.refuses F.Search.waits d want self.old → IfOk result (λ w. QueryGoes F.finds F.Search.dialogue F.Search.refuses F.Search.waits (λ p. params (P.count p) (P.gives_at p)) (spec.find_with self.old d) w self.new) }
        ensures falls { (n : ℕ) → spec.FindFalls F.Search.steps want n self.old → IfOk result (λ w. Falls w n (query_steps F.most F.Search.steps self.new)) }
    {
        match value_of(want) {
            Ok(types) => match mem::replace(self, QueryTyped::Spent).after_find() {
                Some((columns, told)) => {
                    let rows = rows_made(alloc, columns, types, told)?;
                    Ok(Want::Answer(rows))
                }
                None => Err(AllocError),
            },
            Err(want) => Ok(want),
        }
    }

    /// What it wants behind a message.
    fn told(
        &mut self,
        alloc: Global,
        message: &Result<Message, WireFault>,
    ) -> Result<Want<ResultSet>, AllocError>
        ensures { (raw : RawMessage) → Means raw message.now → IsMessage (query_waits F.finds F.Search.dialogue F.Search.waits (λ p. params (P.count p) (P.gives_at p)) self.old) → IfOk result (λ want. QueryGoes F.finds F.Search.dialogue F.Search.refuses F.Search.waits (λ p. params (P.count p) (P.gives_at p)) (feed_one raw (query_at F.finds F.Search.dialogue (λ p. params (P.count p) (P.gives_at p)) self.old)) want self.new) }
    {
        match self {
            QueryTyped::Heads(asks, _, _) => {
                let want = asks.message(alloc, message)?;
                self.headed(alloc, want)
            }
            QueryTyped::Rows(rows) => rows.message(alloc, message),
            QueryTyped::Rests(rest, _, _) => {
                let want = rest.message(alloc, message)?;
                self.rested(alloc, want)
            }
            QueryTyped::Finds(search, _, _) => {
                let want = search.message(alloc, message)?;
                self.found(alloc, want)
            }
            // The others read nothing.
            _ => Err(AllocError),
        }
    }
}

impl<'a, F: Finder, P: Params + Drop> Script for QueryTyped<'a, F, F::Search, P> {
    ghost use Rattle.pg_execute.specs.Parameters.{params};
    ghost use Rattle.pg_execute.specs.TypedQueries.{query_at, query_refuses, query_steps, query_waits};

    type Output = ResultSet;

    ghost dialogue = { query_at F.finds F.Search.dialogue (λ p. params (P.count p) (P.gives_at p)) };

    ghost refuses = { query_refuses F.finds F.Search.refuses };

    ghost waits = { query_waits F.finds F.Search.dialogue F.Search.waits (λ p. params (P.count p) (P.gives_at p)) };

    ghost steps = { query_steps F.most F.Search.steps };

    fn next(&mut self, alloc: Global) -> Result<Want<ResultSet>, AllocError> {
        match self {
            QueryTyped::Begins(_, _, _) => self.begin(alloc),
            QueryTyped::Heads(asks, _, _) => {
                let want = asks.next(alloc)?;
                self.headed(alloc, want)
            }
            QueryTyped::Knows(asks, _, _, _) => {
                let want = asks.next(alloc)?;
                self.known(alloc, want)
            }
            QueryTyped::Rows(rows) => rows.next(alloc),
            QueryTyped::Rests(rest, _, _) => {
                let want = rest.next(alloc)?;
                self.rested(alloc, want)
            }
            QueryTyped::Finds(search, _, _) => {
                let want = search.next(alloc)?;
                self.found(alloc, want)
            }
            QueryTyped::Spent => Ok(Want::Answer(Err(Error::Closed))),
        }
    }

    fn message(
        &mut self,
        alloc: Global,
        message: &Result<Message, WireFault>,
    ) -> Result<Want<ResultSet>, AllocError> {
        let want = self.told(alloc, message)?;
        if message.is_err() && !ends(&want) {
            // Nothing is read behind a malformed message, so nothing else is begun.
            return Err(AllocError);
        }
        Ok(want)
    }

    fn reply(&mut self, alloc: Global, reply: Reply) -> Result<Want<ResultSet>, AllocError> {
        match self {
            QueryTyped::Knows(asks, _, _, _) => {
                let want = asks.reply(alloc, reply)?;
                self.known(alloc, want)
            }
            QueryTyped::Finds(search, _, _) => {
                let want = search.reply(alloc, reply)?;
                self.found(alloc, want)
            }
            _ => {
                // The others ask nothing.
                drop(reply);
                Err(AllocError)
            }
        }
    }

    fn refused(&mut self, alloc: Global, error: Error) -> Result<Want<ResultSet>, AllocError> {
        match self {
            QueryTyped::Heads(asks, _, _) => {
                let want = asks.refused(alloc, error)?;
                self.headed(alloc, want)
            }
            QueryTyped::Knows(asks, _, _, _) => {
                let want = asks.refused(alloc, error)?;
                self.known(alloc, want)
            }
            QueryTyped::Rests(rest, _, _) => {
                let want = rest.refused(alloc, error)?;
                self.rested(alloc, want)
            }
            QueryTyped::Finds(search, _, _) => {
                let want = search.refused(alloc, error)?;
                self.found(alloc, want)
            }
            _ => Ok(Want::Answer(Err(error))),
        }
    }

    fn cleanup(&self, alloc: Global) -> Result<VecDeque<Cleanup>, AllocError> {
        match self {
            QueryTyped::Heads(asks, _, _) => asks.cleanup(alloc),
            QueryTyped::Rows(rows) => rows.cleanup(alloc),
            QueryTyped::Rests(rest, _, _) => rest.cleanup(alloc),
            QueryTyped::Finds(search, _, _) => search.cleanup(alloc),
            // The others read nothing.
            _ => Err(AllocError),
        }
    }
}

/// Queries this text with these values under these types, of which there are to be as many: one without its like is left out. It
/// takes no memory; the request is written in its first step.
pub fn queries_typed<'a, F: Finder, P: Params + Drop>(
    how_many: HowMany,
    text: Sql<'a>,
    types: Types<'a>,
    values: P,
    finder: F,
) -> QueryTyped<'a, F, F::Search, P>
    ensures dialogue { ⟦<QueryTyped<'a, F, F::Search, P> as Script>⟧.dialogue result ≡ query_typed (F.finds finder) how_many (sql_text text.entry) (types_in types.entry) (params (P.count values) (P.gives_at values)) }
    ensures steps { ⟦<QueryTyped<'a, F, F::Search, P> as Script>⟧.steps result ≤ 2 + (2 ^ 64 + F.most finder) }
{
    let request = Unwritten {
        text,
        types,
        values,
    };
    QueryTyped::Begins(request, how_many, finder)
}
