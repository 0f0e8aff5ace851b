//! A text that is executed with values of given types, and whose count is told, as a script.

ghost use Rattle.std.specs.Prelude.{◌≡◌, ◌≤◌, false, IfOk};
ghost use Rattle.pg_types.specs.Texts.{sql_text};
ghost use Rattle.pg_query.specs.Reading.{reads};
ghost use Rattle.pg_query.specs.Scripts.{Falls};
ghost use Rattle.pg_core.specs.Composing.{asks_for};
ghost use Rattle.pg_core.specs.QueryReplies.{told_by};
ghost use Rattle.pg_execute.specs.Parameters.{params};
ghost use Rattle.pg_execute.specs.Typed.{execute_typed, typed_count_next};
ghost use Rattle.pg_execute.specs.TypedExecutes.{ExecuteGoes, begun, execute_steps, unwritten};
ghost use Rattle.pg_execute.specs.Types.{types_in};

use crate::ask;
use crate::typed_count_reading::TypedCountReading;
use crate::typed_requests::Unwritten;
use crate::types::Types;
use bytes::Bytes;
use pg_errors::Error;
use pg_query::{Cleanup, Reply, Script, SingleRequest, Want};
use pg_types::{Params, Sql};
use pg_wire::{Message, WireFault};
use std::alloc::{AllocError, Global};
use std::collections::VecDeque;
use std::mem;

/// Executes a text with values of given types, in one request, and answers how many rows its last command affected.
pub enum ExecuteTyped<'a, P> {
    /// The request isn't written yet.
    Begins(Unwritten<'a, P>),
    /// Its reply is read.
    Asks(SingleRequest<TypedCountReading, u64>),
    /// Memory lacked.
    Spent,
}

impl<'a, P: Drop> Drop for ExecuteTyped<'a, P> {
    fn drop(self) {
        match self {
            ExecuteTyped::Begins(request) => drop(request),
            ExecuteTyped::Asks(asks) => drop(asks),
            ExecuteTyped::Spent => {}
        }
    }
}

impl<'a, P: Params + Drop> ExecuteTyped<'a, P> {
    /// The request, where it isn't written yet.
    fn into_request(self) -> Option<Unwritten<'a, P>>
        ensures { result ≡ unwritten self.entry }
    {
        match self {
            ExecuteTyped::Begins(request) => Some(request),
            other => {
                drop(other);
                None
            }
        }
    }

    /// Writes the request, and asks by it.
    fn begin(&mut self, alloc: Global) -> Result<Want<u64>, AllocError>
        ensures goes_on { IfOk result (λ want. ExecuteGoes (λ p. params (P.count p) (P.gives_at p)) (begun (λ p. params (P.count p) (P.gives_at p)) (unwritten self.old)) want self.new) }
        ensures falls { IfOk result (λ want. Falls want 2 (execute_steps self.new)) }
    {
        match mem::replace(self, ExecuteTyped::Spent).into_request() {
            Some(request) => {
                let request = request.write(alloc)?;
                self.asks(alloc, request)
            }
            None => Err(AllocError),
        }
    }

    /// Asks by this request, or answers why it can't be sent.
    fn asks(
        &mut self,
        alloc: Global,
        request: Result<Bytes, Error>,
    ) -> Result<Want<u64>, AllocError>
        ensures goes_on { IfOk result (λ want. ExecuteGoes (λ p. params (P.count p) (P.gives_at p)) (asks_for request (reads false (told_by typed_count_next 0))) want self.new) }
        ensures falls { IfOk result (λ want. Falls want 2 (execute_steps self.new)) }
    {
        let mut asks = ask(TypedCountReading::new(), request);
        let want = asks.next(alloc)?;
        drop(mem::replace(self, ExecuteTyped::Asks(asks)));
        Ok(want)
    }
}

impl<'a, P: Params + Drop> Script for ExecuteTyped<'a, P> {
    ghost use Rattle.pg_execute.specs.Parameters.{params};
    ghost use Rattle.pg_execute.specs.TypedExecutes.{execute_at, execute_refuses, execute_steps, execute_waits};

    type Output = u64;

    ghost dialogue = { execute_at (λ p. params (P.count p) (P.gives_at p)) };

    ghost refuses = { execute_refuses };

    ghost waits = { execute_waits (λ p. params (P.count p) (P.gives_at p)) };

    ghost steps = { execute_steps };

    fn next(&mut self, alloc: Global) -> Result<Want<u64>, AllocError> {
        match self {
            ExecuteTyped::Begins(_) => self.begin(alloc),
            ExecuteTyped::Asks(asks) => asks.next(alloc),
            ExecuteTyped::Spent => Ok(Want::Answer(Err(Error::Closed))),
        }
    }

    fn message(
        &mut self,
        alloc: Global,
        message: &Result<Message, WireFault>,
    ) -> Result<Want<u64>, AllocError> {
        match self {
            ExecuteTyped::Asks(asks) => asks.message(alloc, message),
            // The others read nothing.
            _ => Err(AllocError),
        }
    }

    fn reply(&mut self, alloc: Global, reply: Reply) -> Result<Want<u64>, AllocError> {
        // It asks nothing.
        drop(reply);
        Err(AllocError)
    }

    fn refused(&mut self, alloc: Global, error: Error) -> Result<Want<u64>, AllocError> {
        Ok(Want::Answer(Err(error)))
    }

    fn cleanup(&self, alloc: Global) -> Result<VecDeque<Cleanup>, AllocError> {
        match self {
            ExecuteTyped::Asks(asks) => asks.cleanup(alloc),
            // The others read nothing.
            _ => Err(AllocError),
        }
    }
}

/// Executes this text with these values under these types. It takes no memory; the request is written in its first step.
pub fn executes_typed<'a, P: Params + Drop>(
    text: Sql<'a>,
    types: Types<'a>,
    values: P,
) -> ExecuteTyped<'a, P>
    ensures dialogue { ⟦<ExecuteTyped<'a, P> as Script>⟧.dialogue result ≡ execute_typed (sql_text text.entry) (types_in types.entry) (params (P.count values) (P.gives_at values)) }
    ensures steps { ⟦<ExecuteTyped<'a, P> as Script>⟧.steps result ≤ 2 }
{
    ExecuteTyped::Begins(Unwritten {
        text,
        types,
        values,
    })
}
