//! The rows of a portal, as a script.

ghost use Rattle.std.specs.Prelude.{◌≡◌, ◌≤◌, IfOk};
ghost use Rattle.std.specs.Int.{cast_signed, w32};
ghost use Rattle.pg_query.specs.Scripts.{Falls, GoesOn};
ghost use Rattle.pg_query.specs.SingleRequests.{steps_of};
ghost use Rattle.pg_portals.specs.Portals.{query_portal};
ghost use Rattle.pg_portals.specs.Querying.{asking, queries_at, queries_refuses, queries_steps, queries_waits};

use crate::portal::Portal;
use crate::requests::portal_request;
use pg_errors::Error;
use pg_execute::{HowMany, ResultSet, RowsReading, WholeRows, ask};
use pg_query::{Cleanup, Reply, Script, SingleRequest, Want};
use pg_wire::{Message, WireFault};
use std::alloc::{AllocError, Global};
use std::collections::VecDeque;
use std::mem;

/// The request of a portal's rows.
pub type AskedRows = SingleRequest<RowsReading<WholeRows>, ResultSet>;

/// Asks for so many rows of a portal. The limit is told by its bits.
fn ask_rows(alloc: Global, portal: &Portal, limit: u32) -> Result<AskedRows, AllocError>
    ensures asks { IfOk result (λ one. asking one ≡ query_portal portal.now (cast_signed w32 limit)) }
    ensures steps { IfOk result (λ one. steps_of one ≤ 2) }
{
    let request = portal_request(alloc, portal, limit.cast_signed())?;
    let Ok(statement) = portal.statement.copy() else {
        return Err(AllocError);
    };
    let reading = RowsReading::behind_columns(alloc, statement, HowMany::Any, WholeRows);
    Ok(ask(reading, request))
}

/// Queries so many rows of a portal.
#[derive(Drop)]
pub enum QueriesPortal<'a> {
    /// Nothing was done yet; the request is written in the first step. The limit is told by its bits.
    Borrowed(&'a Portal, u32),
    Owned(Portal, u32),
    Asks(AskedRows),
    /// Memory lacked.
    Spent,
}

impl<'a> QueriesPortal<'a> {
    /// Goes on with its request.
    fn ask(&mut self, alloc: Global, asked: AskedRows) -> Result<Want<ResultSet>, AllocError>
        ensures goes_on { IfOk result (λ want. GoesOn queries_at queries_refuses queries_waits (asking asked) want self.new) }
        ensures falls { IfOk result (λ want. Falls want (steps_of asked) (queries_steps self.new)) }
    {
        let mut asked = asked;
        let want = asked.next(alloc)?;
        drop(mem::replace(self, QueriesPortal::Asks(asked)));
        Ok(want)
    }

    /// Writes its request, and goes on with it.
    fn begin(&mut self, alloc: Global) -> Result<Want<ResultSet>, AllocError>
        ensures goes_on { IfOk result (λ want. GoesOn queries_at queries_refuses queries_waits (queries_at self.old) want self.new) }
        ensures falls { IfOk result (λ want. Falls want (queries_steps self.old) (queries_steps self.new)) }
    {
        match mem::replace(self, QueriesPortal::Spent) {
            QueriesPortal::Borrowed(portal, limit) => {
                let asked = ask_rows(alloc, portal, limit)?;
                self.ask(alloc, asked)
            }
            QueriesPortal::Owned(portal, limit) => {
                let asked = ask_rows(alloc, &portal, limit)?;
                drop(portal);
                self.ask(alloc, asked)
            }
            QueriesPortal::Asks(asked) => self.ask(alloc, asked),
            QueriesPortal::Spent => Ok(Want::Answer(Err(Error::Closed))),
        }
    }
}

impl<'a> Script for QueriesPortal<'a> {
    type Output = ResultSet;

    ghost dialogue = { queries_at };

    ghost refuses = { queries_refuses };

    ghost waits = { queries_waits };

    ghost steps = { queries_steps };

    fn next(&mut self, alloc: Global) -> Result<Want<ResultSet>, AllocError> {
        match self {
            // A request that reads is asked again and again, and nothing is moved for that.
            QueriesPortal::Asks(asked) => asked.next(alloc),
            _ => self.begin(alloc),
        }
    }

    fn message(
        &mut self,
        alloc: Global,
        message: &Result<Message, WireFault>,
    ) -> Result<Want<ResultSet>, AllocError> {
        match self {
            QueriesPortal::Asks(asked) => asked.message(alloc, message),
            // It reads nothing yet.
            _ => Err(AllocError),
        }
    }

    fn reply(&mut self, alloc: Global, reply: Reply) -> Result<Want<ResultSet>, AllocError> {
        // It asks nothing.
        Err(AllocError)
    }

    fn refused(&mut self, alloc: Global, error: Error) -> Result<Want<ResultSet>, AllocError> {
        Ok(Want::Answer(Err(error)))
    }

    fn cleanup(&self, alloc: Global) -> Result<VecDeque<Cleanup>, AllocError> {
        match self {
            QueriesPortal::Asks(asked) => asked.cleanup(alloc),
            // It reads nothing yet.
            _ => Err(AllocError),
        }
    }
}
