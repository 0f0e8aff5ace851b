//! Rows of a portal, which are given one by one.

ghost use Rattle.std.specs.Prelude.{◌≡◌, Some};
ghost use Rattle.pg_streams.specs.PortalStreams.{portal_first, query_portal_raw};

use crate::opens::Opens;
use crate::row_stream::RowStream;
use futures::task::Poll;
use pg_desk::{Desk, Stamp};
use pg_errors::Error;
use pg_portals::{Portal, portal_request};
use pg_query::error_of;
use pg_wire::BackendMessages;
use std::alloc::Global;

/// The state that queries rows of a portal, whose stream is the answer, in its first poll.
#[derive(Drop)]
pub struct QueryPortalRawState<'a> {
    portal: &'a Portal,
    max_rows: i32,
    /// It was polled.
    over: bool,
}

impl<'a> QueryPortalRawState<'a> {
    /// Makes the state that queries so many of the rows that are left of a portal, all of them for 0 and less. It takes no memory, and books
    /// nothing before its first poll. Closed comes where the desk takes no requests any more.
    pub fn new(portal: &'a Portal, max_rows: i32) -> QueryPortalRawState<'a>
        ensures live { ⟦<QueryPortalRawState<'a> as Opens>⟧.is_live result }
        ensures asks { (⟦<QueryPortalRawState<'a> as Opens>⟧.place result).dialogue ≡ query_portal_raw portal.now max_rows }
        ensures knows { ⟦<QueryPortalRawState<'a> as Opens>⟧.knows result ≡ Some portal.now.statement }
        ensures first { ⟦<QueryPortalRawState<'a> as Opens>⟧.first result ≡ (λ _. portal_first) }
    {
        QueryPortalRawState {
            portal,
            max_rows,
            over: false,
        }
    }
}

impl<'a> Opens for QueryPortalRawState<'a> {
    ghost use Rattle.std.specs.Prelude.{◌≡◌, Some, false};
    ghost use Rattle.pg_desk.specs.declared.statement.Described as described;
    ghost use Rattle.pg_streams.specs.Handing.{never_whole, nothing_to_find};
    ghost use Rattle.pg_streams.specs.PortalStreams.{asks_portal, portal_first, portal_opened};
    ghost use Rattle.pg_streams.specs.RowStates.{IsBegun, rows_place, statement_of};
    ghost use Rattle.pg_streams.specs.RowStreams as streams;

    type Stream = RowStream;

    ghost Whole = { streams.RowsGiven };

    ghost place = { λ s. record { dialogue = asks_portal s.over s.portal.now s.max_rows; reads = 0 } };

    ghost Known = { described.Described };

    ghost knows = { λ s. Some s.portal.now.statement };

    ghost known = { statement_of };

    ghost asks = { λ s _. asks_portal s.over s.portal.now s.max_rows };

    ghost finding = { λ _. nothing_to_find };

    ghost is_whole = { never_whole };

    ghost first = { λ _ _. portal_first };

    ghost stands = { rows_place };

    ghost opened = { portal_opened };

    ghost is_open = { IsBegun };

    ghost is_live = { λ s. s.over ≡ false };

    fn poll<D: Desk>(
        &mut self,
        alloc: Global,
        desk: &mut D,
        stamp: Stamp,
    ) -> Poll<Result<RowStream, Error>> {
        if self.over {
            return Poll::Ready(Err(Error::Closed));
        }
        self.over = true;
        let Ok(statement) = self.portal.statement().copy() else {
            return Poll::Ready(Err(Error::OutOfMemory));
        };
        let request = match portal_request(alloc, self.portal, self.max_rows) {
            Ok(Ok(request)) => request,
            Ok(Err(error)) => return Poll::Ready(Err(error)),
            Err(_) => return Poll::Ready(Err(Error::OutOfMemory)),
        };
        match desk.book(alloc, stamp, request, false) {
            Ok(id) => {
                let batch = BackendMessages::empty();
                Poll::Ready(Ok(RowStream::behind_columns(alloc, statement, id, batch)))
            }
            Err(fault) => Poll::Ready(Err(error_of(fault))),
        }
    }

    fn hang_up<D: Desk>(self, alloc: Global, desk: &mut D, stamp: Stamp) -> Result<(), Error> {
        // Nothing was asked yet.
        Ok(())
    }
}
