//! The portals of a transaction.

ghost use Rattle.std.specs.Prelude.{◌≡◌, Some};
ghost use Rattle.pg_query.specs.Made.{made};
ghost use Rattle.pg_execute.specs.Parameters.{params};
ghost use Rattle.pg_portals.specs.Portals as spec;
ghost use Rattle.pg_calls.specs.Answers.{rows_of};
ghost use Rattle.pg_states.specs.Texts.{prepare_text};
ghost use Rattle.pg_streams.specs.PortalStreams.{portal_first, query_portal_raw};

use crate::answered::Answered;
use crate::answers::{AllRows, QueryPortalState};
use crate::transaction::Transaction;
use pg_execute::Target;
use pg_portals::{
    BindState, ClosePortalState, Portal, bind_state, close_portal_state, query_portal_owned_state,
    query_portal_state,
};
use pg_query::Polled;
use pg_streams::{Opens, QueryPortalRawState};
use pg_types::Params;

impl<'a> Transaction<'a> {
    /// Binds a statement or a text to these values, and answers the portal. A text is prepared before; its statement is closed where the
    /// bind fails, and else with the portal. A number is drawn for the portal first, and Encode comes where none is left. Refused values
    /// book nothing: Parameters comes where they aren't as many as the parameters, then ToSql at the first that can't stand as its
    /// parameter, then Encode where the frames can't be written. Behind that Db comes at an error of the server, Parse at a message that
    /// can't be read, UnexpectedMessage at one out of place, Closed where the desk takes no requests any more, or gives no more of the
    /// reply.
    pub fn bind<'b, P: Params + Drop>(&self, target: Target<'b>, values: P) -> BindState<'b, P>
        ensures live { ⟦<BindState<'b, P> as Polled>⟧.is_live result }
        ensures asks { (⟦<BindState<'b, P> as Polled>⟧.place result).dialogue ≡ spec.bind prepare_text target.entry (params (P.count values) (P.gives_at values)) }
    {
        bind_state(target, values)
    }

    /// The same.
    pub fn bind_raw<'b, P: Params + Drop>(&self, target: Target<'b>, values: P) -> BindState<'b, P>
        ensures live { ⟦<BindState<'b, P> as Polled>⟧.is_live result }
        ensures asks { (⟦<BindState<'b, P> as Polled>⟧.place result).dialogue ≡ spec.bind prepare_text target.entry (params (P.count values) (P.gives_at values)) }
    {
        bind_state(target, values)
    }

    /// So many of the rows that are left of a portal, all of them for 0 and less. The errors are those of `Client::query` behind its values.
    pub fn query_portal<'b>(&self, portal: &'b Portal, max_rows: i32) -> QueryPortalState<'b>
        ensures live { ⟦<QueryPortalState<'b> as Polled>⟧.is_live result }
        ensures asks { (⟦<QueryPortalState<'b> as Polled>⟧.place result).dialogue ≡ made rows_of (spec.query_portal portal.now max_rows) }
    {
        Answered::new(query_portal_state(portal, max_rows), AllRows)
    }

    /// The same of a portal, or a copy of it, that can't be borrowed for so long.
    pub fn query_portal_owned<'b>(&self, portal: Portal, max_rows: i32) -> QueryPortalState<'b>
        ensures live { ⟦<QueryPortalState<'b> as Polled>⟧.is_live result }
        ensures asks { (⟦<QueryPortalState<'b> as Polled>⟧.place result).dialogue ≡ made rows_of (spec.query_portal portal max_rows) }
    {
        Answered::new(query_portal_owned_state(portal, max_rows), AllRows)
    }

    /// A stream of the same rows.
    pub fn query_portal_raw<'b>(&self, portal: &'b Portal, max_rows: i32) -> QueryPortalRawState<'b>
        ensures live { ⟦<QueryPortalRawState<'b> as Opens>⟧.is_live result }
        ensures asks { (⟦<QueryPortalRawState<'b> as Opens>⟧.place result).dialogue ≡ query_portal_raw portal.now max_rows }
        ensures knows { ⟦<QueryPortalRawState<'b> as Opens>⟧.knows result ≡ Some portal.now.statement }
        ensures first { ⟦<QueryPortalRawState<'b> as Opens>⟧.first result ≡ (λ _. portal_first) }
    {
        QueryPortalRawState::new(portal, max_rows)
    }

    /// Closes a portal, and the statement of the text that it was bound from. Nobody reads the server's replies. Closed comes where the
    /// desk takes no requests any more.
    pub fn close_portal(&self, portal: Portal) -> ClosePortalState
        ensures live { ⟦<ClosePortalState as Polled>⟧.is_live result }
        ensures asks { (⟦<ClosePortalState as Polled>⟧.place result).dialogue ≡ spec.close_portal portal }
    {
        close_portal_state(portal)
    }
}
