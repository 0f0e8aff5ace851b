//! Calls of portals, as states that are polled. Each takes no memory when it is made, and books nothing before its first poll.

ghost use Rattle.std.specs.Prelude.{◌≡◌, []};
ghost use Rattle.pg_core.specs.Lookups.{prepare};
ghost use Rattle.pg_execute.specs.Parameters.{params};
ghost use Rattle.pg_portals.specs.Portals.{bind, close_portal, is_text, query_portal};

use crate::binds::Binds;
use crate::closes::ClosesPortal;
use crate::portal::Portal;
use crate::queries::QueriesPortal;
use pg_execute::{Closing, OnTarget, Target, on_closing};
use pg_query::{Command, Polled};
use pg_search::Finds;
use pg_types::Params;

/// Its statement stands for a portal alone.
fn stands_for_text(target: &Target) -> bool
    ensures { result ≡ is_text target.now }
{
    !matches!(target, Target::Statement(_) | Target::Owned(_))
}

/// The state that binds a statement or a text. The portal is the answer.
pub type BindState<'a, P> = Command<OnTarget<'a, Finds, Binds<P>>>;

/// Binds a statement or a text to these values. The statement of a text is closed where that fails, and else with the portal.
pub fn bind_state<'a, P: Params + Drop>(target: Target<'a>, values: P) -> BindState<'a, P>
    ensures live { ⟦<BindState<'a, P> as Polled>⟧.is_live result }
    ensures asks { (⟦<BindState<'a, P> as Polled>⟧.place result).dialogue ≡ bind (λ text. prepare text []) target.entry (params (P.count values) (P.gives_at values)) }
{
    let closes = stands_for_text(&target);
    let go = Binds { values, closes };
    Command::new(on_closing(Closing::AtError, target, Finds {}, go))
}

/// The state that queries rows of a portal. They are the answer.
pub type QueryPortalState<'a> = Command<QueriesPortal<'a>>;

/// Queries so many of the rows that are left of a portal, all of them for 0 and less.
pub fn query_portal_state<'a>(portal: &'a Portal, max_rows: i32) -> QueryPortalState<'a>
    ensures live { ⟦<QueryPortalState<'a> as Polled>⟧.is_live result }
    ensures asks { (⟦<QueryPortalState<'a> as Polled>⟧.place result).dialogue ≡ query_portal portal.now max_rows }
{
    Command::new(QueriesPortal::Borrowed(portal, max_rows.cast_unsigned()))
}

/// The same of a portal that can't be borrowed for so long.
pub fn query_portal_owned_state<'a>(portal: Portal, max_rows: i32) -> QueryPortalState<'a>
    ensures live { ⟦<QueryPortalState<'a> as Polled>⟧.is_live result }
    ensures asks { (⟦<QueryPortalState<'a> as Polled>⟧.place result).dialogue ≡ query_portal portal max_rows }
{
    Command::new(QueriesPortal::Owned(portal, max_rows.cast_unsigned()))
}

/// The state that closes a portal. Nobody reads the server's replies.
pub type ClosePortalState = Command<ClosesPortal>;

/// Closes a portal, and the statement of the text that it was bound from.
pub fn close_portal_state(portal: Portal) -> ClosePortalState
    ensures live { ⟦<ClosePortalState as Polled>⟧.is_live result }
    ensures asks { (⟦<ClosePortalState as Polled>⟧.place result).dialogue ≡ close_portal portal }
{
    Command::new(ClosesPortal::Fresh(portal))
}
