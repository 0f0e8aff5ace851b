//! Portals: a statement or a text is bound to values, its rows are queried part by part, and it is closed.
#![tactic(auto)]

mod binds;
mod bound;
mod closes;
mod draws_portal;
mod portal;
mod queries;
mod requests;
mod states;

pub use binds::{Binding, Binds};
pub use bound::Bound;
pub use closes::ClosesPortal;
pub use draws_portal::DrawsPortal;
pub use portal::Portal;
pub use queries::{AskedRows, QueriesPortal};
pub use requests::portal_request;
pub use states::{
    BindState, ClosePortalState, QueryPortalState, bind_state, close_portal_state,
    query_portal_owned_state, query_portal_state,
};
