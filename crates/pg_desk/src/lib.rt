//! Prepared statements: their names, the types of their parameters, and the columns of their rows.
//! The hub as its users see it: its calls as events, the traits whose meaning is a relation by lists of
//! events, and what such a list stands for.
#![tactic(auto)]

mod column;
mod desk_trait;
mod event;
mod laws;
mod statement;

pub use column::Column;
pub use desk_trait::{Desk, Engine};
pub use event::{Booking, CatalogCall, Deliver, DeskFault, Event, FoundType, Out, Put, Take};
pub use laws::{every_interleaving, what_the_catalog_tells};
pub use pg_spec::Stamp;
pub use statement::{Described, Lookup, Statement};
