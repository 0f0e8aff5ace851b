//! The hub: it books the requests of all handles, hands their parts out in order, and keeps what comes for
//! each until its reader takes it. And the reader of the messages of one request, over any desk.
#![tactic(auto)]

mod catalog;
mod hub;
mod laws;
mod mailbox;
mod outbox;
mod outgoing;
mod pipeline;
mod replies;
mod responses;

pub use hub::Hub;
pub use laws::{every_hub, every_pipeline};
pub use mailbox::{Kept, Mailbox};
pub use outgoing::Outgoing;
pub use pg_desk::{
    Booking, CatalogCall, Column, Deliver, Desk, DeskFault, Engine, Event, FoundType, Lookup, Out,
    Put, Stamp, Statement, Take,
};
pub use pipeline::Pipeline;
pub use responses::Responses;
