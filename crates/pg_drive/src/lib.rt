//! Commands and their connection, polled in turn on one hub.
//!
//! One command's state and its connection are one future, which ends with the state's answer:
//!
//! ```text
//! let state = simple_query_state(Sql::Borrowed("SELECT 1"), None);
//! let mut drive = Drive::new(alloc, state, stamp, connection, hub);
//! match block_on(rt, &mut drive)? {
//!     Ok(messages) => ..,
//!     Err(Error::Stalled { before, after }) => ..,
//!     Err(error) => ..,
//! }
//! let (connection, hub, notices) = drive.into_parts();
//! ```
//!
//! A line drives one command after another (`Line::ask`), and many tasks share one:
//!
//! ```text
//! let opened = open(rt, alloc, &mut connect_raw(link, NoTls, false, &config, nonce, limit))?;
//! let mut line = Line::new(alloc, opened.connection, Hub::new(alloc, 0, 0));
//! let mut tasks = [Running::Polled(first, stamp), Running::Polled(second, other)];
//! line.run(rt, alloc, &mut tasks)?;
//! line.close(rt, alloc)?;
//! ```
#![tactic(auto)]

mod asking;
mod closing;
mod drive;
mod laws;
mod line;
mod opening;
mod rounds;
mod task;

pub use drive::Drive;
pub use laws::{
    how_a_line_is_closed, life_of_a_drive, life_of_a_running, life_of_an_ask, what_tasks_did,
    why_a_drive_stalls, why_a_line_stalls,
};
pub use line::Line;
pub use opening::open;
pub use task::{Running, Task};
