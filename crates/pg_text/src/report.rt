//! The report on a session.

use crate::command::Answer;
use pg_desk::Booking;
use pg_errors::AsyncMessage;
use pg_spec::TurnMark;
use pg_types::{Blob, List, Text};

/// A setting of the server as it was last reported.
#[derive(Debug, Drop)]
pub struct Pair {
    pub name: Text,
    pub value: Text,
}

/// What a session reports at its end.
#[derive(Drop)]
pub struct Report {
    /// For each script, the answers of its commands.
    pub answers: List<List<Answer>>,
    /// Notices and notifications, in order.
    pub asynchronous: List<AsyncMessage>,
    /// The server's settings, ascending by the bytes of their names.
    pub parameters: List<Pair>,
    pub process_id: i32,
    pub secret_key: i32,
    /// The requests in the order in which they were booked.
    pub book: List<Booking>,
    pub trace: List<TurnMark>,
    /// All bytes that the link took.
    pub sent: Blob,
}
