//! The steps of commands.

/// One step of a command.
#[derive(Clone, Copy, Drop)]
pub enum Step {
    /// Asks by the request of the call. Where it can't be written, that error is the answer.
    Asks,
    /// From here on an error, or giving up, sends `ROLLBACK`, whose reply nobody reads.
    RollsBack,
    /// Reads the reply to its end, and keeps nothing of it. At an error the request is hung up.
    Reads,
    /// Sends the request of the call. Nobody reads its reply.
    Sends,
}
