//! A turn of a handle.

/// What a handle's turn did.
#[derive(Clone, Copy, Debug, PartialEq, Eq, Drop)]
pub enum Polling {
    /// It has no command left.
    Idle,
    /// A command began and waits.
    Began,
    /// The command that ran still waits.
    Waits,
    /// A command answered.
    Answered,
}
