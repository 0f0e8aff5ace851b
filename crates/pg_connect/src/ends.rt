//! How a step of a poll may end.

use pg_errors::AsyncMessage;

/// How the parts of the hub were sent.
#[derive(Clone, Copy, Debug, PartialEq, Eq, Drop)]
pub enum PartsEnd {
    /// The link isn't ready.
    Blocked,
    /// All that went out was taken, and nothing more is there now.
    Waits,
    /// All that went out was taken, and nothing more will come.
    NoMore,
}

/// How a write step ended.
#[derive(Clone, Copy, Debug, PartialEq, Eq, Drop)]
pub enum WriteEnd {
    /// The link isn't ready.
    Blocked,
    /// Nothing is unsent.
    AllTaken,
}

/// What was taken off the front of the bytes.
#[derive(Drop)]
pub enum Off {
    /// A batch, which is held now.
    Held,
    /// A parameter report, which is kept.
    Kept,
    /// A message to hand out.
    Handed(AsyncMessage),
    /// No whole message is there.
    Nothing,
}

/// Where passing on stopped.
#[derive(Drop)]
pub enum Step {
    /// At a message to hand out.
    Handed(AsyncMessage),
    /// At a mailbox that is full.
    Full,
    /// Where no whole message was left.
    Nothing,
}

/// How a read step ended.
#[derive(Drop)]
pub enum ReadEnd {
    /// At a message to hand out.
    Handed(AsyncMessage),
    /// At a mailbox that is full.
    Full,
    /// At a link that isn't ready.
    Dry,
}

/// How a flush step ended.
#[derive(Clone, Copy, Debug, PartialEq, Eq, Drop)]
pub enum FlushEnd {
    /// The link isn't ready.
    Blocked,
    Flushed,
    /// Terminate was taken and flushed, and the link is shut down.
    ShutDown,
}

/// How the write step and the flush step ended.
#[derive(Clone, Copy, Debug, PartialEq, Eq, Drop)]
pub enum SendEnd {
    Waits,
    /// Terminate was taken and flushed, and the link is shut down.
    Over,
}

/// How a turn of the connection ended.
#[derive(Drop)]
pub enum TurnEnd {
    /// At a message to hand out.
    Handed(AsyncMessage),
    Waits,
    /// Terminate was taken and flushed, and the link is shut down.
    Over,
}
