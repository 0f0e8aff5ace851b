//! Plain data that a session and its definitions both speak of: whose a request is, and which turns were made.

ghost use Rattle.std.specs.Prelude.{◌≡◌};
ghost use Rattle.pg_spec.specs.Stamps.{marked, stamped};

/// Which command of which handle booked a request, and at which turn. All count from 0.
#[derive(Clone, Copy, Debug, PartialEq, Eq, Drop)]
pub struct Stamp {
    pub owner: u32,
    pub command: u32,
    pub turn: u64,
}

impl Stamp {
    /// The stamp of a request that this command of this handle books at this turn.
    pub fn new(owner: u32, command: u32, turn: u64) -> Stamp
        ensures { result ≡ stamped owner command turn }
    {
        Stamp {
            owner,
            command,
            turn,
        }
    }
}

/// A turn that was made: whose it was, and the messages delivered to or discarded for requests since
/// startup.
#[derive(Clone, Copy, Debug, PartialEq, Eq, Drop)]
pub struct TurnMark {
    pub turn: u32,
    pub delivered: u64,
}

impl TurnMark {
    /// The mark of a turn of this handle or, by the number of handles, of the connection.
    pub fn new(turn: u32, delivered: u64) -> TurnMark
        ensures { result ≡ marked turn delivered }
    {
        TurnMark { turn, delivered }
    }
}
