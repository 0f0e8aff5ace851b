//! Counts the frames of a client that give the turn to the server, as its bytes come. Each look reads the
//! header of one frame, however many bytes came before.

ghost use Rattle.std.specs.Prelude.{◌≡◌, ◌+◌, ◌<◌, ◌≤◌, ◌^◌, [], length, take, drop, Some, None, MatchOption};
ghost use Rattle.std.specs.Int.{w32, from_be_bytes};
ghost use Rattle.pg_spec.specs.Sent.{turns_given};
ghost use Rattle.pg_wire.specs.Turning.{Counts, AsksForTls, EndsStartup, EndsFrame, IsNext, is_turn_tag};

use crate::front::{Found, front};

/// What the bytes behind a place begin with.
#[derive(Clone, Copy, Debug, PartialEq, Eq, Drop)]
pub(crate) enum Stage {
    /// An SSLRequest or the startup frame.
    Start,
    /// The startup frame.
    Startup,
    /// Tagged frames.
    Frames,
}

/// How far the bytes were cut into frames, and how many of these gave the turn.
#[derive(Clone, Copy, Debug, PartialEq, Eq, Drop)]
pub(crate) struct Turning {
    pub stage: Stage,
    pub at: usize,
    pub turns: usize,
}

const SSL_REQUEST: [u8; 8] = [0, 0, 0, 8, 4, 210, 22, 47];

/// The number in the first four bytes.
fn number(bytes: &[u8]) -> Option<usize>
    ensures { MatchOption result (length bytes.now < 4)
        (λ n. (4 ≤ length bytes.now) × (n ≡ from_be_bytes w32 (take 4 bytes.now))) }
{
    let [a, b, c, d, ..] = *bytes else {
        return None;
    };
    Some(u32::from_be_bytes([a, b, c, d]) as usize)
}

/// Whether the bytes begin with an SSLRequest. None where that isn't known yet.
fn asks_for_tls(bytes: &[u8]) -> Option<bool>
    ensures { AsksForTls bytes.now result }
{
    if bytes.len() >= 8 {
        return Some(bytes.starts_with(&SSL_REQUEST));
    }
    let n = number(bytes)?;
    if n == 8 {
        return None;
    }
    Some(false)
}

/// Where the startup frame in front ends. None where it hasn't come whole.
fn startup_end(bytes: &[u8]) -> Option<usize>
    ensures { EndsStartup bytes.now result }
{
    let n = number(bytes)?;
    if n > bytes.len() {
        return None;
    }
    Some(n)
}

/// A whole frame: its bytes, and whether it gives the turn.
#[derive(Clone, Copy, Debug, PartialEq, Eq, Drop)]
pub(crate) struct Frame {
    pub len: usize,
    pub gives_turn: bool,
}

/// A password or a message of SASL, Query, Sync or Flush.
fn is_turn(tag: u8) -> bool
    ensures { result ≡ is_turn_tag tag }
{
    tag == b'p' || (tag == b'Q' || tag == b'S') || tag == b'H'
}

/// The whole frame in front. None where none has come.
fn front_frame(bytes: &[u8]) -> Option<Frame>
    ensures { EndsFrame bytes.now result }
{
    let Found::Whole(len) = front(bytes) else {
        return None;
    };
    let gives_turn = is_turn(bytes[0]);
    Some(Frame { len, gives_turn })
}

impl Turning {
    /// Nothing has come.
    pub fn new() -> Turning
        ensures counts { Counts [] result }
        ensures turns { result.turns ≡ turns_given [] }
    {
        Turning {
            stage: Stage::Start,
            at: 0,
            turns: 0,
        }
    }

    /// Goes past an SSLRequest, or sees that there is none.
    fn past_request(self, sent: &[u8]) -> Option<Turning>
        requires counts { Counts sent.now self }
        requires stage { self.stage ≡ Stage.Start }
        ensures { IsNext sent.now self result }
    {
        let stage = Stage::Startup;
        if asks_for_tls(&sent[self.at..])? {
            let (at, turns) = (self.at + 8, self.turns + 1);
            return Some(Turning { stage, at, turns });
        }
        let (at, turns) = (self.at, self.turns);
        Some(Turning { stage, at, turns })
    }

    /// Goes past the startup frame.
    fn past_startup(self, sent: &[u8]) -> Option<Turning>
        requires counts { Counts sent.now self }
        requires stage { self.stage ≡ Stage.Startup }
        ensures { IsNext sent.now self result }
    {
        let len = startup_end(&sent[self.at..])?;
        Some(Turning {
            stage: Stage::Frames,
            at: self.at + len,
            turns: self.turns + 1,
        })
    }

    /// Goes past a tagged frame.
    fn past_frame(self, sent: &[u8]) -> Option<Turning>
        requires counts { Counts sent.now self }
        requires stage { self.stage ≡ Stage.Frames }
        ensures { IsNext sent.now self result }
    {
        let frame = front_frame(&sent[self.at..])?;
        Some(Turning {
            stage: Stage::Frames,
            at: self.at + frame.len,
            turns: self.turns + u8::from(frame.gives_turn) as usize,
        })
    }

    /// Goes past what stands whole in front. None where nothing does.
    fn next(self, sent: &[u8]) -> Option<Turning>
        requires { Counts sent.now self }
        ensures { IsNext sent.now self result }
    {
        match self.stage {
            Stage::Start => self.past_request(sent),
            Stage::Startup => self.past_startup(sent),
            Stage::Frames => self.past_frame(sent),
        }
    }

    /// Goes past all that stands whole.
    pub fn advance(self, sent: &[u8]) -> Turning
        requires { Counts sent.now self }
        ensures counts { Counts sent.now result }
        ensures turns { result.turns ≡ turns_given sent.now }
    {
        let mut turning = self;
        while let Some(next) = turning.next(sent) {
            turning = next;
        }
        turning
    }
}
