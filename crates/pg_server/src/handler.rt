//! What a server says by itself.

ghost use Rattle.std.specs.Prelude.{◌≡◌, MatchResult};
ghost use Rattle.pg_spec.specs.ClientFrames.{ClientFrame};
ghost use Rattle.pg_server.specs.Frames.{frame_view};
ghost use Rattle.pg_server.specs.declared.handler.Effect.{Effect};

use crate::frame::Frame;
use pg_types::{Blob, OutOfMemory};

/// What a frame is answered. A server gives it where it may: the reply is whole messages without ReadyForQuery, which the
/// server adds by itself. An effect that opens a copy is an Execute's, and its reply has no error and one CopyInResponse,
/// at its end. No other reply has a CopyInResponse.
#[derive(Debug, Drop)]
pub struct Effect {
    pub reply: Blob,
    /// The frame opens a copy.
    pub opens: bool,
}

/// Answers frames. Its meaning is a step from its state and a frame to an effect and a new state.
pub trait Handler {
    /// Its states.
    ghost State: { Type 0 };

    /// The state that it is in.
    ghost state: { Self → State };

    /// What it does with a frame.
    ghost step: { State → ClientFrame → Effect × State };

    /// Answers a frame. Where memory lacks its state is as before.
    fn answer(&mut self, frame: &Frame) -> Result<Effect, OutOfMemory>
        ensures { MatchResult result
            (λ effect. (effect, state self.new) ≡ step (state self.old) (frame_view frame.now))
            (λ _. state self.new ≡ state self.old) };
}
