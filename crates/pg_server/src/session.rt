//! A server at a moment: its handler, and where it stands.

ghost use Rattle.std.specs.Prelude.{◌≡◌, ◌↔◌, true, drop, Ok, if◌then◌else◌};
ghost use Rattle.pg_spec.specs.RawMessages.{RawMessage};
ghost use Rattle.pg_wire.specs.Fronts.{IsWhole, message_of_bytes};
ghost use Rattle.pg_machine.specs.declared.serving.Mode.TheVariants as modes;
ghost use Rattle.pg_server.specs.declared.session.Stage.TheVariants as stage;
ghost use Rattle.pg_server.specs.Frames.{frame_view, frame_or_fault};
ghost use Rattle.pg_server.specs.Openings.{opening_in_front};
ghost use Rattle.pg_server.specs.Hearing.{Hears};
ghost use Rattle.pg_server.specs.Standings.{standing_of, serving_of, unfed, behind_frame, Answers, Asks, Steps, Does, front, opened, reading};

use crate::answer::{Answer, asks, copied, is_sound, put};
use crate::fault::ServerFault;
use crate::frame::{Frame, whole_frame};
use crate::handler::Handler;
use crate::opening::{Opening, in_front};
use bytes::BytesMut;
use pg_machine::{Found, Mode, front_message, kind_of, mode_behind, says_ready, tags_of, turn_of};
use pg_types::{Blob, WireFault};
use std::alloc::Global;

/// How far a server has come.
#[derive(Clone, Copy, Debug, PartialEq, Eq, Drop)]
pub(crate) enum Stage {
    /// The startup frame hasn't come.
    Opening,
    /// Behind the startup frame.
    Serves,
    /// Behind Terminate or a fault.
    Over,
}

/// A server at a moment.
#[derive(Debug, Drop)]
pub(crate) struct Session<H> {
    alloc: Global,
    handler: H,
    startup: Blob,
    stage: Stage,
    mode: Mode,
    answered: u64,
}

/// The mode behind a frame for which the handler isn't asked.
fn mode_kept(mode: Mode, ready: bool) -> Mode
    ensures { result ≡ (if ready then modes.Normal else mode) }
{
    if ready { Mode::Normal } else { mode }
}

impl<H: Handler> Session<H> {
    /// It hasn't been fed.
    pub fn new(alloc: Global, handler: H, startup: Blob) -> Session<H>
        ensures { standing_of H.state result ≡ unfed (H.state handler) startup }
    {
        Session {
            alloc,
            handler,
            startup,
            stage: Stage::Opening,
            mode: Mode::Normal,
            answered: 0,
        }
    }

    /// How far it has come.
    pub fn stage(&self) -> Stage
        ensures { result ≡ (standing_of H.state self.now).stage }
    {
        self.stage
    }

    /// It is behind Terminate or a fault.
    pub fn is_over(&self) -> bool
        ensures { (result ≡ true) ↔ ((standing_of H.state self.now).stage ≡ stage.Over) }
    {
        self.stage == Stage::Over
    }

    /// It goes no further.
    pub fn end(&mut self)
        ensures { standing_of H.state self.new ≡ record (standing_of H.state self.old) { stage = stage.Over } }
    {
        self.stage = Stage::Over;
    }

    /// What a frame of this tag is answered. The handler is asked where the rules say so. It is over where the effect may
    /// not be given.
    fn answer(&mut self, tag: u8, frame: &Frame) -> Result<Answer, ServerFault>
        ensures { (raw : RawMessage) → raw.tag ≡ tag → frame_or_fault raw ≡ Ok (frame_view frame.now) →
            Answers H.step (standing_of H.state self.old) (standing_of H.state self.new) raw (frame_view frame.now) result }
    {
        let turn = turn_of(self.mode, kind_of(tag));
        let ready = says_ready(turn);
        if !asks(turn) {
            self.mode = mode_kept(self.mode, ready);
            return Ok(Answer {
                reply: Blob::new(Vec::new(self.alloc)),
                ready,
            });
        }
        let Ok(effect) = self.handler.answer(frame) else {
            return Err(ServerFault::OutOfMemory);
        };
        let tags = tags_of(effect.reply.as_slice());
        if !is_sound(tags, tag, effect.opens) {
            self.stage = Stage::Over;
            return Err(ServerFault::BadEffect(self.answered));
        }
        self.mode = mode_behind(turn, tags.error, effect.opens);
        Ok(Answer {
            reply: effect.reply,
            ready,
        })
    }

    /// What the frame of the first `n` bytes is answered.
    fn ask(&mut self, bytes: &[u8], n: usize) -> Result<Answer, ServerFault>
        requires { IsWhole bytes.now n }
        ensures { Asks H.step (standing_of H.state self.old) (standing_of H.state self.new) (message_of_bytes n bytes.now) result }
    {
        match whole_frame(self.alloc, bytes, n) {
            Ok(frame) => self.answer(bytes[0], &frame),
            Err(WireFault::OutOfMemory) => Err(ServerFault::OutOfMemory),
            Err(fault) => Err(ServerFault::BadFrame(fault)),
        }
    }

    /// Goes past a frame of this tag that was answered.
    fn pass(&mut self, tag: u8)
        ensures { (raw : RawMessage) → raw.tag ≡ tag →
            standing_of H.state self.new ≡ behind_frame (standing_of H.state self.old) raw (serving_of (standing_of H.state self.old)) }
    {
        self.answered = self.answered.saturating_add(1);
        self.stage = if tag == b'X' {
            Stage::Over
        } else {
            Stage::Serves
        };
    }

    /// Answers the frame of the first `n` bytes. How many bytes stand behind it.
    fn serve(&mut self, bytes: &[u8], n: usize) -> Result<Option<(Answer, usize)>, ServerFault>
        requires { IsWhole bytes.now n }
        ensures { Steps (reading H.step (standing_of H.state self.old) (message_of_bytes n bytes.now) (drop n bytes.now) (frame_or_fault (message_of_bytes n bytes.now))) (standing_of H.state self.old) (standing_of H.state self.new) bytes.now result }
    {
        match self.ask(bytes, n) {
            Ok(answer) => {
                self.pass(bytes[0]);
                Ok(Some((answer, bytes.len() - n)))
            }
            Err(fault) => Err(fault),
        }
    }

    /// Answers what stands in front before the startup frame came. How many bytes stand behind it.
    fn open(&mut self, bytes: &[u8]) -> Result<Option<(Answer, usize)>, ServerFault>
        ensures { Steps (opened (standing_of H.state self.old) (opening_in_front bytes.now)) (standing_of H.state self.old) (standing_of H.state self.new) bytes.now result }
    {
        match in_front(bytes) {
            Opening::Short => Ok(None),
            Opening::Ssl(rest) => match copied(self.alloc, b"N") {
                Ok(answer) => Ok(Some((answer, rest.len()))),
                Err(_) => Err(ServerFault::OutOfMemory),
            },
            Opening::Starts(rest) => match copied(self.alloc, self.startup.as_slice()) {
                Ok(answer) => {
                    self.stage = Stage::Serves;
                    Ok(Some((answer, rest.len())))
                }
                Err(_) => Err(ServerFault::OutOfMemory),
            },
            Opening::Breaks(fault) => Err(fault),
        }
    }

    /// Answers what stands in front. The answer, and how many bytes stand behind what was answered; None: more bytes have
    /// to come. After a fault it stands as before; but behind BadEffect it is over.
    pub fn step(&mut self, bytes: &[u8]) -> Result<Option<(Answer, usize)>, ServerFault>
        ensures { Steps (front H.step (standing_of H.state self.old) bytes.now) (standing_of H.state self.old) (standing_of H.state self.new) bytes.now result }
    {
        match self.stage {
            Stage::Opening => self.open(bytes),
            Stage::Serves => match front_message(bytes) {
                Found::Whole(n) => self.serve(bytes, n),
                Found::Short => Ok(None),
                Found::Bad => Err(ServerFault::BadFrame(WireFault::BadLength)),
            },
            Stage::Over if bytes.is_empty() => Ok(None),
            Stage::Over => Err(ServerFault::Ended),
        }
    }

    /// Answers what stands in front, and gives what is behind it. None: more bytes have to come. After a fault `out` is as
    /// before.
    pub fn go_on<'a>(
        &mut self,
        bytes: &'a [u8],
        out: &mut BytesMut,
    ) -> Result<Option<&'a [u8]>, ServerFault>
        ensures { Does (front H.step (standing_of H.state self.old) bytes.now) (standing_of H.state self.old) (standing_of H.state self.new) out.old.items out.new.items result }
    {
        let (answer, left) = match self.step(bytes) {
            Ok(Some(said)) => said,
            Ok(None) => return Ok(None),
            Err(fault) => return Err(fault),
        };
        match put(&answer, out) {
            Ok(()) => Ok(Some(&bytes[bytes.len() - left..])),
            Err(_) => Err(ServerFault::OutOfMemory),
        }
    }

    /// Answers all that stands there. How many bytes are left behind it.
    pub fn hear(&mut self, bytes: &[u8], out: &mut BytesMut) -> Result<usize, ServerFault>
        ensures { Hears H.step (standing_of H.state self.old) (standing_of H.state self.new) bytes.now out.old.items out.new.items result }
    {
        let mut rest = bytes;
        loop {
            let step = match self.go_on(rest, out) {
                Ok(step) => step,
                Err(fault) => return Err(fault),
            };
            match step {
                Some(behind) => rest = behind,
                None => return Ok(rest.len()),
            }
        }
    }
}
