//! A server that a handler answers for, fed with the bytes of a client.

ghost use Rattle.std.specs.Prelude.{◌≡◌, true};
ghost use Rattle.pg_server.specs.Settled.{is_settled};

use crate::answer::Answer;
use crate::fault::ServerFault;
use crate::handler::Handler;
use crate::reach::reach;
use crate::session::{Session, Stage};
use crate::startup::is_startup;
use bytes::BytesMut;
use pg_types::Blob;
use std::alloc::Global;

/// A server that a handler answers for. It refuses each SSLRequest by `N`, says its startup to the startup frame, and
/// answers the frames behind that by the rules of the protocol. Terminate is the last frame.
#[derive(Debug, Drop)]
pub struct Server<H> {
    session: Session<H>,
    /// What was fed and isn't a whole frame yet.
    left: BytesMut,
    ghost settled: { is_settled session.stage left.items ≡ true },
}

impl<H: Handler + Drop> Server<H> {
    ghost use Rattle.pg_server.specs.Servers.{heard_of, Makes};

    /// A server that hasn't been fed. `startup` is what it says to the startup frame. BadStartup comes exactly where that
    /// isn't AuthenticationOk, then BackendKeyData, ParameterStatus and NoticeResponse in any number, then ReadyForQuery.
    /// It takes no memory.
    pub fn new(alloc: Global, handler: H, startup: Blob) -> Result<Server<H>, ServerFault>
        ensures { Makes H.state handler startup result }
    {
        if !is_startup(startup.as_slice()) {
            return Err(ServerFault::BadStartup);
        }
        Ok(Server {
            session: Session::new(alloc, handler, startup),
            left: BytesMut::new(alloc),
        })
    }
}

impl<H: Handler> Server<H> {
    ghost use Rattle.std.specs.Prelude.{◌++◌, ◌≤◌, length};
    ghost use Rattle.pg_server.specs.Reaches.{reach_of};
    ghost use Rattle.pg_server.specs.Standings.{front};
    ghost use Rattle.pg_server.specs.Servers.{heard_of, Feeds, TakesFront};
    /// Takes these bytes of the client, and appends what is said to all frames that are whole by them. The session is over
    /// behind a fault: what was said to the frames before stays in `out`, and each later call is Ended. So is one behind
    /// Terminate. Want of memory comes as a fault too; what stands in `out` then is a front of what is said.
    pub fn feed(&mut self, bytes: &[u8], out: &mut BytesMut) -> Result<(), ServerFault>
        ensures { Feeds H.step (heard_of H.state self.old) (heard_of H.state self.new) bytes.now out.old.items out.new.items result }
    {
        if self.session.is_over() {
            return Err(ServerFault::Ended);
        }
        if self.left.extend_from_slice(bytes).is_err() {
            self.session.end();
            return Err(ServerFault::OutOfMemory);
        }
        match self.session.hear(self.left.as_slice(), out) {
            Ok(left) => {
                let cut = self.left.len() - left;
                self.left.advance(cut);
                Ok(())
            }
            Err(fault) => {
                self.session.end();
                Err(fault)
            }
        }
    }

    /// How many of these bytes stand up to the end of the frame in front; all where none is whole by them, and before the
    /// startup frame.
    pub(crate) fn reach(&self, bytes: &[u8]) -> usize
        ensures reach { result ≡ reach_of (heard_of H.state self.now).standing.stage (heard_of H.state self.now).left bytes.now }
        ensures fits { result ≤ length bytes.now }
    {
        match self.session.stage() {
            Stage::Serves => reach(self.left.as_slice(), bytes),
            Stage::Opening | Stage::Over => bytes.len(),
        }
    }

    /// Takes these bytes up to the end of the first frame that is whole by them. What is said to it, and how many of the bytes
    /// weren't taken; None where no frame is whole by them. It is over after a fault; where memory lacks all is as before.
    pub(crate) fn take_up(&mut self, bytes: &[u8]) -> Result<Option<(Answer, usize)>, ServerFault>
        ensures { TakesFront (front H.step (heard_of H.state self.old).standing ((heard_of H.state self.old).left ++ bytes.now)) (heard_of H.state self.old) (heard_of H.state self.new) bytes.now result }
    {
        let len = self.left.len();
        if self.left.extend_from_slice(bytes).is_err() {
            return Err(ServerFault::OutOfMemory);
        }
        match self.session.step(self.left.as_slice()) {
            Ok(Some(said)) => {
                self.left.clear();
                Ok(Some(said))
            }
            Ok(None) => Ok(None),
            Err(fault) => match fault {
                ServerFault::OutOfMemory => {
                    self.left.truncate(len);
                    Err(fault)
                }
                _ => {
                    self.session.end();
                    Err(fault)
                }
            },
        }
    }
}
