//! The request for TLS, and the byte that answers it.

ghost use Rattle.std.specs.Prelude.{◌≡◌, ◌<◌, ◌≤◌, ◌^◌, IfErr, IfOk};
ghost use Rattle.futures.specs.Poll.{IfReady, OnPending};
ghost use Rattle.pg_spec.specs.Links.{LinkView};
ghost use Rattle.pg_connect.specs.Calm.{MissesOne, StaysCalm};
ghost use Rattle.pg_startup.specs.StartupPolls.{FailsNow};
ghost use Rattle.pg_startup.specs.SslRequests.{AskAnswers, Asking, AsksLess, AsksOn, inside_of};

use crate::Transfer;
use futures::task::Poll;
use pg_errors::{Cause, Error};
use pg_types::OutOfMemory;
use pg_wire::Link;
use std::alloc::Global;

/// Asks the server for TLS: the SSLRequest goes out, and one byte comes back (PostgreSQL documentation, "SSL Session
/// Encryption"). The link isn't in it.
#[derive(Drop)]
pub struct SslRequest {
    /// What crosses the link.
    pub bytes: Transfer,
}

impl SslRequest {
    /// A request before its first poll. `max_bytes`: the most bytes that the link may give. Nothing but want of memory is
    /// refused.
    pub fn new(alloc: Global, max_bytes: u64) -> Result<SslRequest, OutOfMemory>
        ensures fresh { (begin : LinkView) → IfOk result (Asking begin begin) }
        ensures limit { IfOk result (λ s. s.bytes.max_bytes ≡ max_bytes) }
    {
        let mut bytes = Transfer::new(alloc, 0, max_bytes);
        if pg_wire::ssl_request(&mut bytes.unsent).is_err() {
            return Err(OutOfMemory);
        }
        Ok(SslRequest { bytes })
    }

    /// Sends the request, and reads the byte that answers it. Nothing is given before the request was taken whole and passed
    /// on. Pending comes only where a call of the link wasn't ready, and leaves the link untouched where nothing moved. Io comes
    /// where a call of the link failed in this poll, and where it ended in it in place of the byte; LimitReached where the limit
    /// allows no byte. An error ends it: nothing is said of polls behind one.
    #[tactic(auto, using(pg_connect::proofs::Calm::no_lulls))]
    pub fn poll<L: Link>(&mut self, link: &mut L) -> Poll<Result<u8, Error>>
        requires limit { self.old.bytes.max_bytes < 2 ^ 63 }
        requires given { self.old.bytes.given ≤ self.old.bytes.max_bytes }
        ensures answer { (begin : LinkView) → Asking begin (L.view link.old) self.old → AskAnswers begin (L.view link.new) self.new result }
        ensures fails_now { IfReady result (λ r. IfErr r (FailsNow (L.view link.old) (L.view link.new))) }
        ensures pending { OnPending result (AsksOn self.new (L.view link.old) (L.view link.new)) }
        ensures less { OnPending result (AsksLess self.old self.new) }
        ensures within { OnPending result (self.new.bytes.given ≤ self.new.bytes.max_bytes) }
        ensures same { self.new.bytes.max_bytes ≡ self.old.bytes.max_bytes }
        ensures no_lull { StaysCalm (L.view link.old) (L.view link.new) }
        ensures quiet { MissesOne (L.view link.old) (L.view link.new) }
    {
        self.bytes.moved = false;
        match self.bytes.send(link) {
            Ok(true) => {}
            Ok(false) => return Poll::Pending,
            Err(error) => return Poll::Ready(Err(error)),
        }
        match self.bytes.read_byte(link) {
            Ok(true) => Poll::Ready(Ok(self.bytes.buffer.as_slice()[0])),
            Ok(false) => Poll::Pending,
            Err(error) => Poll::Ready(Err(inside(error))),
        }
    }

    /// Whether the link gave or took a byte, or gave its end, in the last poll.
    pub fn moved(&self) -> bool
        ensures { result ≡ self.now.bytes.moved }
    {
        self.bytes.moved
    }
}

/// Why no byte came: the end in its place is one inside what the server says.
fn inside(error: Error) -> Error
    ensures { result ≡ inside_of error }
{
    match error {
        Error::Closed { .. } => Error::Io(Cause::Ended),
        other => other,
    }
}
