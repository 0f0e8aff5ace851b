//! How a line is closed: requests first, and then the connection is polled to its end.

ghost use Rattle.pg_drive.specs.Lines.{seen};
ghost use Rattle.pg_drive.specs.Closings.{Advanced, Closes, RequestsClose};

use crate::line::Line;
use pg_desk::Engine;
use pg_errors::Error;
use pg_query::error_of;
use pg_wire::Link;
use std::alloc::Global;
use std::sync::Wait;

impl<L: Link, E: Engine> Line<L, E> {
    /// Closes requests, and then polls the connection to its end: what was booked goes out, its replies come, Terminate is sent and
    /// flushed, and the link is shut down (PostgreSQL documentation, "Termination"). A reply that nobody reads has to be hung up
    /// before, for else it fills its mailbox, and the line is stalled. OutOfMemory comes where requests can't be closed, and nothing
    /// was polled then; else the errors are those of `step`.
    pub fn close<R: Wait>(&mut self, rt: &R, alloc: Global) -> Result<(), Error>
        ensures { Closes E.becomes (seen L.view self.old) (seen L.view self.new) result }
    {
        match self.close_requests() {
            Ok(()) => self.run_out(rt, alloc),
            Err(error) => Err(error),
        }
    }

    /// No request will be booked any more.
    pub fn close_requests(&mut self) -> Result<(), Error>
        ensures { RequestsClose E.becomes (seen L.view self.old) (seen L.view self.new) result }
    {
        match self.hub.close_requests() {
            Ok(()) => Ok(()),
            Err(fault) => Err(error_of(fault)),
        }
    }

    /// Steps to the connection's end.
    fn run_out<R: Wait>(&mut self, rt: &R, alloc: Global) -> Result<(), Error>
        ensures { Advanced E.becomes (seen L.view self.old) (seen L.view self.new) result }
    {
        'steps: for _ in rt.forever() {
            match self.advance(alloc) {
                Ok(true) => return Ok(()),
                Ok(false) => {}
                Err(error) => return Err(error),
            }
        }
        unreachable!()
    }
}
