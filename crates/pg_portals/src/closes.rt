//! A portal that is closed, as a script.

ghost use Rattle.std.specs.Prelude.{◌≡◌, IfOk};
ghost use Rattle.pg_portals.specs.Portals.{closed_with};

use crate::portal::Portal;
use crate::requests::close_request;
use bytes::Bytes;
use pg_errors::Error;
use pg_execute::close_bytes;
use pg_query::{Action, Cleanup, Reply, Script, Want};
use pg_wire::{Message, WireFault};
use std::alloc::{AllocError, Global};
use std::collections::VecDeque;
use std::mem;

/// What closes the statement of the text that a portal was bound from.
fn closes_with(alloc: Global, portal: &Portal) -> Result<Option<Bytes>, AllocError>
    ensures { IfOk result (λ part. part ≡ closed_with portal.now) }
{
    if portal.closes {
        close_bytes(alloc, portal.statement.name())
    } else {
        Ok(None)
    }
}

/// Closes a portal, and the statement of the text that it was bound from. Nobody reads the replies.
#[derive(Drop)]
pub enum ClosesPortal {
    /// Nothing was done yet.
    Fresh(Portal),
    /// Close of the portal was sent, or can't be written. This is sent behind it, if there is one.
    Posts(Option<Bytes>),
}

impl Script for ClosesPortal {
    ghost use Rattle.pg_query.specs.Scripts.{Nothing};
    ghost use Rattle.pg_portals.specs.Closing.{closes_at, closes_refuses, closes_steps};

    type Output = ();

    ghost dialogue = { closes_at };

    ghost refuses = { closes_refuses };

    ghost waits = { λ _. Nothing };

    ghost steps = { closes_steps };

    fn next(&mut self, alloc: Global) -> Result<Want<()>, AllocError> {
        match mem::replace(self, ClosesPortal::Posts(None)) {
            ClosesPortal::Fresh(portal) => {
                let request = close_request(alloc, &portal)?;
                let part = closes_with(alloc, &portal)?;
                drop(mem::replace(self, ClosesPortal::Posts(part)));
                match request {
                    Ok(request) => Ok(Want::Act(Action::Send(request))),
                    Err(error) => Ok(Want::Answer(Err(error))),
                }
            }
            ClosesPortal::Posts(Some(part)) => Ok(Want::Act(Action::Send(part))),
            ClosesPortal::Posts(None) => Ok(Want::Answer(Ok(()))),
        }
    }

    fn message(
        &mut self,
        alloc: Global,
        message: &Result<Message, WireFault>,
    ) -> Result<Want<()>, AllocError> {
        // It reads nothing.
        Err(AllocError)
    }

    fn reply(&mut self, alloc: Global, reply: Reply) -> Result<Want<()>, AllocError> {
        // It asks nothing.
        Err(AllocError)
    }

    fn refused(&mut self, alloc: Global, error: Error) -> Result<Want<()>, AllocError> {
        Ok(Want::Answer(Err(error)))
    }

    fn cleanup(&self, alloc: Global) -> Result<VecDeque<Cleanup>, AllocError> {
        // It reads nothing.
        Err(AllocError)
    }
}
