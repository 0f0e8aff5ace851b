//! The reply to Bind, which is read up to BindComplete.

ghost use Rattle.std.specs.Prelude.{IfOk};
ghost use Rattle.pg_wire.specs.Messages.{message_view};
ghost use Rattle.pg_core.specs.Described.{Does};
ghost use Rattle.pg_portals.specs.Portals.{bound_by};
ghost use Rattle.pg_portals.specs.Reading.{reading_of_bound};

use crate::portal::Portal;
use pg_errors::Error;
use pg_query::{Reading, malformed, server_error};
use pg_wire::{Message, WireFault};
use std::alloc::{AllocError, Global};

/// A portal that is bound; BindComplete tells it.
#[derive(Drop)]
pub struct Bound {
    pub(crate) portal: Portal,
}

impl Bound {
    /// What a message does.
    fn see(
        &self,
        alloc: Global,
        message: &Message,
    ) -> Result<Option<Result<Portal, Error>>, AllocError>
        ensures { IfOk result (λ told. Does (bound_by self.now.portal (message_view message.now)) told self.now.portal) }
    {
        match message {
            Message::BindComplete => match self.portal.copy() {
                Ok(portal) => Ok(Some(Ok(portal))),
                Err(_) => Err(AllocError),
            },
            Message::ErrorResponse(body) => Ok(Some(Err(server_error(alloc, body)?))),
            _ => Ok(Some(Err(Error::UnexpectedMessage))),
        }
    }
}

impl Reading for Bound {
    type Output = Portal;

    ghost reading = { reading_of_bound };

    fn message(
        &mut self,
        alloc: Global,
        message: &Result<Message, WireFault>,
    ) -> Result<Option<Result<Portal, Error>>, AllocError> {
        match message {
            Ok(message) => self.see(alloc, message),
            Err(fault) => match malformed(*fault) {
                Some(error) => Ok(Some(Err(error))),
                None => Err(AllocError),
            },
        }
    }
}
