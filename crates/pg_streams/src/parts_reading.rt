//! The reply to a simple query, whose parts are collected (PostgreSQL documentation, "Simple Query").

ghost use Rattle.std.specs.Prelude.{◌≡◌, [], None, IfOk};
ghost use Rattle.pg_streams.specs.PartsReadings.{Collects, reading_of_parts};

use crate::giving::Told;
use crate::simple_giving::SimpleGiving;
use crate::simple_query_message::SimpleQueryMessage;
use pg_errors::Error;
use pg_query::{Reading, malformed};
use pg_types::List;
use pg_wire::{Message, WireFault};
use std::alloc::{AllocError, Global};
use std::mem;

/// The parts that came, and how the reply goes on.
pub struct PartsReading {
    pub(crate) giving: SimpleGiving,
    pub(crate) parts: List<SimpleQueryMessage>,
}

impl Drop for PartsReading {
    fn drop(self) {
        let PartsReading { giving, parts } = self;
        drop(giving);
        drop(parts);
    }
}

impl PartsReading {
    /// Nothing was read. It takes no memory.
    pub(crate) fn new(alloc: Global) -> PartsReading
        ensures columns { result.giving.columns ≡ None }
        ensures parts { result.parts ≡ [] }
    {
        PartsReading {
            giving: SimpleGiving { columns: None },
            parts: List::empty(alloc),
        }
    }

    /// Collects what a message told.
    fn collect(
        &mut self,
        alloc: Global,
        told: Told<SimpleQueryMessage>,
    ) -> Result<Option<Result<List<SimpleQueryMessage>, Error>>, AllocError>
        ensures giving { self.new.giving ≡ self.old.giving }
        ensures collects { IfOk result (λ answer. Collects self.old.parts told answer self.new.parts) }
    {
        match told {
            Told::Item(part) => match self.parts.push(part) {
                Ok(()) => Ok(None),
                Err(_) => Err(AllocError),
            },
            Told::Ends => {
                let parts = mem::replace(&mut self.parts, List::empty(alloc));
                Ok(Some(Ok(parts)))
            }
            Told::Fails(error) => Ok(Some(Err(error))),
        }
    }
}

impl Reading for PartsReading {
    ghost use Rattle.pg_streams.specs.PartsReadings.{reading_of_parts};

    type Output = List<SimpleQueryMessage>;

    ghost reading = { reading_of_parts };

    fn message(
        &mut self,
        alloc: Global,
        message: &Result<Message, WireFault>,
    ) -> Result<Option<Result<List<SimpleQueryMessage>, Error>>, AllocError> {
        let message = match message {
            Ok(message) => message,
            Err(fault) => {
                return match malformed(*fault) {
                    Some(error) => Ok(Some(Err(error))),
                    None => Err(AllocError),
                };
            }
        };
        let told = self.giving.see_lent(alloc, message)?;
        self.collect(alloc, told)
    }
}
