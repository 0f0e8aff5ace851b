//! A handler that answers every frame by the same effect, also by one that a server may not give.

ghost use Rattle.pg_server.specs.declared.handler.Effect.{Effect};
ghost use Rattle.pg_cases_wire.specs.Told.{told_step};

use pg_cases::words::{at, text_at};
use pg_server::{Effect, Frame, Handler};
use pg_types::{Blob, OutOfMemory};
use std::alloc::{AllocError, Global};

/// Answers each frame by this effect.
#[derive(Debug, Drop)]
pub(crate) struct Told {
    alloc: Global,
    effect: Effect,
}

impl Told {
    /// The handler that two words tell: `opens` or another word, and the bytes of the reply.
    pub fn of(alloc: Global, words: &[Vec<u8>]) -> Result<Told, AllocError> {
        let Ok(reply) = Blob::from_slice(alloc, at(words, 1)) else {
            return Err(AllocError);
        };
        let opens = text_at(words, 0) == "opens";
        Ok(Told {
            alloc,
            effect: Effect { reply, opens },
        })
    }
}

impl Handler for Told {
    ghost State = { Effect };

    ghost state = { λ told. told.effect };

    ghost step = { told_step };

    fn answer(&mut self, _frame: &Frame) -> Result<Effect, OutOfMemory> {
        match Blob::from_slice(self.alloc, self.effect.reply.as_slice()) {
            Ok(reply) => Ok(Effect {
                reply,
                opens: self.effect.opens,
            }),
            Err(_) => Err(OutOfMemory),
        }
    }
}
