//! Types that must all be known: built-in, or kept by the desk.

ghost use Rattle.std.specs.Prelude.{◌≡◌, ◌≤◌, ◌^◌, ◌++◌, ◌∷◌, [], IfOk};
ghost use Rattle.pg_query.specs.Scripts.{GoesOn, Falls};
ghost use Rattle.pg_core.specs.Prepares.{known_types};
ghost use Rattle.pg_core.specs.KnownAt.{known_at, known_refuses, known_steps, known_waits};

use crate::finder::Finder;
use pg_errors::Error;
use pg_query::{Action, Cleanup, DeskCall, Reply, Script, Want};
use pg_types::{List, Oid, Type};
use pg_wire::{Message, WireFault};
use std::alloc::{AllocError, Global};
use std::collections::VecDeque;
use std::mem;

/// Finds types that must all be known. The desk is asked for those that aren't built-in, one after another; one
/// that it doesn't keep is refused with UnexpectedMessage.
#[derive(Drop)]
pub struct KnownTypes {
    /// The oids behind the one that was asked for.
    left: VecDeque<Oid>,
    found: List<Type>,
    /// It has asked.
    hears: bool,
}

impl KnownTypes {
    /// The types of these oids. It takes no memory.
    pub fn new(alloc: Global, oids: VecDeque<Oid>) -> KnownTypes
        ensures dialogue { known_at result ≡ known_types oids.items [] }
        ensures steps { known_steps result ≤ 2 ^ 64 }
    {
        let _count = oids.len();
        KnownTypes {
            left: oids,
            found: List::empty(alloc),
            hears: false,
        }
    }

    /// Finds built-in types up to the first that isn't.
    fn go_on(&mut self, alloc: Global) -> Result<Want<List<Type>>, AllocError>
        ensures goes_on { IfOk result (λ want. GoesOn known_at known_refuses known_waits (known_types self.old.left.items self.old.found) want self.new) }
        ensures falls { IfOk result (λ want. Falls want (known_steps self.old) (known_steps self.new)) }
    {
        while let Some(oid) = self.left.pop_front() {
            let Ok(known) = Type::from_oid(alloc, oid) else {
                return Err(AllocError);
            };
            let Some(ty) = known else {
                self.hears = true;
                return Ok(Want::Act(Action::Call(DeskCall::TypeOf(oid))));
            };
            self.found.push(ty)?;
        }
        let found = mem::replace(&mut self.found, List::empty(alloc));
        Ok(Want::Answer(Ok(found)))
    }

    /// Goes on with the type that was asked for.
    fn found(&mut self, alloc: Global, ty: Type) -> Result<Want<List<Type>>, AllocError>
        ensures goes_on { IfOk result (λ want. GoesOn known_at known_refuses known_waits (known_types self.old.left.items (self.old.found ++ ty ∷ [])) want self.new) }
        ensures falls { IfOk result (λ want. Falls want (known_steps self.old) (known_steps self.new)) }
    {
        self.found.push(ty)?;
        self.hears = false;
        self.go_on(alloc)
    }
}

impl Script for KnownTypes {
    ghost use Rattle.pg_core.specs.KnownAt.{known_at, known_refuses, known_steps, known_waits};

    type Output = List<Type>;

    ghost dialogue = { known_at };

    ghost refuses = { known_refuses };

    ghost waits = { known_waits };

    ghost steps = { known_steps };

    fn next(&mut self, alloc: Global) -> Result<Want<List<Type>>, AllocError> {
        if self.hears {
            // It waits for its reply, and isn't asked again.
            return Err(AllocError);
        }
        self.go_on(alloc)
    }

    fn message(
        &mut self,
        alloc: Global,
        message: &Result<Message, WireFault>,
    ) -> Result<Want<List<Type>>, AllocError> {
        // It reads nothing.
        Err(AllocError)
    }

    fn reply(&mut self, alloc: Global, reply: Reply) -> Result<Want<List<Type>>, AllocError> {
        if !self.hears {
            return Err(AllocError);
        }
        match reply {
            Reply::Type(Some(ty)) => self.found(alloc, ty),
            Reply::Type(None) => Ok(Want::Answer(Err(Error::UnexpectedMessage))),
            // A desk that is asked for a type tells nothing else.
            _ => Ok(Want::Answer(Err(Error::Closed))),
        }
    }

    fn refused(&mut self, alloc: Global, error: Error) -> Result<Want<List<Type>>, AllocError> {
        Ok(Want::Answer(Err(error)))
    }

    fn cleanup(&self, alloc: Global) -> Result<VecDeque<Cleanup>, AllocError> {
        // It reads nothing.
        Err(AllocError)
    }
}

/// Finds types that must all be known.
#[derive(Drop)]
pub struct Known {}

impl Finder for Known {
    ghost use Rattle.std.specs.Prelude.{[], ◌^◌};
    ghost use Rattle.pg_core.specs.Prepares.{known_types};
    ghost use Rattle.pg_core.specs.KnownAt.{known_at, known_steps};

    type Search = KnownTypes;

    ghost finds = { λ _ oids. known_types oids [] };

    ghost most = { λ _. 2 ^ 64 };

    fn find(self, alloc: Global, oids: VecDeque<Oid>) -> Result<KnownTypes, AllocError> {
        Ok(KnownTypes::new(alloc, oids))
    }
}
