//! The types of columns, where all of them are known, while the request of their rows is read.

ghost use Rattle.std.specs.Prelude.{◌≡◌, ◌≤◌, ◌+◌, ◌^◌, ◌++◌, ◌∷◌, [], length, IfOk};
ghost use Rattle.pg_query.specs.Scripts.{GoesOn, Falls};
ghost use Rattle.pg_execute.specs.Knowing.{knows, knows_at, knows_refuses, knows_steps, knows_waits};

use pg_errors::Error;
use pg_query::{Action, Cleanup, DeskCall, Reply, Script, Want};
use pg_types::{List, Oid, Type};
use pg_wire::{Message, WireFault};
use std::alloc::{AllocError, Global};
use std::collections::VecDeque;
use std::mem;

/// Where it stands.
#[derive(Drop)]
pub(crate) enum Asking {
    /// It goes on with the oids that are left.
    Goes,
    /// The desk was asked for a type.
    Asked,
    /// The request is hung up, and this is the answer.
    Fails(Error),
}

/// Asks the desk for the types that aren't built-in, one after another, up to the first that it doesn't keep: then None
/// is the answer. Where the desk refuses a question, the request is hung up.
#[derive(Drop)]
pub struct KnowsAll {
    /// The oids behind the one that was asked for.
    pub(crate) left: VecDeque<Oid>,
    pub(crate) found: List<Type>,
    pub(crate) asking: Asking,
}

impl KnowsAll {
    /// The types of these oids. It takes no memory.
    pub fn new(alloc: Global, oids: VecDeque<Oid>) -> KnowsAll
        ensures dialogue { knows_at result ≡ knows oids.items [] }
        ensures steps { knows_steps result ≤ 2 ^ 64 }
    {
        let _count = oids.len();
        KnowsAll {
            left: oids,
            found: List::empty(alloc),
            asking: Asking::Goes,
        }
    }

    /// Finds built-in types up to the first that isn't.
    fn go_on(&mut self, alloc: Global) -> Result<Want<Option<List<Type>>>, AllocError>
        ensures goes_on { IfOk result (λ want. GoesOn knows_at knows_refuses knows_waits (knows self.old.left.items self.old.found) want self.new) }
        ensures falls { IfOk result (λ want. Falls want (length self.old.left.items + 1) (knows_steps self.new)) }
    {
        while let Some(oid) = self.left.pop_front() {
            let Ok(known) = Type::from_oid(alloc, oid) else {
                return Err(AllocError);
            };
            let Some(ty) = known else {
                self.asking = Asking::Asked;
                return Ok(Want::Act(Action::Call(DeskCall::TypeOf(oid))));
            };
            self.found.push(ty)?;
        }
        let found = mem::replace(&mut self.found, List::empty(alloc));
        Ok(Want::Answer(Ok(Some(found))))
    }

    /// Goes on with the type that was asked for.
    fn found(&mut self, alloc: Global, ty: Type) -> Result<Want<Option<List<Type>>>, AllocError>
        ensures goes_on { IfOk result (λ want. GoesOn knows_at knows_refuses knows_waits (knows self.old.left.items (self.old.found ++ ty ∷ [])) want self.new) }
        ensures falls { IfOk result (λ want. Falls want (length self.old.left.items + 1) (knows_steps self.new)) }
    {
        self.found.push(ty)?;
        self.asking = Asking::Goes;
        self.go_on(alloc)
    }

    /// Hangs the request up, and then answers this.
    fn fail(&mut self, error: Error) -> Want<Option<List<Type>>>
        ensures goes_on { GoesOn knows_at knows_refuses knows_waits (knows_refuses self.old error) result self.new }
        ensures steps { knows_steps self.new ≡ 0 }
    {
        self.asking = Asking::Fails(error);
        Want::Act(Action::HangUp)
    }
}

impl Script for KnowsAll {
    ghost use Rattle.pg_execute.specs.Knowing.{knows_at, knows_refuses, knows_steps, knows_waits};

    type Output = Option<List<Type>>;

    ghost dialogue = { knows_at };

    ghost refuses = { knows_refuses };

    ghost waits = { knows_waits };

    ghost steps = { knows_steps };

    fn next(&mut self, alloc: Global) -> Result<Want<Option<List<Type>>>, AllocError> {
        match mem::replace(&mut self.asking, Asking::Goes) {
            Asking::Goes => self.go_on(alloc),
            // It waits for its reply, and isn't asked again.
            Asking::Asked => Err(AllocError),
            Asking::Fails(error) => Ok(Want::Answer(Err(error))),
        }
    }

    fn message(
        &mut self,
        alloc: Global,
        message: &Result<Message, WireFault>,
    ) -> Result<Want<Option<List<Type>>>, AllocError> {
        // It reads nothing.
        Err(AllocError)
    }

    fn reply(
        &mut self,
        alloc: Global,
        reply: Reply,
    ) -> Result<Want<Option<List<Type>>>, AllocError> {
        if !matches!(self.asking, Asking::Asked) {
            return Err(AllocError);
        }
        match reply {
            Reply::Type(Some(ty)) => self.found(alloc, ty),
            Reply::Type(None) => Ok(Want::Answer(Ok(None))),
            // A desk that is asked for a type tells nothing else.
            _ => Ok(self.fail(Error::Closed)),
        }
    }

    fn refused(
        &mut self,
        alloc: Global,
        error: Error,
    ) -> Result<Want<Option<List<Type>>>, AllocError> {
        if !matches!(self.asking, Asking::Asked) {
            // It asks nothing.
            return Err(AllocError);
        }
        Ok(self.fail(error))
    }

    fn cleanup(&self, alloc: Global) -> Result<VecDeque<Cleanup>, AllocError> {
        // It reads nothing.
        Err(AllocError)
    }
}
