//! Statements that the desk keeps to look something up.

ghost use Rattle.std.specs.Prelude.{◌≡◌, ◌≤◌};
ghost use Rattle.pg_core.specs.Lookups.{keeps_statement};
ghost use Rattle.pg_search.specs.Keeping.{kept, kept_at, kept_steps, keeps_at, keeps_steps};

use pg_desk::{Lookup, Statement};
use pg_errors::Error;
use pg_query::{Action, Cleanup, DeskCall, Reply, Script, Want};
use pg_wire::{Message, WireFault};
use std::alloc::{AllocError, Global};
use std::collections::VecDeque;

/// Asks the desk for the statement that it keeps to look something up.
#[derive(Drop)]
pub struct Kept {
    which: Lookup,
    /// It has asked.
    hears: bool,
}

impl Kept {
    /// To look this up. It takes no memory.
    pub fn new(which: Lookup) -> Kept
        ensures dialogue { kept_at result ≡ kept which }
        ensures steps { kept_steps result ≤ 1 }
    {
        Kept {
            which,
            hears: false,
        }
    }
}

impl Script for Kept {
    ghost use Rattle.pg_query.specs.Scripts.{waiting_at};
    ghost use Rattle.pg_search.specs.Keeping.{kept_at, kept_refuses, kept_steps};

    type Output = Option<Statement>;

    ghost dialogue = { kept_at };

    ghost refuses = { kept_refuses };

    ghost waits = { λ s. waiting_at (kept_at s) };

    ghost steps = { kept_steps };

    fn next(&mut self, alloc: Global) -> Result<Want<Option<Statement>>, AllocError> {
        if self.hears {
            // It waits for its reply, and isn't asked again.
            return Err(AllocError);
        }
        self.hears = true;
        Ok(Want::Act(Action::Call(DeskCall::LookupOf(self.which))))
    }

    fn message(
        &mut self,
        alloc: Global,
        message: &Result<Message, WireFault>,
    ) -> Result<Want<Option<Statement>>, AllocError> {
        // It reads nothing.
        Err(AllocError)
    }

    fn reply(
        &mut self,
        alloc: Global,
        reply: Reply,
    ) -> Result<Want<Option<Statement>>, AllocError> {
        if !self.hears {
            return Err(AllocError);
        }
        match reply {
            Reply::Statement(found) => Ok(Want::Answer(Ok(found))),
            // A desk that is asked for a statement tells nothing else.
            _ => Ok(Want::Answer(Err(Error::Closed))),
        }
    }

    fn refused(
        &mut self,
        alloc: Global,
        error: Error,
    ) -> Result<Want<Option<Statement>>, AllocError> {
        Ok(Want::Answer(Err(error)))
    }

    fn cleanup(&self, alloc: Global) -> Result<VecDeque<Cleanup>, AllocError> {
        // It reads nothing.
        Err(AllocError)
    }
}

/// Has the desk keep a statement that looks something up, and answers it.
#[derive(Drop)]
pub struct Keeps {
    which: Lookup,
    /// None once the desk was asked.
    statement: Option<Statement>,
}

impl Keeps {
    /// This statement, to look this up. It takes no memory.
    pub fn new(which: Lookup, statement: Statement) -> Keeps
        ensures dialogue { keeps_at result ≡ keeps_statement which statement }
        ensures steps { keeps_steps result ≤ 1 }
    {
        Keeps {
            which,
            statement: Some(statement),
        }
    }
}

impl Script for Keeps {
    ghost use Rattle.pg_query.specs.Scripts.{waiting_at};
    ghost use Rattle.pg_search.specs.Keeping.{keeps_at, keeps_refuses, keeps_steps};

    type Output = Statement;

    ghost dialogue = { keeps_at };

    ghost refuses = { keeps_refuses };

    ghost waits = { λ s. waiting_at (keeps_at s) };

    ghost steps = { keeps_steps };

    fn next(&mut self, alloc: Global) -> Result<Want<Statement>, AllocError> {
        match self.statement.take() {
            Some(statement) => Ok(Want::Act(Action::Call(DeskCall::SetLookup(
                self.which, statement,
            )))),
            // It waits for its reply, and isn't asked again.
            None => Err(AllocError),
        }
    }

    fn message(
        &mut self,
        alloc: Global,
        message: &Result<Message, WireFault>,
    ) -> Result<Want<Statement>, AllocError> {
        // It reads nothing.
        Err(AllocError)
    }

    fn reply(&mut self, alloc: Global, reply: Reply) -> Result<Want<Statement>, AllocError> {
        if self.statement.is_some() {
            return Err(AllocError);
        }
        match reply {
            Reply::Statement(Some(statement)) => Ok(Want::Answer(Ok(statement))),
            // A desk hands back what it was to keep.
            _ => Ok(Want::Answer(Err(Error::Closed))),
        }
    }

    fn refused(&mut self, alloc: Global, error: Error) -> Result<Want<Statement>, AllocError> {
        Ok(Want::Answer(Err(error)))
    }

    fn cleanup(&self, alloc: Global) -> Result<VecDeque<Cleanup>, AllocError> {
        // It reads nothing.
        Err(AllocError)
    }
}
