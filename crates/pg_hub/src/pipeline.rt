//! The hub's core: the requests that aren't over, in the order in which they go out and are answered (PostgreSQL
//! documentation, "Pipelining"). It keeps no book: of a request that is over it holds a byte.

ghost use Rattle.std.specs.Prelude.{◌≡◌, ◌<◌, ◌≤◌, ◌+◌, ◌-◌, ◌++◌, ◌∷◌, [], length, true, false, slice_set, IfSome, MatchBool};
ghost use Rattle.pg_hub.specs.Copies.{IsCopy, IsNoCopy};
ghost use Rattle.pg_hub.specs.Mail.{held_from};
ghost use Rattle.pg_hub.specs.Rests.{rest_at};

use crate::catalog::Catalog;
use crate::outbox::Outbox;
use crate::replies::Replies;
use bytes::Bytes;
use pg_desk::{Deliver, Desk, DeskFault, Engine, Lookup, Out, Put, Stamp, Statement, Take};
use pg_types::{Oid, Type};
use pg_wire::BackendMessages;
use std::alloc::Global;
use std::marker::Model;

/// The requests of all handles as far as they aren't over, and what came for them.
#[derive(Drop)]
pub struct Pipeline {
    /// What came for each request.
    replies: Replies,
    /// What of each request hasn't gone out.
    outbox: Outbox,
    /// The bytes that wait in it, and one more for each part.
    unsent: u64,
    /// The number of requests whose first part is out.
    started: u64,
    statements: u32,
    portals: u32,
    catalog: Catalog,
    closed: bool,
    failed: bool,
    touched: bool,
}

impl Model for Pipeline {
    ghost use Rattle.pg_hub.specs.InFlight.{in_flight};
    ghost use Rattle.pg_hub.specs.Standing.{InFlight, IsInFlight};
    ghost use Rattle.pg_types.specs.contracts.pg_type.PgType as pg_type;
    ghost use Rattle.std.specs.Coded.{codes};

    ghost Value = { InFlight };

    ghost coded = { Prim.hlevel (codes, pg_type.the_row.coded) };

    ghost view = { in_flight };

    ghost invariant = { λ p. IsInFlight (in_flight p) };
}

impl Pipeline {
    ghost use Rattle.pg_desk.specs.History.{start};
    ghost use Rattle.pg_hub.specs.Fits.{PipelineFits};

    /// A pipeline in which nothing has happened. Statements and portals are numbered from these numbers on.
    /// It takes no memory.
    pub fn new(alloc: Global, statements: u32, portals: u32) -> Pipeline
        ensures fits { PipelineFits (start statements portals) result }
        ensures touched { result.touched ≡ false }
    {
        Pipeline {
            replies: Replies::new(alloc),
            outbox: Outbox::new(alloc),
            unsent: 0,
            started: 0,
            statements,
            portals,
            catalog: Catalog::new(alloc),
            closed: false,
            failed: false,
            touched: false,
        }
    }

    /// How many mailboxes it holds: those of requests whose reader didn't hang up and whose reply isn't over, or
    /// wasn't taken. Of any other request a byte stays.
    pub fn held_mailboxes(&self) -> usize
        ensures { result ≡ held_from 0 self.now.finished self.now.mail }
    {
        self.replies.held()
    }

    /// Of how many requests it holds parts: all behind the first ones, which went out whole.
    pub fn held_requests(&self) -> usize
        ensures { result ≡ length self.now.mail - self.now.whole }
    {
        self.outbox.held()
    }

    /// The bytes of the parts that haven't gone out, and one more for each part.
    pub fn unsent(&self) -> u64
        ensures { result ≡ self.now.unsent }
    {
        self.unsent
    }

    /// Whether, since its last call, something was booked, put, taken as a batch, taken out as a part,
    /// delivered, discarded or hung up. A call of `hang_up` that changes nothing doesn't count. It changes
    /// nothing else.
    pub fn touched(&mut self) -> bool
        ensures answer { result ≡ self.old.touched }
        ensures same { self.new ≡ record self.old { touched = false } }
    {
        let touched = self.touched;
        self.touched = false;
        touched
    }

    /// Whether a request is a copy that takes parts: it isn't ended, and its reader didn't hang up.
    pub(crate) fn takes_parts(&self, id: u64) -> bool
        ensures { MatchBool result (IsCopy self.now id) (IsNoCopy self.now id) }
    {
        let place = id as usize;
        if self.failed {
            return false;
        }
        if place >= self.replies.len() {
            return false;
        }
        if !self.outbox.is_copying(place) {
            return false;
        }
        if self.replies.is_hung_up(place) {
            return false;
        }
        true
    }

    /// Two parts of a copy wait.
    pub(crate) fn is_full(&self, id: u64) -> bool
        requires { IsCopy self.now id }
        ensures { MatchBool result (2 ≤ length (rest_at self.now.outgoing id).parts) (length (rest_at self.now.outgoing id).parts < 2) }
    {
        self.outbox.is_full(id as usize)
    }

    /// What waits with one part more, where it can still be counted.
    pub(crate) fn unsent_with(&self, part: &Bytes) -> Option<u64>
        ensures { IfSome result (λ n. n ≡ self.now.unsent + (length part.now + 1)) }
    {
        with_part(self.unsent, part)
    }

    /// A part more of a copy, with which so much waits.
    pub(crate) fn put_counted(&mut self, id: u64, part: Bytes, unsent: u64)
        requires copy { IsCopy self.old id }
        requires room { length (rest_at self.old.outgoing id).parts < 2 }
        requires unsent { unsent ≡ self.old.unsent + (length part + 1) }
        ensures { self.new ≡ record self.old { outgoing = slice_set self.old.outgoing id (record { parts = (rest_at self.old.outgoing id).parts ++ part ∷ []; copying = true }); unsent = unsent; touched = true } }
    {
        self.outbox.put(id as usize, part);
        self.unsent = unsent;
        self.touched = true;
    }

    /// The last part of a copy, with which so much waits.
    pub(crate) fn close_counted(&mut self, id: u64, part: Bytes, unsent: u64)
        requires copy { IsCopy self.old id }
        requires unsent { unsent ≡ self.old.unsent + (length part + 1) }
        ensures { self.new ≡ record self.old { outgoing = slice_set self.old.outgoing id (record { parts = (rest_at self.old.outgoing id).parts ++ part ∷ []; copying = false }); unsent = unsent; touched = true } }
    {
        self.outbox.close(id as usize, part);
        self.unsent = unsent;
        self.touched = true;
    }
}

/// What waits with one part more, where it can still be counted.
fn with_part(unsent: u64, part: &Bytes) -> Option<u64>
    ensures { IfSome result (λ n. n ≡ unsent + (length part.now + 1)) }
{
    let more = (part.len() as u64).checked_add(1)?;
    unsent.checked_add(more)
}

/// What waits with one part less.
fn without_part(unsent: u64, part: &Bytes) -> u64
    requires { length part.now + 1 ≤ unsent }
    ensures { result + (length part.now + 1) ≡ unsent }
{
    unsent - part.len() as u64 - 1
}

impl Desk for Pipeline {
    ghost use Rattle.pg_hub.specs.Fits.{PipelineBecomes, PipelineIsClosedBy};
    ghost use Rattle.pg_hub.specs.Waiting.{undelivered_in_flight, parts_in_flight};
    ghost use Rattle.pg_hub.specs.Becomes.{pipeline-stays, pipeline-joins};

    ghost becomes = { PipelineBecomes };

    ghost undelivered = { undelivered_in_flight };

    ghost waiting_parts = { parts_in_flight };

    ghost sure = { true };

    ghost tells_closed = { PipelineIsClosedBy };

    fn book(
        &mut self,
        _alloc: Global,
        _stamp: Stamp,
        part: Bytes,
        copying: bool,
    ) -> Result<u64, DeskFault> {
        if self.closed || self.failed {
            return Err(DeskFault::Closed);
        }
        let id = self.replies.len() as u64;
        let Some(unsent) = with_part(self.unsent, &part) else {
            return Err(DeskFault::OutOfMemory);
        };
        if !self.outbox.push(&mut self.replies, part, copying) {
            return Err(DeskFault::OutOfMemory);
        }
        self.unsent = unsent;
        self.touched = true;
        Ok(id)
    }

    fn put(&mut self, _alloc: Global, id: u64, part: Bytes) -> Put {
        if !self.takes_parts(id) {
            return Put::Gone(part);
        }
        if self.is_full(id) {
            return Put::Full(part);
        }
        let Some(unsent) = self.unsent_with(&part) else {
            return Put::OutOfMemory(part);
        };
        self.put_counted(id, part, unsent);
        Put::Took
    }

    fn end_copy(&mut self, _alloc: Global, id: u64, part: Bytes) -> Put {
        if !self.takes_parts(id) {
            return Put::Gone(part);
        }
        let Some(unsent) = self.unsent_with(&part) else {
            return Put::OutOfMemory(part);
        };
        self.close_counted(id, part, unsent);
        Put::Took
    }

    fn take(&mut self, id: u64) -> Result<Take, DeskFault> {
        let place = id as usize;
        if place >= self.replies.len() {
            return Ok(Take::Gone);
        }
        if self.replies.is_hung_up(place) {
            return Ok(Take::Gone);
        }
        if let Some(batch) = self.replies.take(place) {
            self.touched = true;
            return Ok(Take::Batch(batch));
        }
        if self.failed {
            return Ok(Take::Gone);
        }
        if id < self.replies.finished() {
            return Ok(Take::Over);
        }
        Ok(Take::Empty)
    }

    fn hang_up(&mut self, id: u64) -> Result<(), DeskFault> {
        let place = id as usize;
        if place >= self.replies.len() {
            return Ok(());
        }
        if self.replies.is_hung_up(place) {
            return Ok(());
        }
        self.replies.hang_up(place);
        self.touched = true;
        Ok(())
    }

    fn next_statement(&mut self) -> Result<u32, DeskFault> {
        if self.failed {
            return Err(DeskFault::Closed);
        }
        if self.statements >= u32::MAX {
            return Err(DeskFault::Encode);
        }
        let number = self.statements;
        self.statements += 1;
        Ok(number)
    }

    fn next_portal(&mut self) -> Result<u32, DeskFault> {
        if self.failed {
            return Err(DeskFault::Closed);
        }
        if self.portals >= u32::MAX {
            return Err(DeskFault::Encode);
        }
        let number = self.portals;
        self.portals += 1;
        Ok(number)
    }

    fn type_(&mut self, alloc: Global, oid: Oid) -> Result<Option<Type>, DeskFault> {
        if self.failed {
            return Err(DeskFault::Closed);
        }
        match self.catalog.type_of(alloc, oid) {
            Ok(found) => Ok(found),
            Err(_) => Err(DeskFault::OutOfMemory),
        }
    }

    fn set_type(&mut self, alloc: Global, oid: Oid, ty: &Type) -> Result<(), DeskFault> {
        if self.failed {
            return Err(DeskFault::Closed);
        }
        match self.catalog.set_type(alloc, oid, ty) {
            Ok(()) => Ok(()),
            Err(_) => Err(DeskFault::OutOfMemory),
        }
    }

    fn clear_type_cache(&mut self) -> Result<(), DeskFault> {
        if self.failed {
            return Err(DeskFault::Closed);
        }
        self.catalog.clear_types();
        Ok(())
    }

    fn lookup(&mut self, _alloc: Global, which: Lookup) -> Result<Option<Statement>, DeskFault> {
        if self.failed {
            return Err(DeskFault::Closed);
        }
        match self.catalog.statement(which) {
            Ok(found) => Ok(found),
            Err(_) => Err(DeskFault::OutOfMemory),
        }
    }

    fn set_lookup(
        &mut self,
        _alloc: Global,
        which: Lookup,
        statement: &Statement,
    ) -> Result<(), DeskFault> {
        if self.failed {
            return Err(DeskFault::Closed);
        }
        match self.catalog.set_statement(which, statement) {
            Ok(()) => Ok(()),
            Err(_) => Err(DeskFault::OutOfMemory),
        }
    }

    fn is_closed(&self) -> bool {
        self.closed || self.failed
    }

    ghost stays = { pipeline-stays };

    ghost joins = { pipeline-joins };
}

impl Engine for Pipeline {
    fn next_out(&mut self) -> Result<Out, DeskFault> {
        if self.failed {
            return Err(DeskFault::Closed);
        }
        let booked = self.replies.len();
        let whole = self.outbox.whole();
        if whole as usize >= booked {
            if self.replies.finished() < self.started {
                return Ok(Out::Nothing);
            }
            if self.closed {
                return Ok(Out::NoMore);
            }
            return Ok(Out::Nothing);
        }
        let Some(part) = self.outbox.pop(booked) else {
            return Ok(Out::CopyWaits);
        };
        self.started = whole + 1;
        self.unsent = without_part(self.unsent, &part);
        self.touched = true;
        Ok(Out::Part(part))
    }

    fn deliver(&mut self, batch: BackendMessages, complete: bool) -> Deliver {
        batch.batch_law();
        if self.replies.finished() >= self.started {
            return Deliver::NoRequest(batch);
        }
        match self.replies.put(batch, complete) {
            Some(back) => Deliver::Full(back),
            None => {
                self.touched = true;
                Deliver::Taken
            }
        }
    }

    fn close_requests(&mut self) -> Result<(), DeskFault> {
        self.closed = true;
        Ok(())
    }

    fn fail(&mut self) -> Result<(), DeskFault> {
        self.failed = true;
        Ok(())
    }
}
