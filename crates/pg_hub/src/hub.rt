//! The plain hub: a pipeline, and beside it the book of all requests. `Fits` says which states of a list of events it
//! stands for.

ghost use Rattle.std.specs.Prelude.{◌≡◌, ◌<◌, ◌∷◌, [], true, false, IfOk, MatchBool, MatchOption, MatchResult};
ghost use Rattle.std.specs.Vec.{vec_capacity, vec_len};
ghost use Rattle.pg_desk.specs.History.{extended};

use crate::pipeline::Pipeline;
use bytes::Bytes;
use pg_desk::{
    Booking, Deliver, Desk, DeskFault, Engine, Lookup, Out, Put, Stamp, Statement, Take,
};
use pg_types::{Blob, List, Oid, OutOfMemory, Type};
use pg_wire::BackendMessages;
use std::alloc::Global;
use std::marker::Model;
use std::mem;

/// The requests of all handles, and what came for them.
#[derive(Drop)]
pub struct Hub {
    book: List<Booking>,
    pipeline: Pipeline,
}

impl Model for Hub {
    ghost use Rattle.pg_hub.specs.Beside.{standing};
    ghost use Rattle.pg_hub.specs.Standing.{Standing};
    ghost use Rattle.pg_types.specs.contracts.pg_type.PgType as pg_type;
    ghost use Rattle.std.specs.Coded.{codes};

    ghost Value = { Standing };

    ghost coded = { Prim.hlevel (codes, pg_type.the_row.coded) };

    ghost view = { standing };
}

impl Hub {
    ghost use Rattle.pg_desk.specs.History.{start};
    ghost use Rattle.pg_hub.specs.Fits.{Fits};

    /// A hub in which nothing has happened. Statements and portals are numbered from these numbers on. It
    /// takes no memory.
    pub fn new(alloc: Global, statements: u32, portals: u32) -> Hub
        ensures fits { Fits (start statements portals) result }
        ensures touched { result.touched ≡ false }
    {
        Hub {
            book: List::empty(alloc),
            pipeline: Pipeline::new(alloc, statements, portals),
        }
    }

    /// All bookings, in order.
    pub fn book_list(&self) -> &List<Booking>
        ensures { result.now ≡ self.now.book }
    {
        &self.book
    }

    /// All bookings, in order, moved out of the hub.
    pub fn into_book(self) -> List<Booking>
        ensures { result ≡ self.book }
    {
        let Hub { book, pipeline: _ } = self;
        book
    }

    /// The bytes of the parts that haven't gone out, and one more for each part.
    pub fn unsent(&self) -> u64
        ensures { result ≡ self.now.unsent }
    {
        self.pipeline.unsent()
    }

    /// Whether, since its last call, something was booked, put, taken as a batch, taken out as a part,
    /// delivered, discarded or hung up. A call of `hang_up` that changes nothing doesn't count. It changes
    /// nothing else.
    pub fn touched(&mut self) -> bool
        ensures answer { result ≡ self.old.touched }
        ensures same { self.new ≡ record self.old { touched = false } }
    {
        self.pipeline.touched()
    }
}

/// The booking of a request by its first part.
fn booking_of(alloc: Global, stamp: Stamp, part: &Bytes) -> Result<Booking, OutOfMemory>
    ensures { IfOk result (λ b. b ≡ record { stamp = stamp; parts = part.now ∷ [] }) }
{
    let part = Blob::from_slice(alloc, part.as_slice())?;
    let mut parts = List::with_room(alloc, 1)?;
    parts.push(part)?;
    Ok(Booking { stamp, parts })
}

/// The bookings, taken out, with room for one more. Where memory lacks, they stay.
fn taken_with_room(alloc: Global, book: &mut List<Booking>) -> Option<Vec<Booking>>
    ensures { MatchOption result (book.new ≡ book.old) (λ bookings. (bookings.items ≡ book.old) × (vec_len bookings < vec_capacity bookings)) }
{
    let mut bookings = mem::replace(book, List::empty(alloc)).into_vec();
    if bookings.reserve(1).is_err() {
        *book = List::new(bookings);
        return None;
    }
    Some(bookings)
}

/// A part more in the book of one of the bookings. Where it isn't shown for want of memory, nothing changes.
fn shows(alloc: Global, book: &mut List<Booking>, place: usize, part: &Bytes) -> bool
    ensures { MatchBool result (book.new ≡ extended place part.now book.old) (book.new ≡ book.old) }
{
    let Ok(shown) = Blob::from_slice(alloc, part.as_slice()) else {
        return false;
    };
    let mut bookings = mem::replace(book, List::empty(alloc)).into_vec();
    let pushed = push_part_at(&mut bookings, place, shown);
    *book = List::new(bookings);
    pushed.is_ok()
}

/// A part more of a booking, where there is one at this place.
fn push_part_at(book: &mut [Booking], place: usize, part: Blob) -> Result<(), OutOfMemory>
    ensures { MatchResult result (λ _. book.new ≡ extended place part book.old) (λ _. book.new ≡ book.old) }
{
    if place >= book.len() {
        return Ok(());
    }
    if book[place].parts.push(part).is_err() {
        return Err(OutOfMemory);
    }
    Ok(())
}

impl Desk for Hub {
    ghost use Rattle.pg_hub.specs.Fits.{HubBecomes, IsClosedBy};
    ghost use Rattle.pg_hub.specs.Waiting.{undelivered_of, parts_of};
    ghost use Rattle.pg_hub.specs.Becomes.{stays, joins};

    ghost becomes = { HubBecomes };

    ghost undelivered = { undelivered_of };

    ghost waiting_parts = { parts_of };

    ghost sure = { true };

    ghost tells_closed = { IsClosedBy };

    fn book(
        &mut self,
        alloc: Global,
        stamp: Stamp,
        part: Bytes,
        copying: bool,
    ) -> Result<u64, DeskFault> {
        if self.pipeline.is_closed() {
            return Err(DeskFault::Closed);
        }
        let Ok(booking) = booking_of(alloc, stamp, &part) else {
            return Err(DeskFault::OutOfMemory);
        };
        // What wants memory comes first: a refused booking changes nothing.
        let Some(mut bookings) = taken_with_room(alloc, &mut self.book) else {
            return Err(DeskFault::OutOfMemory);
        };
        match self.pipeline.book(alloc, stamp, part, copying) {
            Ok(id) => {
                bookings.push_reserved(booking);
                self.book = List::new(bookings);
                Ok(id)
            }
            Err(fault) => {
                self.book = List::new(bookings);
                Err(fault)
            }
        }
    }

    fn put(&mut self, alloc: Global, id: u64, part: Bytes) -> Put {
        if !self.pipeline.takes_parts(id) {
            return Put::Gone(part);
        }
        if self.pipeline.is_full(id) {
            return Put::Full(part);
        }
        let Some(unsent) = self.pipeline.unsent_with(&part) else {
            return Put::OutOfMemory(part);
        };
        if !shows(alloc, &mut self.book, id as usize, &part) {
            return Put::OutOfMemory(part);
        }
        self.pipeline.put_counted(id, part, unsent);
        Put::Took
    }

    fn end_copy(&mut self, alloc: Global, id: u64, part: Bytes) -> Put {
        if !self.pipeline.takes_parts(id) {
            return Put::Gone(part);
        }
        let Some(unsent) = self.pipeline.unsent_with(&part) else {
            return Put::OutOfMemory(part);
        };
        if !shows(alloc, &mut self.book, id as usize, &part) {
            return Put::OutOfMemory(part);
        }
        self.pipeline.close_counted(id, part, unsent);
        Put::Took
    }

    fn take(&mut self, id: u64) -> Result<Take, DeskFault> {
        self.pipeline.take(id)
    }

    fn hang_up(&mut self, id: u64) -> Result<(), DeskFault> {
        self.pipeline.hang_up(id)
    }

    fn next_statement(&mut self) -> Result<u32, DeskFault> {
        self.pipeline.next_statement()
    }

    fn next_portal(&mut self) -> Result<u32, DeskFault> {
        self.pipeline.next_portal()
    }

    fn type_(&mut self, alloc: Global, oid: Oid) -> Result<Option<Type>, DeskFault> {
        self.pipeline.type_(alloc, oid)
    }

    fn set_type(&mut self, alloc: Global, oid: Oid, ty: &Type) -> Result<(), DeskFault> {
        self.pipeline.set_type(alloc, oid, ty)
    }

    fn clear_type_cache(&mut self) -> Result<(), DeskFault> {
        self.pipeline.clear_type_cache()
    }

    fn lookup(&mut self, alloc: Global, which: Lookup) -> Result<Option<Statement>, DeskFault> {
        self.pipeline.lookup(alloc, which)
    }

    fn set_lookup(
        &mut self,
        alloc: Global,
        which: Lookup,
        statement: &Statement,
    ) -> Result<(), DeskFault> {
        self.pipeline.set_lookup(alloc, which, statement)
    }

    fn is_closed(&self) -> bool {
        self.pipeline.is_closed()
    }

    ghost stays = { stays };

    ghost joins = { joins };
}

impl Engine for Hub {
    fn next_out(&mut self) -> Result<Out, DeskFault> {
        self.pipeline.next_out()
    }

    fn deliver(&mut self, batch: BackendMessages, complete: bool) -> Deliver {
        self.pipeline.deliver(batch, complete)
    }

    fn close_requests(&mut self) -> Result<(), DeskFault> {
        self.pipeline.close_requests()
    }

    fn fail(&mut self) -> Result<(), DeskFault> {
        self.pipeline.fail()
    }
}
