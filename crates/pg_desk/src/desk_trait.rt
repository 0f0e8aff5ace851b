//! The meaning of a desk: by which list of events one value of it becomes another.

ghost use Rattle.std.specs.Prelude.{◌≡◌, ◌++◌, [], ◌∷◌, List, ℕ, ◌≤◌, ◌<◌, Bool, true};
ghost use Rattle.pg_desk.specs.declared.event.Event.{Event};
ghost use Rattle.pg_desk.specs.declared.event.CatalogCall.TheVariants as catalog;
ghost use Rattle.pg_spec.specs.RawMessages.{ends_in, is_ready};
ghost use Rattle.pg_desk.specs.Answers.{HasBatch, HasPart, OnlyMemory, NotEncode, HasMemory, HasRoom, HandsBack, HandsPartBack, NeverFull};

use crate::{Deliver, DeskFault, Lookup, Out, Put, Stamp, Statement, Take};
use bytes::Bytes;
use pg_types::{Oid, Type};
use pg_wire::BackendMessages;
use std::alloc::Global;

/// What a caller has of the hub: it books requests and reads their replies.
/// A call that answers OutOfMemory has changed nothing; one without an allocator answers it over no desk but one that
/// stores its events.
pub trait Desk {
    /// By this list of events one value becomes the other.
    ghost becomes: { Self → List Event → Self → Type 0 };

    /// Falls in each take that answers a batch. No call of a desk raises it.
    ghost undelivered: { Self → ℕ };

    /// Falls in each call of an engine that hands a part out. No call but book, put and end_copy raises it.
    ghost waiting_parts: { Self → ℕ };

    /// The calls that need no memory never want it.
    ghost sure: { Bool };

    /// What is_closed may answer.
    ghost tells_closed: { Self → Bool → Type 0 };

    /// Books a request by its first part, and answers its number, counted from 0. Closed comes exactly
    /// after `close_requests` or `fail`.
    fn book(
        &mut self,
        alloc: Global,
        stamp: Stamp,
        part: Bytes,
        copying: bool,
    ) -> Result<u64, DeskFault>
        ensures event { becomes self.old (Event.Book stamp part copying result ∷ []) self.new }
        ensures fault { NotEncode result }
        ensures count { undelivered self.new ≤ undelivered self.old };

    /// Adds a part to a copy that isn't ended (PostgreSQL documentation, "COPY Operations"). Gone comes exactly after
    /// `fail` or where the request is no copy, or one that was ended or hung up, else Full exactly where two parts
    /// of it wait. Each refusal hands the part back.
    fn put(&mut self, alloc: Global, id: u64, part: Bytes) -> Put
        ensures event { becomes self.old (Event.Put id part result ∷ []) self.new }
        ensures back { HandsPartBack part result }
        ensures count { undelivered self.new ≤ undelivered self.old };

    /// Ends a copy by its last part. Gone comes exactly where `put` would answer it, and Full never.
    fn end_copy(&mut self, alloc: Global, id: u64, part: Bytes) -> Put
        ensures event { becomes self.old (Event.EndCopy id part result ∷ []) self.new }
        ensures back { HandsPartBack part result }
        ensures full { NeverFull result }
        ensures count { undelivered self.new ≤ undelivered self.old };

    /// Gives the oldest batch that waits for the reader of a request. Gone comes where it wasn't booked or is hung
    /// up. Where no batch waits, Gone comes after `fail`, and before it Over where the reply has ended, else Empty.
    fn take(&mut self, id: u64) -> Result<Take, DeskFault>
        ensures event { becomes self.old (Event.Take id result ∷ []) self.new }
        ensures fault { OnlyMemory result }
        ensures count { undelivered self.new ≤ undelivered self.old }
        ensures memory { sure ≡ true → HasMemory result }
        ensures parts { waiting_parts self.new ≤ waiting_parts self.old }
        ensures falls { HasBatch result → undelivered self.new < undelivered self.old };

    /// Drops what waits for the reader of a request, and what will come for it. One that wasn't booked or is hung
    /// up stays as it is.
    fn hang_up(&mut self, id: u64) -> Result<(), DeskFault>
        ensures event { becomes self.old (Event.HangUp id result ∷ []) self.new }
        ensures fault { OnlyMemory result }
        ensures memory { sure ≡ true → HasMemory result }
        ensures count { undelivered self.new ≤ undelivered self.old }
        ensures parts { waiting_parts self.new ≤ waiting_parts self.old };

    /// The number of the next statement. Closed comes exactly after `fail`, and before it Encode exactly at the
    /// last value.
    fn next_statement(&mut self) -> Result<u32, DeskFault>
        ensures event { becomes self.old (Event.NextStatement result ∷ []) self.new }
        ensures memory { sure ≡ true → HasMemory result }
        ensures count { undelivered self.new ≤ undelivered self.old }
        ensures parts { waiting_parts self.new ≤ waiting_parts self.old };

    /// The number of the next portal. Closed comes exactly after `fail`, and before it Encode exactly at the last
    /// value.
    fn next_portal(&mut self) -> Result<u32, DeskFault>
        ensures event { becomes self.old (Event.NextPortal result ∷ []) self.new }
        ensures memory { sure ≡ true → HasMemory result }
        ensures count { undelivered self.new ≤ undelivered self.old }
        ensures parts { waiting_parts self.new ≤ waiting_parts self.old };

    /// The type that is kept of an oid: the last one that was set, unless types were cleared since. Closed
    /// comes exactly after `fail`, OutOfMemory where the type can't be copied.
    fn type_(&mut self, alloc: Global, oid: Oid) -> Result<Option<Type>, DeskFault>
        ensures event { becomes self.old (Event.Catalog (catalog.TypeOf oid result) ∷ []) self.new }
        ensures fault { NotEncode result }
        ensures count { undelivered self.new ≤ undelivered self.old }
        ensures parts { waiting_parts self.new ≤ waiting_parts self.old };

    /// Keeps a type for an oid, in place of the one that was kept. Closed comes exactly after `fail`, OutOfMemory
    /// where the type can't be copied or kept.
    fn set_type(&mut self, alloc: Global, oid: Oid, ty: &Type) -> Result<(), DeskFault>
        ensures event { becomes self.old (Event.Catalog (catalog.SetType oid ty.now result) ∷ []) self.new }
        ensures fault { NotEncode result }
        ensures count { undelivered self.new ≤ undelivered self.old }
        ensures parts { waiting_parts self.new ≤ waiting_parts self.old };

    /// No type is kept any more. The statements that look types up stay. Closed comes exactly after `fail`.
    fn clear_type_cache(&mut self) -> Result<(), DeskFault>
        ensures event { becomes self.old (Event.Catalog (catalog.ClearTypes result) ∷ []) self.new }
        ensures fault { NotEncode result }
        ensures memory { sure ≡ true → HasMemory result }
        ensures count { undelivered self.new ≤ undelivered self.old }
        ensures parts { waiting_parts self.new ≤ waiting_parts self.old };

    /// The statement that is kept to look this up. Closed comes exactly after `fail`, OutOfMemory where the statement
    /// can't be copied.
    fn lookup(&mut self, alloc: Global, which: Lookup) -> Result<Option<Statement>, DeskFault>
        ensures event { becomes self.old (Event.Catalog (catalog.LookupOf which result) ∷ []) self.new }
        ensures fault { NotEncode result }
        ensures count { undelivered self.new ≤ undelivered self.old }
        ensures parts { waiting_parts self.new ≤ waiting_parts self.old };

    /// Keeps a statement to look this up, in place of the one that was kept. Closed comes exactly after `fail`,
    /// OutOfMemory where the statement can't be copied.
    fn set_lookup(
        &mut self,
        alloc: Global,
        which: Lookup,
        statement: &Statement,
    ) -> Result<(), DeskFault>
        ensures event { becomes self.old (Event.Catalog (catalog.SetLookup which statement.now result) ∷ []) self.new }
        ensures fault { NotEncode result }
        ensures count { undelivered self.new ≤ undelivered self.old }
        ensures parts { waiting_parts self.new ≤ waiting_parts self.old };

    /// No request is taken any more.
    fn is_closed(&self) -> bool
        ensures { tells_closed self.now result };

    /// No event leaves a value as it is.
    ghost stays: { (a : Self) → becomes a [] a };

    /// Lists of events are joined.
    ghost joins: { (a b c : Self) (es fs : List Event) → becomes a es b → becomes b fs c → becomes a (es ++ fs) c };
}

/// What the connection has of the hub: it takes parts out and delivers what comes.
pub trait Engine: Desk {
    /// The next part of the oldest request that hasn't gone out whole. CopyWaits comes where that is a copy that
    /// isn't ended and none of its parts waits. Where all has gone out, NoMore comes where no request is open and
    /// none will be booked, else Nothing. Closed comes exactly after `fail`.
    fn next_out(&mut self) -> Result<Out, DeskFault>
        ensures event { Self.becomes self.old (Event.NextOut result ∷ []) self.new }
        ensures fault { NotEncode result }
        ensures memory { Self.sure ≡ true → HasMemory result }
        ensures parts { Self.waiting_parts self.new ≤ Self.waiting_parts self.old }
        ensures falls { HasPart result → Self.waiting_parts self.new < Self.waiting_parts self.old };

    /// Gives a batch to the oldest open request, or discards it where that one hung up. `complete` says
    /// that the batch ends its reply, with ReadyForQuery. NoRequest comes exactly where none is open, Full exactly
    /// where two batches of it wait. Each refusal hands the batch back.
    fn deliver(&mut self, batch: BackendMessages, complete: bool) -> Deliver
        requires ends { complete ≡ ends_in is_ready batch }
        ensures event { Self.becomes self.old (Event.Deliver batch complete result ∷ []) self.new }
        ensures back { HandsBack batch result }
        ensures memory { Self.sure ≡ true → HasRoom result }
        ensures parts { Self.waiting_parts self.new ≤ Self.waiting_parts self.old };

    /// No request will be booked any more.
    fn close_requests(&mut self) -> Result<(), DeskFault>
        ensures event { Self.becomes self.old (Event.CloseRequests result ∷ []) self.new }
        ensures fault { OnlyMemory result }
        ensures memory { Self.sure ≡ true → HasMemory result }
        ensures parts { Self.waiting_parts self.new ≤ Self.waiting_parts self.old };

    /// Nothing will come any more.
    fn fail(&mut self) -> Result<(), DeskFault>
        ensures event { Self.becomes self.old (Event.Fail result ∷ []) self.new }
        ensures fault { OnlyMemory result }
        ensures memory { Self.sure ≡ true → HasMemory result }
        ensures parts { Self.waiting_parts self.new ≤ Self.waiting_parts self.old };
}
