//! A reply that is given item by item.

ghost use Rattle.std.specs.Prelude.{◌≡◌, ◌∷◌, [], List, Option, Some, Result, Ok, Err, IfOk};
ghost use Rattle.pg_spec.specs.Faults as spec;
ghost use Rattle.pg_spec.specs.Messages.{message_of};
ghost use Rattle.pg_spec.specs.RawMessages.{RawMessage};
ghost use Rattle.pg_types.specs.declared.error.Error.{Error};
ghost use Rattle.pg_wire.specs.Messages.{message_view};
ghost use Rattle.pg_streams.specs.Hearing.{Heard};
ghost use Rattle.pg_streams.specs.Telling.{GivesOn};
ghost use Rattle.pg_streams.specs.declared.giving.Told.TheVariants as telling;

use pg_errors::Error;
use pg_wire::Message;
use std::alloc::{AllocError, Global};

/// What a message tells.
#[derive(Drop)]
pub enum Told<I> {
    Item(I),
    /// The reply ends.
    Ends,
    /// The first thing that isn't right.
    Fails(Error),
}

/// What was read of a reply so far that is given item by item. Its meaning is what one is told who collects the items.
pub trait Giving: Drop {
    type Item: Drop;

    /// What all items and the end make.
    ghost Whole: { Type 0 };

    /// An item, in front of what comes behind it.
    ghost with_item: { Self.Item → Whole → Whole };

    /// What an end makes that comes here.
    ghost at_end: { Self → Whole };

    /// What the messages from here on tell, where they tell an end or an error.
    ghost tells: { Self → List RawMessage → Option (Result Whole Error) };

    /// What the next message tells, if anything, and how far it is read with that.
    ghost hears: { Self → RawMessage → Heard Self Self.Item };

    /// What is known of it from the first and stays.
    ghost Known: { Type 0 };

    /// That of this one.
    ghost known: { Self → Known };

    /// Reads the next message, and gives what it tells, if anything.
    fn message(
        &mut self,
        alloc: Global,
        message: Message,
    ) -> Result<Option<Told<Self::Item>>, AllocError>
        ensures gives { (raw : RawMessage) → message_of raw ≡ Ok (message_view message) → IfOk result (λ told. GivesOn tells with_item at_end self.old raw told self.new) }
        ensures hears { (raw : RawMessage) → message_of raw ≡ Ok (message_view message) → IfOk result (λ told. hears self.old raw ≡ record { told = told; giving = self.new }) }
        ensures known { known self.new ≡ known self.old };

    /// A malformed message is an error.
    ghost malformed: { (s : Self) (raw : RawMessage) (fault : spec.WireFault) → message_of raw ≡ Err fault → tells s (raw ∷ []) ≡ Some (Err (spec.Parse (spec.Wire fault))) };

    /// It tells that.
    ghost refuses: { (s : Self) (raw : RawMessage) (fault : spec.WireFault) → message_of raw ≡ Err fault → hears s raw ≡ record { told = Some (telling.Fails (spec.Parse (spec.Wire fault))); giving = s } };
}
