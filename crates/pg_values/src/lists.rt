//! Lists that grow.

ghost use Rattle.std.specs.Prelude.{◌≡◌, ◌++◌, ◌∷◌, [], MatchResult};
ghost use Rattle.pg_types.specs.declared.fault.ValueFault.TheVariants as fault;

use pg_types::{Held, List, ValueFault};
use std::alloc::Global;

/// Adds an item behind the others.
pub(crate) fn push<T: Drop>(items: &mut List<T>, item: T) -> Result<(), ValueFault>
    ensures { MatchResult result (λ _. items.new ≡ items.old ++ item ∷ []) (λ f. f ≡ fault.OutOfMemory) }
{
    match items.push(item) {
        Ok(()) => Ok(()),
        Err(_) => Err(ValueFault::OutOfMemory),
    }
}

/// The empty list, with room for so many items.
pub(crate) fn with_room<T>(alloc: Global, room: usize) -> Result<List<T>, ValueFault>
    ensures { MatchResult result (λ items. items ≡ []) (λ f. f ≡ fault.OutOfMemory) }
{
    match List::with_room(alloc, room) {
        Ok(items) => Ok(items),
        Err(_) => Err(ValueFault::OutOfMemory),
    }
}

/// A value on the heap.
pub(crate) fn held<T: Drop>(alloc: Global, value: T) -> Result<Held<T>, ValueFault>
    ensures { MatchResult result (λ h. h ≡ value) (λ f. f ≡ fault.OutOfMemory) }
{
    match Held::new(alloc, value) {
        Ok(held) => Ok(held),
        Err(_) => Err(ValueFault::OutOfMemory),
    }
}
