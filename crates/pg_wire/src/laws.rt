//! Laws over the definitions: they show what the calls of this crate give together. Each body does nothing.

ghost use Rattle.std.specs.Prelude.{◌≡◌, ℕ, Bool, List, [], Option, Some, None, Result, Ok};
ghost use Rattle.pg_spec.specs.Bodies.{Field, cell_at, cells_of, field_at, fields_of, mechanisms_of, oids_of};
ghost use Rattle.pg_spec.specs.DbErrors.{error_fields};
ghost use Rattle.pg_spec.specs.RawMessages.{RawMessage};
ghost use Rattle.pg_wire.specs.Cuttings.{Event, Becomes, GaveAll, GaveAllBut, TellsItsEnd};
ghost use Rattle.pg_wire.specs.Decode.{CutsBatch, Decodes};
ghost use Rattle.pg_wire.specs.Steps.{counted_step, error_step, fields_by_step, items_by_step, mechanism_step, mechanisms_by_step, oid_at};

/// Where a stream is cut makes no difference: whatever bytes come at a time, and whenever `decode` is
/// called, what it gave, joined, is the messages of the whole, but for those that it hasn't given yet;
/// where it answers that it has no more, there are none of these. A batch is complete exactly where it
/// ends with its only ReadyForQuery.
pub fn cuttings_of_a_stream()
    ensures joined { (events : List Event) (held : List ℕ) → Becomes [] events held → GaveAllBut events held }
    ensures all { (events : List Event) (held left : List ℕ) → Becomes [] events held → Decodes held left (Ok None) → GaveAll events left }
    ensures complete { (old new : List ℕ) (batch : List RawMessage) (complete : Bool) → CutsBatch old new batch complete → TellsItsEnd batch complete }
{}

/// The items of a body are those that its reader gives step by step, and its fault is the first step's
/// that has one.
pub fn steps_of_a_body()
    ensures columns { (count : ℕ) (bytes : List ℕ) → fields_of count bytes ≡ items_by_step field_at (counted_step field_at count bytes) }
    ensures cells { (count : ℕ) (bytes : List ℕ) → cells_of count bytes ≡ items_by_step cell_at (counted_step cell_at count bytes) }
    ensures parameters { (count : ℕ) (bytes : List ℕ) → oids_of count bytes ≡ items_by_step oid_at (counted_step oid_at count bytes) }
    ensures error_fields { (bytes : List ℕ) → error_fields bytes ≡ fields_by_step (error_step bytes) }
    ensures mechanisms { (bytes : List ℕ) → mechanisms_of bytes ≡ mechanisms_by_step (mechanism_step bytes) }
{}
