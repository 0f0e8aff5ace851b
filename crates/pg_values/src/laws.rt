//! What the definitions say of some values, worked out, and of any value that is written and read through the traits.

ghost use Rattle.std.specs.Prelude.{◌≡◌, ◌↔◌, ℕ, true, List, Option, Ok, None, Result};
ghost use Rattle.pg_types.specs.declared.fault.ValueFault.{ValueFault};
ghost use Rattle.pg_types.specs.declared.format.IsNull.{IsNull};
ghost use Rattle.pg_types.specs.Laws.{ReadsBack};
ghost use Rattle.pg_types.specs.Values.{Reads, Writes, checked};
ghost use Rattle.pg_values.specs.declared.datum.Datum as d;
ghost use Rattle.pg_values.specs.declared.datum.Datum.{Datum};
ghost use Rattle.pg_values.specs.Reading.{ReadsDatum};
ghost use Rattle.pg_values.specs.Supported.{is_supported};
ghost use Rattle.pg_values.specs.Worked.{WorkedNumeric, WorkedArray, WorkedRange};
ghost use Rattle.pg_values.specs.Writing.{GivesDatum, WritesDatum};

use crate::datum::Datum;
use pg_types::{FromSqlOwned, ToSql, Type};

/// The bytes of a number, of an array with a null, and of a range.
pub fn worked_values()
    ensures numeric { WorkedNumeric }
    ensures array { WorkedArray }
    ensures range { WorkedRange }
{}

/// What a `Datum` wrote is read back as it, and null as null.
pub fn datums_read_back(value: &Datum, ty: &Type)
    ensures null_given { is_supported ty.now ≡ true → ⟦<Datum as ToSql>⟧.gives d.Null ty.now ≡ Ok None }
    ensures null { ⟦<Datum as FromSqlOwned>⟧.spelled ty.now None d.Null }
    ensures value { ReadsBack (λ x. x) (⟦<Datum as ToSql>⟧.gives value.now ty.now)
        (⟦<Datum as FromSqlOwned>⟧.spelled ty.now) (⟦<Datum as FromSqlOwned>⟧.refused ty.now) value.now }
{}

/// What a `Datum` gives is in the written form of its type; a fault comes where no bytes spell it.
pub fn datums_have_their_form(value: &Datum, ty: &Type)
    ensures { GivesDatum value.now ty.now (⟦<Datum as ToSql>⟧.gives value.now ty.now) }
{}

/// Through the traits no less is told than by `write_datum`, and under a supported type no less than by `read_datum`.
pub fn traits_tell_as_much(value: &Datum, ty: &Type)
    ensures written { (old new : List ℕ) (r : Result IsNull ValueFault)
        → Writes ⟦<Datum as ToSql>⟧.has_parts (⟦<Datum as ToSql>⟧.gives value.now ty.now) old new r → WritesDatum ty.now value.now old new r }
    ensures checked { (old new : List ℕ) (r : Result IsNull ValueFault)
        → Writes ⟦<Datum as ToSql>⟧.has_parts (checked (⟦<Datum as ToSql>⟧.accepted value.now ty.now) ty.now.oid ⟦<Datum as ToSql>⟧.rust
        (⟦<Datum as ToSql>⟧.gives value.now ty.now)) old new r → WritesDatum ty.now value.now old new r }
    ensures read { (raw : Option (List ℕ)) (r : Result Datum ValueFault) → is_supported ty.now ≡ true
        → Reads ⟦<Datum as FromSqlOwned>⟧.owns_memory (⟦<Datum as FromSqlOwned>⟧.spelled ty.now)
        (⟦<Datum as FromSqlOwned>⟧.refused ty.now) raw r ↔ ReadsDatum ty.now raw r }
{}
