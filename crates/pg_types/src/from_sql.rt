//! Values that are read from the server's types.

ghost use Rattle.std.specs.Prelude.{◌≡◌, ℕ, Bool, List, Option, Some, None, option_map};
ghost use Rattle.pg_types.specs.declared.pg_type.PgType.{PgType};
ghost use Rattle.pg_types.specs.declared.fault.ValueFault.{ValueFault};
ghost use Rattle.pg_types.specs.Values.{Reads};

use crate::{Type, ValueFault};
use std::alloc::Global;

/// A Rust type that is read from some of the server's types, and may borrow from the bytes.
pub trait FromSql<'a>: Sized {
    /// The Rust type stands for a type.
    ghost stands_for: { PgType → Bool };

    /// The value that bytes of a type, or null (`None`), spell.
    ghost spelled: { PgType → Option (List ℕ) → Self → Type 0 };

    /// A fault for which bytes of a type, or null, are refused, or that they aren't (`None`).
    ghost refused: { PgType → Option (List ℕ) → Option ValueFault → Type 0 };

    /// The Rust type owns memory, so that reading may lack it.
    ghost owns_memory: { Bool };

    /// Reads the value that the bytes spell. BadValue comes where they are of another length or form
    /// than the type has.
    fn from_sql(alloc: Global, ty: &Type, raw: &'a [u8]) -> Result<Self, ValueFault>
        ensures { Reads owns_memory (spelled ty.now) (refused ty.now) (Some raw.now) result };

    /// Reads null. WasNull comes where the Rust type has none.
    fn from_sql_null(ty: &Type) -> Result<Self, ValueFault>
        ensures { Reads owns_memory (spelled ty.now) (refused ty.now) None result };

    /// Reads bytes or null.
    fn from_sql_nullable(
        alloc: Global,
        ty: &Type,
        raw: Option<&'a [u8]>,
    ) -> Result<Self, ValueFault>
        ensures { Reads owns_memory (spelled ty.now) (refused ty.now) (option_map (λ r. r.now) raw.entry)
            result };

    /// Whether the Rust type stands for a type.
    fn accepts(ty: &Type) -> bool
        ensures { result ≡ stands_for ty.now };
}

/// A Rust type that is read from some of the server's types, and keeps nothing of the bytes.
pub trait FromSqlOwned: Sized {
    /// The Rust type stands for a type.
    ghost stands_for: { PgType → Bool };

    /// The value that bytes of a type, or null (`None`), spell.
    ghost spelled: { PgType → Option (List ℕ) → Self → Type 0 };

    /// A fault for which bytes of a type, or null, are refused, or that they aren't (`None`).
    ghost refused: { PgType → Option (List ℕ) → Option ValueFault → Type 0 };

    /// The Rust type owns memory, so that reading may lack it.
    ghost owns_memory: { Bool };

    /// Reads bytes or null, as `FromSql::from_sql_nullable`.
    fn from_sql_owned(alloc: Global, ty: &Type, raw: Option<&[u8]>) -> Result<Self, ValueFault>
        ensures { Reads owns_memory (spelled ty.now) (refused ty.now) (option_map (λ r. r.now) raw.entry)
            result };

    /// Whether the Rust type stands for a type, as `FromSql::accepts`.
    fn accepts_owned(ty: &Type) -> bool
        ensures { result ≡ stands_for ty.now };
}
