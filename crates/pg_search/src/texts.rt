//! The texts that look types up (PostgreSQL documentation, "pg_type", "pg_range", "pg_enum", "pg_attribute").

ghost use Rattle.std.specs.Prelude.{◌≡◌};
ghost use Rattle.pg_types.specs.declared.error.Error.TheVariants as fault;
ghost use Rattle.pg_core.specs.Lookups as spec;

use pg_desk::Lookup;
use pg_errors::{DbError, Error};

const INFO: &str =
    "SELECT t.typname, t.typtype, t.typelem, r.rngsubtype, t.typbasetype, n.nspname, t.typrelid\nFROM pg_catalog.pg_type t\nLEFT OUTER JOIN pg_catalog.pg_range r ON r.rngtypid = t.oid\nINNER JOIN pg_catalog.pg_namespace n ON t.typnamespace = n.oid\nWHERE t.oid = $1\n";

const INFO_OLD: &str =
    "SELECT t.typname, t.typtype, t.typelem, NULL::OID, t.typbasetype, n.nspname, t.typrelid\nFROM pg_catalog.pg_type t\nINNER JOIN pg_catalog.pg_namespace n ON t.typnamespace = n.oid\nWHERE t.oid = $1\n";

const ENUM: &str =
    "SELECT enumlabel\nFROM pg_catalog.pg_enum\nWHERE enumtypid = $1\nORDER BY enumsortorder\n";

const ENUM_OLD: &str =
    "SELECT enumlabel\nFROM pg_catalog.pg_enum\nWHERE enumtypid = $1\nORDER BY oid\n";

const COMPOSITE: &str =
    "SELECT attname, atttypid\nFROM pg_catalog.pg_attribute\nWHERE attrelid = $1\nAND NOT attisdropped\nAND attnum > 0\nORDER BY attnum\n";

/// The text that looks this up, and one for servers that don't know all of the first.
pub fn lookup_text(which: Lookup, first: bool) -> &'static str
    ensures { result.now ≡ spec.lookup_text which first }
{
    match which {
        Lookup::Info => { if first { INFO } else { INFO_OLD } }
        Lookup::Enum => { if first { ENUM } else { ENUM_OLD } }
        Lookup::Composite => COMPOSITE,
    }
}

/// Whether an error of the server has the code by which it says that it doesn't know all of the first text: no such
/// table, no such column.
fn has_unknown_code(which: Lookup, error: &DbError) -> bool
    ensures { result ≡ spec.is_unknown (spec.unknown_code which) (fault.Db error.now) }
{
    let code = error.code().code();
    match which {
        Lookup::Info => code == "42P01",
        Lookup::Enum => code == "42703",
        Lookup::Composite => false,
    }
}

/// Whether the server doesn't know all of the first text, so that the second is to be prepared.
pub fn is_unknown(which: Lookup, error: &Error) -> bool
    ensures { result ≡ spec.is_unknown (spec.unknown_code which) error.now }
{
    match error {
        Error::Db(error) => has_unknown_code(which, error.get()),
        _ => false,
    }
}
