//! Object identifiers.

/// By which the server names a type (PostgreSQL documentation, "Object Identifier Types").
pub type Oid = u32;

// The built-in types (PostgreSQL documentation, "pg_type"; the numbers are those of the catalog's
// initial data, pg_type.dat).
pub(crate) const BOOL: Oid = 16;

pub(crate) const BYTEA: Oid = 17;

pub(crate) const CHAR: Oid = 18;

pub(crate) const NAME: Oid = 19;

pub(crate) const INT8: Oid = 20;

pub(crate) const INT2: Oid = 21;

pub(crate) const INT4: Oid = 23;

pub(crate) const TEXT: Oid = 25;

pub(crate) const OID: Oid = 26;

pub(crate) const UNKNOWN: Oid = 705;

pub(crate) const BPCHAR: Oid = 1042;

pub(crate) const VARCHAR: Oid = 1043;

pub(crate) const VOID: Oid = 2278;

pub(crate) const BOOL_ARRAY: Oid = 1000;

pub(crate) const BYTEA_ARRAY: Oid = 1001;

pub(crate) const INT2_ARRAY: Oid = 1005;

pub(crate) const INT4_ARRAY: Oid = 1007;

pub(crate) const TEXT_ARRAY: Oid = 1009;

pub(crate) const VARCHAR_ARRAY: Oid = 1015;

pub(crate) const INT8_ARRAY: Oid = 1016;

pub(crate) const OID_ARRAY: Oid = 1028;
