//! The names of the built-in types.

ghost use Rattle.pg_text.specs.SessionText.{IsTypeName};
ghost use Rattle.pg_text.specs.Words.{Means};

use pg_types::Oid;

/// The built-in type of this name (PostgreSQL documentation, "pg_type").
pub(crate) fn oid_named(name: &[u8]) -> Option<Oid>
    ensures { Means IsTypeName name.now result }
{
    match name {
        b"bool" => Some(16),
        b"bytea" => Some(17),
        b"char" => Some(18),
        b"name" => Some(19),
        b"int8" => Some(20),
        b"int2" => Some(21),
        b"int4" => Some(23),
        b"text" => Some(25),
        b"oid" => Some(26),
        b"unknown" => Some(705),
        b"bpchar" => Some(1042),
        b"varchar" => Some(1043),
        b"void" => Some(2278),
        b"_bool" => Some(1000),
        b"_bytea" => Some(1001),
        b"_int2" => Some(1005),
        b"_int4" => Some(1007),
        b"_text" => Some(1009),
        b"_varchar" => Some(1015),
        b"_int8" => Some(1016),
        b"_oid" => Some(1028),
        _ => None,
    }
}
