//! Types, and values of them.

pub use pg_types::{
    Blob, Field, Format, FromSql, FromSqlOwned, Held, IsNull, Kind, List, Oid, OutOfMemory, Params,
    RustType, Text, ToSql, Type, Value, ValueFault, WrongType,
};
pub use pg_values::{Bound, Datum, Dim, Wide};
