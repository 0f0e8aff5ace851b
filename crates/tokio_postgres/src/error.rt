//! Errors.

pub use pg_errors::{
    Cause, DbError, Error, ErrorKind, ErrorPosition, ScramFault, Severity, Source, SqlState,
};
pub use pg_types::{FrameFault, WireFault};
