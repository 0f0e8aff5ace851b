//! Errors of the client and their causes, errors and notices of the server, and notifications.
#![tactic(auto)]

mod async_message;
mod db_error;
mod error_fields;
mod severity;

pub use async_message::{AsyncMessage, Notification};
pub use db_error::ParseFields;
pub use pg_types::{
    Cause, DbError, Error, ErrorKind, ErrorPosition, ScramFault, Severity, Source, SqlState,
};
