//! Types of the server, the values that stand for them, and plain values that contracts compare: texts, bytes and
//! lists, each seen as a list.
//! Why calls give no value: errors, causes and faults, and the errors and notices of the server. They stand below
//! the definitions, which speak of them.
#![tactic(auto)]

mod blob;
mod built_ins;
mod cause;
mod db_error;
mod error;
mod error_kind;
mod fault;
mod faults;
mod format;
mod from_sql;
mod held;
pub mod laws;
mod list;
mod memory;
mod nullable;
mod numbers_from_sql;
mod numbers_to_sql;
mod oid;
mod params;
mod pg_type;
mod severity;
mod sql;
mod sql_state;
mod text;
mod texts_from_sql;
mod texts_to_sql;
mod to_sql;
mod value;
mod value_from_sql;
mod value_to_sql;

pub use blob::Blob;
pub use cause::{Cause, ScramFault};
pub use db_error::{DbError, ErrorPosition};
pub use error::{Error, Source};
pub use error_kind::ErrorKind;
pub use fault::{RustType, ValueFault, WrongType};
pub use faults::{FrameFault, WireFault};
pub use format::{Format, IsNull};
pub use from_sql::{FromSql, FromSqlOwned};
pub use held::Held;
pub use list::List;
pub use memory::OutOfMemory;
pub use oid::Oid;
pub use params::Params;
pub use pg_type::{Field, Kind, PgType, Type};
pub use severity::Severity;
pub use sql::Sql;
pub use sql_state::SqlState;
pub use text::{Text, copy_optional, optional_str};
pub use to_sql::ToSql;
pub use value::Value;
