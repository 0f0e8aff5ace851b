//! The error of every call.

ghost use Rattle.std.specs.Prelude.{◌≡◌, option_map, IfOk};
ghost use Rattle.std.specs.Option.{option_copied};
ghost use Rattle.pg_types.specs.declared.error.Error.TheVariants as variant;
ghost use Rattle.pg_types.specs.Getters.{cause_in, kind_of, numbers_in, place_in, sql_state_in};
ghost use Rattle.pg_types.specs.Sources.{db_error_in, is_closed_error, source_in};

use crate::cause::Cause;
use crate::db_error::DbError;
use crate::error_kind::ErrorKind;
use crate::sql_state::SqlState;
use crate::{Held, OutOfMemory, Text};
use std::alloc::{AllocError, AllocFailed, Global};
use std::fmt;

/// Why a call gives no value. Want of memory is never a cause of another.
#[derive(Debug)]
pub enum Error {
    /// A call of the link failed, the bytes are malformed where no request can be blamed, or they end
    /// inside a message.
    Io(Cause),
    /// A message of the server that has no place here.
    UnexpectedMessage,
    /// TLS can't be had.
    Tls(Cause),
    /// The value for the parameter at this place, from 0, is refused.
    ToSql(usize, Cause),
    /// The cell of the column at this place, from 0, can't be read as the type asked for.
    FromSql(usize, Cause),
    /// A row has no column of this name, or at this place, in decimal.
    Column(Text),
    /// A query gave another number of columns than was asked for.
    ColumnCount,
    /// How many parameters were given, and how many the statement has.
    Parameters(usize, usize),
    /// The connection is closed.
    Closed,
    /// An error of the server, on the heap, so that an error takes little room.
    Db(Held<DbError>),
    /// A message of the server that can't be read.
    Parse(Cause),
    /// A frame that can't be written.
    Encode(Cause),
    /// The login failed on the client's side.
    Authentication(Cause),
    /// A connection string that can't be read.
    ConfigParse(Cause),
    /// Settings, a nonce or scripts under which no session can be run.
    Config(Cause),
    /// A query gave another number of rows than was asked for.
    RowCount,
    /// The server isn't one as asked for.
    Connect(Cause),
    /// Nothing moves any more. The two numbers are the link's count of calls that weren't ready, before
    /// and after the last step that moved nothing.
    Stalled { before: u64, after: u64 },
    /// More bytes were given than the limit allows. Both in bytes.
    LimitReached { given: u64, limit: u64 },
    /// Nothing is open there.
    Missing,
    OutOfMemory,
}

impl Drop for Error {
    fn drop(self) {
        match self {
            Error::Io(_it) => {}
            Error::UnexpectedMessage => {}
            Error::Tls(_it) => {}
            Error::ToSql(_, _it) => {}
            Error::FromSql(_, _it) => {}
            Error::Column(_it) => {}
            Error::ColumnCount => {}
            Error::Parameters(_, _) => {}
            Error::Closed => {}
            Error::Db(_it) => {}
            Error::Parse(_it) => {}
            Error::Encode(_it) => {}
            Error::Authentication(_it) => {}
            Error::ConfigParse(_it) => {}
            Error::Config(_it) => {}
            Error::RowCount => {}
            Error::Connect(_it) => {}
            Error::Stalled {
                before: _,
                after: _,
            } => {}
            Error::LimitReached { given: _, limit: _ } => {}
            Error::Missing => {}
            Error::OutOfMemory => {}
        }
    }
}

/// What an error holds.
#[derive(Debug, Drop)]
pub enum Source {
    /// What it comes from.
    Cause(Cause),
    /// The error of the server.
    Db(DbError),
}

impl Error {
    /// An error of the server. It takes memory.
    pub fn db(alloc: Global, error: DbError) -> Result<Error, OutOfMemory>
        ensures { IfOk result (λ e. e ≡ variant.Db error) }
    {
        Ok(Error::Db(Held::new(alloc, error)?))
    }

    /// The code of an error of the server.
    pub fn code(&self) -> Option<&SqlState>
        ensures { option_copied result ≡ option_map (λ e. e.code) (db_error_in self.now) }
    {
        match self {
            Error::Db(error) => Some(error.get().code()),
            _ => None,
        }
    }

    /// The error of the server.
    pub fn as_db_error(&self) -> Option<&DbError>
        ensures { option_copied result ≡ db_error_in self.now }
    {
        match self {
            Error::Db(error) => Some(error.get()),
            _ => None,
        }
    }

    /// The connection is closed.
    pub fn is_closed(&self) -> bool
        ensures { result ≡ is_closed_error self.now }
    {
        matches!(self, Error::Closed)
    }

    /// The cause or the error of the server that it holds.
    pub fn into_source(self) -> Option<Source>
        ensures { result ≡ source_in self }
    {
        match self {
            Error::Io(cause) => Some(Source::Cause(cause)),
            Error::Tls(cause) => Some(Source::Cause(cause)),
            Error::ToSql(_, cause) => Some(Source::Cause(cause)),
            Error::FromSql(_, cause) => Some(Source::Cause(cause)),
            Error::Db(error) => Some(Source::Db(error.into_inner())),
            Error::Parse(cause) => Some(Source::Cause(cause)),
            Error::Encode(cause) => Some(Source::Cause(cause)),
            Error::Authentication(cause) => Some(Source::Cause(cause)),
            Error::ConfigParse(cause) => Some(Source::Cause(cause)),
            Error::Config(cause) => Some(Source::Cause(cause)),
            Error::Connect(cause) => Some(Source::Cause(cause)),
            Error::UnexpectedMessage => None,
            Error::Column(_it) => None,
            Error::ColumnCount => None,
            Error::Parameters(_, _) => None,
            Error::Closed => None,
            Error::RowCount => None,
            Error::Stalled {
                before: _,
                after: _,
            } => None,
            Error::LimitReached { given: _, limit: _ } => None,
            Error::Missing => None,
            Error::OutOfMemory => None,
        }
    }

    /// Which kind of error it is.
    pub fn kind(&self) -> ErrorKind
        ensures { result ≡ kind_of self.now }
    {
        match self {
            Error::Io(_) => ErrorKind::Io,
            Error::UnexpectedMessage => ErrorKind::UnexpectedMessage,
            Error::Tls(_) => ErrorKind::Tls,
            Error::ToSql(_, _) => ErrorKind::ToSql,
            Error::FromSql(_, _) => ErrorKind::FromSql,
            Error::Column(_) => ErrorKind::Column,
            Error::ColumnCount => ErrorKind::ColumnCount,
            Error::Parameters(_, _) => ErrorKind::Parameters,
            Error::Closed => ErrorKind::Closed,
            Error::Db(_) => ErrorKind::Db,
            Error::Parse(_) => ErrorKind::Parse,
            Error::Encode(_) => ErrorKind::Encode,
            Error::Authentication(_) => ErrorKind::Authentication,
            Error::ConfigParse(_) => ErrorKind::ConfigParse,
            Error::Config(_) => ErrorKind::Config,
            Error::RowCount => ErrorKind::RowCount,
            Error::Connect(_) => ErrorKind::Connect,
            Error::Stalled { .. } => ErrorKind::Stalled,
            Error::LimitReached { .. } => ErrorKind::LimitReached,
            Error::Missing => ErrorKind::Missing,
            Error::OutOfMemory => ErrorKind::OutOfMemory,
        }
    }

    /// The place of the parameter or the column that it is about, from 0: of ToSql and FromSql.
    pub fn place(&self) -> Option<usize>
        ensures { result ≡ place_in self.now }
    {
        match self {
            Error::ToSql(place, _) => Some(*place),
            Error::FromSql(place, _) => Some(*place),
            _ => None,
        }
    }

    /// The two numbers of Parameters, Stalled and LimitReached, in their order there.
    pub fn numbers(&self) -> Option<(u64, u64)>
        ensures { result ≡ numbers_in self.now }
    {
        match self {
            Error::Parameters(given, expected) => Some((*given as u64, *expected as u64)),
            Error::Stalled { before, after } => Some((*before, *after)),
            Error::LimitReached { given, limit } => Some((*given, *limit)),
            _ => None,
        }
    }

    /// The cause that it holds.
    pub fn cause(&self) -> Option<&Cause>
        ensures { option_copied result ≡ cause_in self.now }
    {
        match self {
            Error::Io(cause) => Some(cause),
            Error::Tls(cause) => Some(cause),
            Error::ToSql(_, cause) => Some(cause),
            Error::FromSql(_, cause) => Some(cause),
            Error::Parse(cause) => Some(cause),
            Error::Encode(cause) => Some(cause),
            Error::Authentication(cause) => Some(cause),
            Error::ConfigParse(cause) => Some(cause),
            Error::Config(cause) => Some(cause),
            Error::Connect(cause) => Some(cause),
            _ => None,
        }
    }

    /// The SQLSTATE of an error of the server, as bytes.
    pub fn sql_state(&self) -> Option<&[u8]>
        ensures { option_map (λ state. state.now) result ≡ sql_state_in self.now }
    {
        match self {
            Error::Db(error) => Some(error.get().code().code().as_bytes()),
            _ => None,
        }
    }
}

impl From<OutOfMemory> for Error {
    ghost use Rattle.std.specs.Prelude.{◌≡◌};
    ghost use Rattle.pg_types.specs.declared.error.Error.TheVariants.{OutOfMemory};

    ghost from_gives = { λ _ e. e ≡ OutOfMemory };

    fn from(_: OutOfMemory) -> Error {
        Error::OutOfMemory
    }
}

impl From<AllocError> for Error {
    ghost use Rattle.std.specs.Prelude.{◌≡◌};
    ghost use Rattle.pg_types.specs.declared.error.Error.TheVariants.{OutOfMemory};

    ghost from_gives = { λ _ e. e ≡ OutOfMemory };

    fn from(_: AllocError) -> Error {
        Error::OutOfMemory
    }
}

/// So that `?` takes a refused `push`. What wasn't stored is dropped.
impl<T: Drop> From<AllocFailed<T>> for Error {
    ghost use Rattle.std.specs.Prelude.{◌≡◌};
    ghost use Rattle.pg_types.specs.declared.error.Error.TheVariants.{OutOfMemory};

    ghost from_gives = { λ _ e. e ≡ OutOfMemory };

    fn from(_: AllocFailed<T>) -> Error {
        Error::OutOfMemory
    }
}

impl fmt::Display for Error {
    fn fmt<W: fmt::Write>(&self, f: &mut fmt::Formatter<W>) -> fmt::Result {
        match self {
            Error::ToSql(place, _) => write!(f, "error serializing parameter {place}"),
            Error::FromSql(place, _) => write!(f, "error deserializing column {place}"),
            Error::Column(column) => write!(f, "invalid column `{}`", column.as_str()),
            Error::Parameters(given, expected) => {
                write!(f, "expected {expected} parameters but got {given}")
            }
            Error::Io(_) => f.write_str("error communicating with the server"),
            Error::UnexpectedMessage => f.write_str("unexpected message from server"),
            Error::Tls(_) => f.write_str("error performing TLS handshake"),
            Error::ColumnCount => f.write_str("query returned an unexpected number of columns"),
            Error::Closed => f.write_str("connection closed"),
            Error::Db(_) => f.write_str("db error"),
            Error::Parse(_) => f.write_str("error parsing response from server"),
            Error::Encode(_) => f.write_str("error encoding message to server"),
            Error::Authentication(_) => f.write_str("authentication error"),
            Error::ConfigParse(_) => f.write_str("invalid connection string"),
            Error::Config(_) => f.write_str("invalid configuration"),
            Error::RowCount => f.write_str("query returned an unexpected number of rows"),
            Error::Connect(_) => f.write_str("error connecting to server"),
            Error::Stalled { .. } => f.write_str("connection stalled"),
            Error::LimitReached { .. } => f.write_str("byte limit reached"),
            Error::Missing => f.write_str("nothing open there"),
            Error::OutOfMemory => f.write_str("out of memory"),
        }
    }
}

impl std::error::Error for Error {}
