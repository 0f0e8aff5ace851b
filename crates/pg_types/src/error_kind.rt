//! The kinds of errors.

/// The variants of `Error`, without what they hold. As a number, a kind is its place in this list, from
/// 0.
#[derive(Clone, Copy, Debug, PartialEq, Eq, Drop)]
pub enum ErrorKind {
    Io,
    UnexpectedMessage,
    Tls,
    ToSql,
    FromSql,
    Column,
    ColumnCount,
    Parameters,
    Closed,
    Db,
    Parse,
    Encode,
    Authentication,
    ConfigParse,
    Config,
    RowCount,
    Connect,
    Stalled,
    LimitReached,
    Missing,
    OutOfMemory,
}
