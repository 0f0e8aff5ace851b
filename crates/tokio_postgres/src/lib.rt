//! An asynchronous, pipelined PostgreSQL client, by the names and at the paths of the Rust crate `tokio-postgres`.
#![tactic(auto)]

pub mod config;
pub mod error;
pub mod row;
pub mod states;
pub mod tls;
pub mod types;

pub use pg_calls::{
    CancelToken, Client, IsolationLevel, Opens, Polled, Portal, RowStream, Scalar, SessionInfo,
    SimpleQueryMessage, SimpleQueryStream, Target, Transaction, TransactionBuilder,
};
pub use pg_config::Config;
pub use pg_desk::{Column, Desk, Engine, Stamp, Statement};
pub use pg_drive::{Drive, Line, Running, Task, open};
pub use pg_errors::{AsyncMessage, Error, Notification};
pub use pg_hub::Hub;
pub use pg_open::{
    CancelQuery, CancelStage, ConnectRaw, MaybeTls, NoTls, Opened, StreamOf, connect_raw,
};
pub use pg_rows::{Row, RowIndex, SimpleColumn, SimpleColumns, SimpleQueryRow};
pub use pg_stream::StreamLink;
pub use pg_wire::{Link, LinkRead, LinkStep, LinkWait, LinkWrite, MemoryLink};

/// A connection over a link, or over the stream that a connector makes of it, which is of type `T`.
pub type Connection<L, T> = pg_connect::Connection<MaybeTls<L, StreamOf<L, T>>>;
