//! The first call of the repository's README, word for word from here on: `scripts/first-call` compares them.

use std::alloc::{AllocGlobal, Global};
use std::random::RandomSource;
use std::sync::Wait;
use tokio_postgres::types::Value;
use tokio_postgres::{
    Client, Config, Error, Hub, Line, Link, NoTls, RowIndex, Stamp, Target, connect_raw, open,
};

/// Opens a connection over a link, asks for a sum, and closes it.
pub fn sum<R: Wait + RandomSource + AllocGlobal, L: Link + Drop>(
    rt: &R,
    alloc: Global,
    link: L,
) -> Result<i32, Error> {
    let config = Config::from_str(alloc, "user=a")?;
    let nonce = b"abcdefghijklmnopqrstuvwx";
    let mut raw = connect_raw(link, NoTls, false, &config, nonce, 1 << 40);
    let opened = open(rt, alloc, &mut raw)?;
    let client = Client::new(0, &opened.info);
    let mut line = Line::new(alloc, opened.connection, Hub::new(alloc, 0, 0));
    let values = [Value::Int(20), Value::Int(22)];
    let query = client.query_one(Target::Query("SELECT $1::int4 + $2 AS sum"), &values[..]);
    let row = line.ask(rt, alloc, query, Stamp::new(0, 0, 0));
    let _ = line.close(rt, alloc);
    row?.try_get(alloc, RowIndex::Name("sum"))
}
