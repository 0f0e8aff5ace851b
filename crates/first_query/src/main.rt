//! The README's first call, over a link in memory.
#![tactic(auto)]

mod first_call;

use std::alloc::{AllocError, Global};
use std::io;
use tokio_postgres::MemoryLink;

/// What the server gives: to the startup AuthenticationOk and ReadyForQuery; then the statement, with two parameters and a column, its
/// row, and that it is closed (PostgreSQL documentation, "Message Flow").
const PLAN: [&[u8]; 4] = [
    b"R\0\0\0\x08\0\0\0\0Z\0\0\0\x05I",
    b"1\0\0\0\x04t\0\0\0\x0e\0\x02\0\0\0\x17\0\0\0\x17T\0\0\0\x1c\0\x01sum\0\0\0\0\0\0\0\0\0\0\x17\0\x04\xff\xff\xff\xff\0\0Z\0\0\0\x05I",
    b"2\0\0\0\x04D\0\0\0\x0e\0\x01\0\0\0\x04\0\0\0*C\0\0\0\x0dSELECT 1\0Z\0\0\0\x05I",
    b"3\0\0\0\x04Z\0\0\0\x05I",
];

/// A link that gives that.
fn link_of(alloc: Global) -> Result<MemoryLink, AllocError> {
    let mut plan = Vec::new(alloc);
    for entry in PLAN {
        plan.push(Vec::from_slice(alloc, entry)?)?;
    }
    Ok(MemoryLink::new(alloc, plan, 8192, 8192, false))
}

fn main(rt: HostRuntime) -> io::Result<()> {
    let Ok(link) = link_of(rt.alloc()) else {
        return println!(rt; "out of memory");
    };
    match first_call::sum(&rt, rt.alloc(), link) {
        Ok(sum) => println!(rt; "{sum}"),
        Err(error) => println!(rt; "{error}"),
    }
}
