//! Cases of calls of a client: reads a case a line from standard input, polls each to its answer over a link in memory, and
//! prints beside it what the call answered and which frames the server got.
#![tactic(auto)]

mod asked;
mod calls;
mod case;
mod executions;
mod given_up;
mod others;
mod plain;
mod session;
mod streams;
mod targets;
mod typed;

use std::alloc::{AllocError, AllocGlobal};
use std::io;
use std::random::RandomSource;
use std::sync::Wait;

/// The line, and what its case gives.
fn row<R: Wait + RandomSource + AllocGlobal>(
    rt: &R,
    line: &str,
    out: &mut String,
) -> Result<(), AllocError> {
    match pg_cases::words_of(rt.alloc(), line, out)? {
        Some(words) => calls::tell(rt, words.as_slice(), out),
        None => Ok(()),
    }
}

fn main(rt: HostRuntime) -> io::Result<()> {
    for line in rt.lines(rt.alloc()) {
        let mut out = String::new(rt.alloc());
        match row(&rt, line?.as_str(), &mut out) {
            Ok(()) => println!(rt; "{out}")?,
            Err(AllocError) => println!(rt; "out of memory")?,
        }
    }
    Ok(())
}
