//! Cases of what goes over the wire: frames, messages and errors, the server half, and a link over a reader and a writer.
//! Reads a case a line from standard input, and prints beside each what it gives.
#![tactic(auto)]

mod asides;
mod batches;
mod calls;
mod case;
mod db_errors;
mod errors;
mod feeds;
mod frames;
mod input;
mod links;
mod messages;
mod named;
mod output;
mod read_frames;
mod server_cases;
mod steps;
mod told;

use std::alloc::{AllocError, Global};
use std::io;

/// The line, and what its case gives.
fn row(alloc: Global, line: &str, out: &mut String) -> Result<(), AllocError> {
    match pg_cases::words_of(alloc, line, out)? {
        Some(words) => case::tell(alloc, words.as_slice(), out),
        None => Ok(()),
    }
}

fn main(rt: HostRuntime) -> io::Result<()> {
    for line in rt.lines(rt.alloc()) {
        let mut out = String::new(rt.alloc());
        match row(rt.alloc(), line?.as_str(), &mut out) {
            Ok(()) => println!(rt; "{out}")?,
            Err(AllocError) => println!(rt; "out of memory")?,
        }
    }
    Ok(())
}
