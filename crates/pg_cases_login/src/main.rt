//! Cases of settings, logins and openings: reads a case a line from standard input, and prints beside each what it gives.
#![tactic(auto)]

mod attempts;
mod cancels;
mod case;
mod checks;
mod connector;
mod endings;
mod open_cases;
mod opens;
mod passwords;
mod refusal;
mod scram;
mod scram_cases;
mod setting;
mod settings;

use std::alloc::{AllocError, Global};
use std::io;

/// The line, and what its case gives.
fn row(alloc: Global, line: &str, out: &mut String) -> Result<(), AllocError> {
    match pg_cases::words_of(alloc, line, out)? {
        Some(words) => case::tell(alloc, words.as_slice(), out),
        None => Ok(()),
    }
}

fn main(rt: HostRuntime) -> io::Result<()> {
    for line in rt.lines(rt.alloc()) {
        let mut out = String::new(rt.alloc());
        match row(rt.alloc(), line?.as_str(), &mut out) {
            Ok(()) => println!(rt; "{out}")?,
            Err(AllocError) => println!(rt; "out of memory")?,
        }
    }
    Ok(())
}
