//! Cases of replies, session texts, reports and machines as texts: reads a case a line from standard input, and prints
//! beside each what it gives.
#![tactic(auto)]

mod case;
mod list;
mod machines;
mod named;
mod replies;
mod reports;
mod said;
mod sessions;

use pg_cases::words::text_at;
use std::alloc::AllocError;
use std::io;

/// The line, and what its case gives. What is said on standard error is also said there.
fn row(rt: &HostRuntime, line: &str, out: &mut String) -> Result<(), AllocError> {
    match pg_cases::words_of(rt.alloc(), line, out)? {
        Some(words) => {
            if text_at(words.as_slice(), 0) == "says" {
                said::tell_aloud(rt, words.as_slice());
            }
            case::tell(rt.alloc(), words.as_slice(), out)
        }
        None => Ok(()),
    }
}

fn main(rt: HostRuntime) -> io::Result<()> {
    for line in rt.lines(rt.alloc()) {
        let mut out = String::new(rt.alloc());
        match row(&rt, line?.as_str(), &mut out) {
            Ok(()) => println!(rt; "{out}")?,
            Err(AllocError) => println!(rt; "out of memory")?,
        }
    }
    Ok(())
}
