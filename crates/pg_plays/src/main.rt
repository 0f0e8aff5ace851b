//! Plays the session texts of standard input one after another, each by a program's own call, and prints
//! what each gives.
#![tactic(auto)]

mod alike;
mod outputs;
mod played;
mod rehearsed;
mod taken;
mod texts;

use std::alloc::{AllocError, Global};
use std::io;
use texts::Texts;

/// What the program gives for a word and a text, and what the link of a session took.
fn tell_played(alloc: Global, word: &str, text: &str, out: &mut String) -> Result<(), AllocError> {
    played::tell(alloc, word, text, out)?;
    taken::tell(alloc, word, text, out)
}

/// A session, and what it gives.
fn told(alloc: Global, texts: &Texts) -> Result<String, AllocError> {
    let mut out = String::new(alloc);
    texts.tell(&mut out)?;
    match texts.word() {
        "rehearse" => rehearsed::tell(alloc, texts.name(), texts.text(), &mut out)?,
        word => tell_played(alloc, word, texts.text(), &mut out)?,
    }
    Ok(out)
}

fn main(rt: HostRuntime) -> io::Result<()> {
    let mut texts = Texts::new(rt.alloc());
    for line in rt.lines(rt.alloc()) {
        let line = line?;
        if texts.is_whole(line.as_str()) {
            let text = told(rt.alloc(), &texts)?;
            println!(rt; "{text}")?;
        }
        texts.take(line.as_str())?;
    }
    let text = told(rt.alloc(), &texts)?;
    println!(rt; "{text}")
}
