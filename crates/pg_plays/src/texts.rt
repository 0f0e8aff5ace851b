//! Session texts that stand one after another, each behind a head: a line `== WORD NAME` with the word of
//! the program and what the session shows. Lines before the first head are passed over.

use std::alloc::{AllocError, Global};

/// What a head begins with.
const HEAD: &str = "== ";

/// The session text that is being read.
#[derive(Drop)]
pub(crate) struct Texts {
    head: String,
    text: String,
}

impl Texts {
    /// No session yet.
    pub(crate) fn new(alloc: Global) -> Texts {
        Texts {
            head: String::new(alloc),
            text: String::new(alloc),
        }
    }

    /// This line is the head of another session, and so a session that began before is whole.
    pub(crate) fn is_whole(&self, line: &str) -> bool {
        line.starts_with(HEAD) && !self.head.is_empty()
    }

    /// Takes a line.
    pub(crate) fn take(&mut self, line: &str) -> Result<(), AllocError> {
        if line.starts_with(HEAD) {
            self.head.clear();
            self.text.clear();
            return self.head.push_str(line);
        }
        self.text.push_str(line)?;
        self.text.push_str("\n")
    }

    /// The word of the program, and what stands behind it.
    fn parts(&self) -> (&str, &str) {
        let Some(head) = self.head.as_str().strip_prefix(HEAD) else {
            return ("", "");
        };
        match head.split_once(' ') {
            Some(parts) => parts,
            None => (head, ""),
        }
    }

    /// The word of the program.
    pub(crate) fn word(&self) -> &str {
        self.parts().0
    }

    /// What stands behind the word.
    pub(crate) fn name(&self) -> &str {
        self.parts().1
    }

    /// The lines of the session.
    pub(crate) fn text(&self) -> &str {
        self.text.as_str()
    }

    /// Appends the head and the lines.
    pub(crate) fn tell(&self, out: &mut String) -> Result<(), AllocError> {
        out.push_str(self.head.as_str())?;
        out.push_str("\n")?;
        out.push_str(self.text.as_str())
    }
}
