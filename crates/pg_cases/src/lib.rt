//! What the programs of cases share: the words of a line, bytes as they print, messages as shared bytes.
#![tactic(auto)]

mod line;
pub mod shared;
pub mod words;
pub mod written;

pub use line::words_of;
