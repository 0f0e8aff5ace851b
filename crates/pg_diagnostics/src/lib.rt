//! What the programs say on standard error where they end with another status than 0.
#![tactic(auto)]

mod cause;
mod front;
mod laws;
mod reason;
mod telling;

pub use cause::{cause_words, error_words};
pub use front::Front;
pub use laws::causes_have_their_own_words;
pub use reason::{Reason, VERSION, code_in_form, message, reason_of};
pub use telling::tell;
