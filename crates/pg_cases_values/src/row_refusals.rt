//! Why there is no row, or no value.

use pg_errors::{Cause, Error};
use std::alloc::AllocError;

fn tell_cause(cause: Option<&Cause>, out: &mut String) -> Result<(), AllocError> {
    match cause {
        Some(cause) => write!(out, " {cause:?}"),
        None => Ok(()),
    }
}

/// The sentence of an error, and its cause.
pub(crate) fn tell(error: &Error, out: &mut String) -> Result<(), AllocError> {
    if let Error::OutOfMemory = error {
        return Err(AllocError);
    }
    write!(out, " {error}")?;
    tell_cause(error.cause(), out)
}
