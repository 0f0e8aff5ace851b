//! Why there are no settings or attempts.

use pg_errors::{Cause, Error};
use std::alloc::AllocError;

fn tell_key(cause: &str, key: &str, out: &mut String) -> Result<(), AllocError> {
    write!(out, " refused {cause} {key:?}")
}

fn tell_error(error: &Error, out: &mut String) -> Result<(), AllocError> {
    write!(out, " refused {error:?}")
}

/// Why there is no value. A key is told as a text.
pub(crate) fn tell(error: &Error, out: &mut String) -> Result<(), AllocError> {
    match error {
        Error::ConfigParse(Cause::UnknownOption(key)) => tell_key(
            "UnknownOption",
            key.as_str(),
            out,
        ),
        Error::ConfigParse(Cause::InvalidValue(key)) => tell_key("InvalidValue", key.as_str(), out),
        _ => tell_error(error, out),
    }
}
