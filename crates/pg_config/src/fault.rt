//! Why a text isn't a connection string.

ghost use Rattle.std.specs.Prelude.{Err};
ghost use Rattle.pg_config.specs.declared.config.Config.{Config};
ghost use Rattle.pg_config.specs.Outcomes.{HasFault};

use pg_types::{Cause, Error, Text};
use std::alloc::Global;

/// The value of this setting is out of form.
pub(crate) fn invalid_value(alloc: Global, key: &str) -> Error
    ensures { HasFault {A = Config} (Err (Cause.InvalidValue key.now)) result }
{
    match Text::from_str(alloc, key) {
        Ok(key) => Error::ConfigParse(Cause::InvalidValue(key)),
        Err(_) => Error::OutOfMemory,
    }
}

/// There is no setting of this name.
pub(crate) fn unknown_option(alloc: Global, key: &str) -> Error
    ensures { HasFault {A = Config} (Err (Cause.UnknownOption key.now)) result }
{
    match Text::from_str(alloc, key) {
        Ok(key) => Error::ConfigParse(Cause::UnknownOption(key)),
        Err(_) => Error::OutOfMemory,
    }
}
