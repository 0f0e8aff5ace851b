//! Connection strings, in both forms (PostgreSQL documentation, "Connection Strings").

ghost use Rattle.std.specs.Prelude.{◌≡◌, IfOk, Result, option_map};
ghost use Rattle.std.specs.Str.{chars};
ghost use Rattle.pg_config.specs.declared.config.Config.{Config};
ghost use Rattle.pg_config.specs.ConnectionStringReading as spec;
ghost use Rattle.pg_config.specs.ConnectionStrings.{ConnectionStringMeans};
ghost use Rattle.pg_config.specs.Outcomes.{IsAnswered};

use crate::config::Config;
use crate::key_value::read_key_values;
use crate::url_parameter::read_url;
use pg_types::{Cause, Error, OutOfMemory};
use std::alloc::Global;

impl Config {
    /// Reads a connection string: a URL where it begins with `postgres://` or `postgresql://`, else keys
    /// and values. ConfigParse comes exactly where it is none, with its first fault: Syntax,
    /// UnknownOption with the key, InvalidValue with the key, or NotUtf8. Whether a key is known and its
    /// value in form is judged once the whole parameter was read and decoded.
    pub fn from_str(alloc: Global, s: &str) -> Result<Config, Error>
        ensures answer { (said : Result Config Cause) × ConnectionStringMeans s.now said × IsAnswered said result }
        ensures only { (said : Result Config Cause) → ConnectionStringMeans s.now said → IsAnswered said result }
    {
        match behind_scheme(s.as_bytes()) {
            Some(rest) => read_url(alloc, rest),
            None => {
                let characters = characters_of(alloc, s)?;
                read_key_values(alloc, characters.as_slice())
            }
        }
    }
}

/// What stands behind the scheme of a URL.
fn behind_scheme(text: &[u8]) -> Option<&[u8]>
    ensures { option_map (λ rest. rest.now) result ≡ spec.behind_scheme text.now }
{
    if text.starts_with(b"postgres://".as_slice()) {
        return Some(&text[11..]);
    }
    if text.starts_with(b"postgresql://".as_slice()) {
        return Some(&text[13..]);
    }
    None
}

fn characters_of(alloc: Global, s: &str) -> Result<Vec<char>, OutOfMemory>
    ensures { IfOk result (λ characters. characters.items ≡ chars s.now) }
{
    Ok(s.chars().collect(alloc)?)
}
