//! The parameters of a URL (PostgreSQL documentation, "Connection URIs").

ghost use Rattle.std.specs.Prelude.{◌≡◌, ◌<◌, length, unwrap_or, option_map, Result, []};
ghost use Rattle.pg_config.specs.declared.config.Config.{Config};
ghost use Rattle.pg_config.specs.Outcomes.{Becomes, IsAnswered};
ghost use Rattle.pg_config.specs.ParameterReading.{Says};
ghost use Rattle.pg_config.specs.UrlReading.{UrlSays, parameter_at, query};
ghost use Rattle.pg_config.specs.Urls.{parameter};
ghost use Rattle.pg_config.specs.UrlFronts.{LeavesLess, stands_view};

use crate::config::Config;
use crate::piece::cut;
use crate::url::{after_login, cut_hosts, decode_text};
use pg_types::{Cause, Error};
use std::alloc::Global;

/// What the parameters of a URL begin with.
#[derive(Clone, Copy, Drop)]
enum Stands<'a> {
    /// Nothing more.
    Done,
    /// No `=`.
    Broken,
    Parameter {
        key: &'a [u8],
        value: &'a [u8],
        rest: &'a [u8],
    },
}

/// The settings that a URL says behind its scheme.
pub(crate) fn read_url(alloc: Global, text: &[u8]) -> Result<Config, Error>
    ensures { (said : Result Config Cause) → UrlSays text.now said → IsAnswered said result }
{
    let mut config = Config::new(alloc);
    config.open_url(alloc, text)?;
    read_parameters(alloc, query_of(text), config)
}

/// The settings, after these parameters.
fn read_parameters(alloc: Global, text: &[u8], config: Config) -> Result<Config, Error>
    ensures { (said : Result Config Cause) → Says parameter_at parameter text.now config said → IsAnswered said result }
{
    let mut config = config;
    let mut rest = text;
    'parameters: loop {
        match read_stands(rest) {
            Stands::Parameter {
                key,
                value,
                rest: behind,
            } => {
                config.url_param(alloc, key, value)?;
                rest = behind;
            }
            Stands::Done => return Ok(config),
            Stands::Broken => return Err(Error::ConfigParse(Cause::Syntax)),
        }
    }
}

/// A key, `=`, and a value up to `&` or the end.
fn read_stands(text: &[u8]) -> Stands<'_>
    ensures stands { stands_view result ≡ parameter_at text.now }
    ensures shorter { LeavesLess (length text.now) result }
{
    if text.is_empty() {
        return Stands::Done;
    }
    match cut(text, b'=') {
        (key, Some(behind)) => {
            let (value, rest) = cut(behind, b'&');
            Stands::Parameter {
                key,
                value,
                rest: or_nothing(rest),
            }
        }
        (_, None) => Stands::Broken,
    }
}

fn or_nothing<'a>(rest: Option<&'a [u8]>) -> &'a [u8]
    ensures { result.now ≡ unwrap_or (option_map (λ rest. rest.now) rest.entry) [] }
{
    match rest {
        Some(rest) => rest,
        None => &[],
    }
}

/// The parameters, behind a question mark.
fn query_of(text: &[u8]) -> &[u8]
    ensures { result.now ≡ query text.now }
{
    let (_, behind) = cut_hosts(after_login(text));
    let (_, parameters) = cut(behind, b'?');
    or_nothing(parameters)
}

impl Config {
    /// Sets what a parameter says. A host is one host, also where a comma stands in it.
    fn url_param(&mut self, alloc: Global, key: &[u8], value: &[u8]) -> Result<(), Error>
        ensures { Becomes (parameter key.now value.now self.old) self.new result }
    {
        let key = decode_text(alloc, key)?;
        let value = decode_text(alloc, value)?;
        if key.as_str() == "host" {
            self.host(alloc, value.as_str())?;
            return Ok(());
        }
        self.param(alloc, key.as_str(), value.as_str())
    }
}
