//! The URL form of connection strings, up to its parameters (PostgreSQL documentation, "Connection URIs").

ghost use Rattle.std.specs.Prelude.{◌≡◌, IfOk, MatchResult, Ok, codes, false, option_map, true, unwrap_or};
ghost use Rattle.std.specs.Str.{byte, is_utf8};
ghost use Rattle.percent_encoding.specs.Percent.{percent_decode};
ghost use Rattle.pg_config.specs.KeyValueReading.{behind_while, front_while};
ghost use Rattle.pg_config.specs.Outcomes.{Becomes, IsAnswered};
ghost use Rattle.pg_config.specs.Pieces.{pieces};
ghost use Rattle.pg_config.specs.UrlReading as spec;
ghost use Rattle.pg_config.specs.UrlReading.{is_of_hosts, opening};
ghost use Rattle.pg_config.specs.Urls as grammar;

use crate::config::Config;
use crate::fault::invalid_value;
use crate::piece::cut;
use pg_types::{Cause, Error, OutOfMemory, Text};
use std::alloc::Global;

/// The port of a host that says none: `DEFAULT_PORT`, as an option spells it.
const PORT_TEXT: &[u8] = b"5432";

impl Config {
    /// Sets what a URL says behind its scheme, up to its parameters.
    pub(crate) fn open_url(&mut self, alloc: Global, text: &[u8]) -> Result<(), Error>
        ensures { Becomes (opening text.now self.old) self.new result }
    {
        self.login(alloc, text)?;
        self.places_and_database(alloc, after_login(text))
    }

    /// The part before the first `@`: a user, or a user, a colon and a password.
    fn login(&mut self, alloc: Global, text: &[u8]) -> Result<(), Error>
        ensures { Becomes (spec.login text.now self.old) self.new result }
    {
        match cut(text, b'@') {
            (named, Some(_)) => self.named_user(alloc, named),
            (_, None) => Ok(()),
        }
    }

    fn named_user(&mut self, alloc: Global, text: &[u8]) -> Result<(), Error>
        ensures { Becomes (spec.named_user text.now self.old) self.new result }
    {
        let (user, password) = cut(text, b':');
        let user = decode_text(alloc, user)?;
        self.user = Some(user);
        match password {
            Some(password) => {
                let password = decode_bytes(alloc, password)?;
                self.password(alloc, password.as_slice())?;
                Ok(())
            }
            None => Ok(()),
        }
    }

    /// The hosts and the database, behind the login.
    fn places_and_database(&mut self, alloc: Global, text: &[u8]) -> Result<(), Error>
        ensures { Becomes (spec.places_and_database text.now self.old) self.new result }
    {
        let (hosts, behind) = cut_hosts(text);
        self.places(alloc, hosts)?;
        self.database(alloc, behind)
    }

    /// The hosts, between commas, if there are any.
    fn places(&mut self, alloc: Global, text: &[u8]) -> Result<(), Error>
        ensures { Becomes (spec.places text.now self.old) self.new result }
    {
        if text.is_empty() {
            return Ok(());
        }
        self.each_place(alloc, text)
    }

    fn each_place(&mut self, alloc: Global, text: &[u8]) -> Result<(), Error>
        ensures { Becomes (spec.each_place (pieces (byte ",") text.now) self.old) self.new result }
    {
        let mut rest = Some(text);
        while let Some(text) = rest {
            let (piece, behind) = cut(text, b',');
            self.place(alloc, piece)?;
            rest = behind;
        }
        Ok(())
    }

    /// One host with its port.
    fn place(&mut self, alloc: Global, piece: &[u8]) -> Result<(), Error>
        ensures { Becomes (spec.place piece.now self.old) self.new result }
    {
        match piece {
            [b'[', text @ ..] => self.bracketed(alloc, text),
            _ => {
                let (host, port) = cut(piece, b':');
                self.placed(alloc, host, port_or_default(port))
            }
        }
    }

    /// Behind a bracket: a host, a bracket, and a colon and a port, or nothing.
    fn bracketed(&mut self, alloc: Global, text: &[u8]) -> Result<(), Error>
        ensures { Becomes (spec.bracketed text.now self.old) self.new result }
    {
        let (host, behind) = cut(text, b']');
        match behind {
            Some([]) => self.placed(alloc, host, PORT_TEXT),
            Some([b':', port @ ..]) => self.placed(alloc, host, port),
            _ => Err(invalid_value(alloc, "host")),
        }
    }

    fn placed(&mut self, alloc: Global, host: &[u8], port: &[u8]) -> Result<(), Error>
        ensures { Becomes (grammar.placed host.now port.now self.old) self.new result }
    {
        let host = decode_text(alloc, host)?;
        let port = decode_text(alloc, port)?;
        self.host(alloc, host.as_str())?;
        self.param(alloc, "port", port.as_str())
    }

    /// Behind a slash the database, up to the parameters. Where it is empty, it isn't set.
    fn database(&mut self, alloc: Global, text: &[u8]) -> Result<(), Error>
        ensures { Becomes (spec.database text.now self.old) self.new result }
    {
        match text {
            [b'/', name @ ..] => {
                let (name, _) = cut(name, b'?');
                self.database_name(alloc, name)
            }
            _ => Ok(()),
        }
    }

    fn database_name(&mut self, alloc: Global, name: &[u8]) -> Result<(), Error>
        ensures { Becomes (grammar.database_name name.now self.old) self.new result }
    {
        if name.is_empty() {
            return Ok(());
        }
        let name = decode_text(alloc, name)?;
        self.dbname = Some(name);
        Ok(())
    }
}

/// What stands behind the login.
pub(crate) fn after_login(text: &[u8]) -> &[u8]
    ensures { result.now ≡ spec.after_login text.now }
{
    match cut(text, b'@') {
        (_, Some(rest)) => rest,
        (_, None) => text,
    }
}

/// The part with the hosts, and what stands behind it.
pub(crate) fn cut_hosts(text: &[u8]) -> (&[u8], &[u8])
    ensures front { result.0.now ≡ front_while is_of_hosts text.now }
    ensures behind { result.1.now ≡ behind_while is_of_hosts text.now }
{
    for at in 0..text.len() {
        if text[at] == b'/' || text[at] == b'?' {
            return (&text[..at], &text[at..]);
        }
    }
    (text, &text[text.len()..])
}

fn port_or_default<'a>(port: Option<&'a [u8]>) -> &'a [u8]
    ensures { result.now ≡ unwrap_or (option_map (λ port. port.now) port.entry) (codes "5432") }
{
    match port {
        Some(port) => port,
        None => PORT_TEXT,
    }
}

/// The text that stands there with its escapes (RFC 3986, section 2.1). NotUtf8 comes where it is none.
pub(crate) fn decode_text(alloc: Global, escaped: &[u8]) -> Result<Text, Error>
    ensures { IsAnswered (grammar.in_text escaped.now (λ text. Ok text)) result }
{
    let bytes = decode_bytes(alloc, escaped)?;
    Ok(Text::from_str(alloc, utf8(bytes.as_slice())?)?)
}

/// The bytes as a text, or NotUtf8.
fn utf8(bytes: &[u8]) -> Result<&str, Error>
    ensures { MatchResult result
        (λ text. (text.now ≡ bytes.now) × (is_utf8 bytes.now ≡ true))
        (λ e. (e ≡ Error.ConfigParse Cause.NotUtf8) × (is_utf8 bytes.now ≡ false)) }
{
    match str::from_utf8(bytes) {
        Ok(text) => Ok(text),
        Err(_) => Err(Error::ConfigParse(Cause::NotUtf8)),
    }
}

/// The bytes that stand there with their escapes.
fn decode_bytes(alloc: Global, escaped: &[u8]) -> Result<Vec<u8>, OutOfMemory>
    ensures { IfOk result (λ bytes. bytes.items ≡ percent_decode escaped.now) }
{
    let mut bytes = Vec::new(alloc);
    percent_encoding::percent_decode(escaped).append_to(&mut bytes)?;
    Ok(bytes)
}
