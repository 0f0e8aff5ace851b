//! What a setting's name and value mean.

ghost use Rattle.std.specs.Prelude.{◌≡◌, ◌++◌, map, IfOk, OnOk, option_map};
ghost use Rattle.std.specs.Str.{byte};
ghost use Rattle.pg_config.specs.Addresses.{address_of};
ghost use Rattle.pg_config.specs.Options.{applies, choice_options, number_options, options, place_options, port_of, said_by, text_options, time_options};
ghost use Rattle.pg_config.specs.Outcomes.{Becomes, Tries};
ghost use Rattle.pg_config.specs.Pieces.{IsCut, all_of, pieces};
ghost use Rattle.pg_config.specs.Settings.{host_of};

use crate::address::read_address;
use crate::config::Config;
use crate::fault::{invalid_value, unknown_option};
use crate::host::{DEFAULT_PORT, IpAddr};
use crate::modes::{ChannelBinding, LoadBalanceHosts, SslMode, SslNegotiation, TargetSessionAttrs};
use crate::number::{read_seconds, read_unsigned};
use crate::piece::cut;
use pg_types::{Error, OutOfMemory};
use std::alloc::Global;

/// The most retries that can be set.
const MOST_RETRIES: u64 = u32::MAX as u64;

impl Config {
    /// Sets what this key and value say. UnknownOption comes where there is no setting of this name,
    /// InvalidValue where the value is out of its form.
    pub(crate) fn param(&mut self, alloc: Global, key: &str, value: &str) -> Result<(), Error>
        ensures { Becomes (applies key.now value.now self.old) self.new result }
    {
        if !self.any_option(alloc, key, value)? {
            return Err(unknown_option(alloc, key));
        }
        Ok(())
    }

    /// Sets it, if there is a setting of this name.
    fn any_option(&mut self, alloc: Global, key: &str, value: &str) -> Result<bool, Error>
        ensures { Tries (said_by options key.now value.now self.old) self.old self.new result }
    {
        if self.text_param(alloc, key, value)? {
            return Ok(true);
        }
        if self.place_param(alloc, key, value)? {
            return Ok(true);
        }
        if self.time_param(alloc, key, value)? {
            return Ok(true);
        }
        if self.number_param(alloc, key, value)? {
            return Ok(true);
        }
        self.choice_param(alloc, key, value)
    }

    /// Settings that take any text.
    fn text_param(&mut self, alloc: Global, key: &str, value: &str) -> Result<bool, Error>
        ensures { Tries (said_by text_options key.now value.now self.old) self.old self.new result }
    {
        if key == "user" {
            self.user(alloc, value)?;
            return Ok(true);
        }
        if key == "password" {
            self.password(alloc, value.as_bytes())?;
            return Ok(true);
        }
        if key == "dbname" {
            self.dbname(alloc, value)?;
            return Ok(true);
        }
        if key == "options" {
            self.options(alloc, value)?;
            return Ok(true);
        }
        if key == "application_name" {
            self.application_name(alloc, value)?;
            return Ok(true);
        }
        Ok(false)
    }

    /// Settings that are added, between commas.
    fn place_param(&mut self, alloc: Global, key: &str, value: &str) -> Result<bool, Error>
        ensures { Tries (said_by place_options key.now value.now self.old) self.old self.new result }
    {
        if key == "host" {
            self.add_hosts(alloc, value)?;
            return Ok(true);
        }
        if key == "hostaddr" {
            let Some(addresses) = read_addresses(alloc, value.as_bytes())? else {
                return Err(invalid_value(alloc, key));
            };
            self.add_addresses(addresses.as_slice())?;
            return Ok(true);
        }
        if key == "port" {
            let Some(ports) = read_ports(alloc, value.as_bytes())? else {
                return Err(invalid_value(alloc, key));
            };
            self.add_ports(ports.as_slice())?;
            return Ok(true);
        }
        Ok(false)
    }

    /// Adds the hosts between commas.
    fn add_hosts(&mut self, alloc: Global, text: &str) -> Result<(), OutOfMemory>
        ensures { OnOk result (self.new ≡ record self.old { hosts = self.old.hosts ++ map host_of (pieces (byte ",") text.now) }) }
    {
        let mut rest = Some(text);
        while let Some(text) = rest {
            let (piece, behind) = cut_text(text);
            self.host(alloc, piece)?;
            rest = behind;
        }
        Ok(())
    }

    fn add_addresses(&mut self, addresses: &[IpAddr]) -> Result<(), OutOfMemory>
        ensures { OnOk result (self.new ≡ record self.old { hostaddrs = self.old.hostaddrs ++ addresses.now }) }
    {
        for address in addresses {
            self.hostaddr(*address)?;
        }
        Ok(())
    }

    fn add_ports(&mut self, ports: &[u16]) -> Result<(), OutOfMemory>
        ensures { OnOk result (self.new ≡ record self.old { ports = self.old.ports ++ ports.now }) }
    {
        for port in ports {
            self.port(*port)?;
        }
        Ok(())
    }

    /// Settings that are times, in seconds.
    fn time_param(&mut self, alloc: Global, key: &str, value: &str) -> Result<bool, Error>
        ensures { Tries (said_by time_options key.now value.now self.old) self.old self.new result }
    {
        if key == "connect_timeout" {
            let Some(seconds) = read_seconds(value.as_bytes()) else {
                return Err(invalid_value(alloc, key));
            };
            if seconds != 0 {
                self.connect_timeout(seconds);
            }
            return Ok(true);
        }
        if key == "tcp_user_timeout" {
            let Some(seconds) = read_seconds(value.as_bytes()) else {
                return Err(invalid_value(alloc, key));
            };
            if seconds != 0 {
                self.tcp_user_timeout(seconds);
            }
            return Ok(true);
        }
        if key == "keepalives_idle" {
            let Some(seconds) = read_seconds(value.as_bytes()) else {
                return Err(invalid_value(alloc, key));
            };
            if seconds != 0 {
                self.keepalives_idle(seconds);
            }
            return Ok(true);
        }
        if key == "keepalives_interval" {
            let Some(seconds) = read_seconds(value.as_bytes()) else {
                return Err(invalid_value(alloc, key));
            };
            if seconds != 0 {
                self.keepalives_interval(seconds);
            }
            return Ok(true);
        }
        Ok(false)
    }

    /// Settings that are numbers.
    fn number_param(&mut self, alloc: Global, key: &str, value: &str) -> Result<bool, Error>
        ensures { Tries (said_by number_options key.now value.now self.old) self.old self.new result }
    {
        if key == "keepalives" {
            let Some(number) = read_unsigned(value.as_bytes(), u64::MAX) else {
                return Err(invalid_value(alloc, key));
            };
            self.keepalives(number != 0);
            return Ok(true);
        }
        if key == "keepalives_retries" {
            let Some(number) = read_unsigned(value.as_bytes(), MOST_RETRIES) else {
                return Err(invalid_value(alloc, key));
            };
            self.keepalives_retries(number as u32);
            return Ok(true);
        }
        Ok(false)
    }

    /// Settings that choose between words.
    fn choice_param(&mut self, alloc: Global, key: &str, value: &str) -> Result<bool, Error>
        ensures { Tries (said_by choice_options key.now value.now self.old) self.old self.new result }
    {
        if key == "sslmode" {
            let Some(word) = SslMode::named(value) else {
                return Err(invalid_value(alloc, key));
            };
            self.ssl_mode(word);
            return Ok(true);
        }
        if key == "sslnegotiation" {
            let Some(word) = SslNegotiation::named(value) else {
                return Err(invalid_value(alloc, key));
            };
            self.ssl_negotiation(word);
            return Ok(true);
        }
        if key == "target_session_attrs" {
            let Some(word) = TargetSessionAttrs::named(value) else {
                return Err(invalid_value(alloc, key));
            };
            self.target_session_attrs(word);
            return Ok(true);
        }
        if key == "channel_binding" {
            let Some(word) = ChannelBinding::named(value) else {
                return Err(invalid_value(alloc, key));
            };
            self.channel_binding(word);
            return Ok(true);
        }
        if key == "load_balance_hosts" {
            let Some(word) = LoadBalanceHosts::named(value) else {
                return Err(invalid_value(alloc, key));
            };
            self.load_balance_hosts(word);
            return Ok(true);
        }
        Ok(false)
    }
}

/// What stands before the first comma, and what stands behind it.
fn cut_text(text: &str) -> (&str, Option<&str>)
    ensures { IsCut (byte ",") text.now result.0.now (option_map (λ behind. behind.now) result.1) }
{
    match text.split_once(',') {
        Some((piece, behind)) => (piece, Some(behind)),
        None => (text, None),
    }
}

/// The addresses between commas. None: one isn't in form.
fn read_addresses(alloc: Global, text: &[u8]) -> Result<Option<Vec<IpAddr>>, OutOfMemory>
    ensures { IfOk result (λ read. option_map (λ addresses. addresses.items) read ≡ all_of address_of (pieces (byte ",") text.now)) }
{
    let mut addresses = Vec::new(alloc);
    let mut rest = Some(text);
    while let Some(text) = rest {
        let (piece, behind) = cut(text, b',');
        let Some(address) = read_address(alloc, piece)? else {
            return Ok(None);
        };
        addresses.push(address)?;
        rest = behind;
    }
    Ok(Some(addresses))
}

/// The ports between commas. None: one isn't in form.
fn read_ports(alloc: Global, text: &[u8]) -> Result<Option<Vec<u16>>, OutOfMemory>
    ensures { IfOk result (λ read. option_map (λ ports. ports.items) read ≡ all_of port_of (pieces (byte ",") text.now)) }
{
    let mut ports = Vec::new(alloc);
    let mut rest = Some(text);
    while let Some(text) = rest {
        let (piece, behind) = cut(text, b',');
        let Some(port) = read_port(piece) else {
            return Ok(None);
        };
        ports.push(port)?;
        rest = behind;
    }
    Ok(Some(ports))
}

/// A port; 5432 where nothing is said.
fn read_port(text: &[u8]) -> Option<u16>
    ensures { result ≡ port_of text.now }
{
    if text.is_empty() {
        return Some(DEFAULT_PORT);
    }
    match read_unsigned(text, u16::MAX as u64) {
        Some(port) => Some(port as u16),
        None => None,
    }
}
