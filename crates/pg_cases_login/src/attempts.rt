//! Attempts to connect.

use crate::refusal;
use pg_config::{Address, Attempt, Config, IpAddr};
use pg_errors::Error;
use pg_types::{List, Text};
use std::alloc::{AllocError, Global};

fn tell_ip(ip: &IpAddr, out: &mut String) -> Result<(), AllocError> {
    write!(out, " {ip:?}")
}

fn tell_name(kind: &str, name: &str, out: &mut String) -> Result<(), AllocError> {
    write!(out, " {kind}({name:?})")
}

fn tell_address(address: &Address, out: &mut String) -> Result<(), AllocError> {
    match address {
        Address::Ip(ip) => tell_ip(ip, out),
        Address::Name(name) => tell_name("Name", name.as_str(), out),
        Address::Unix(path) => tell_name("Unix", path.as_str(), out),
    }
}

fn tell_host(name: &Option<Text>, out: &mut String) -> Result<(), AllocError> {
    match name {
        Some(name) => write!(out, " of {:?}", name.as_str()),
        None => Ok(()),
    }
}

/// Where, the port, and the host's name for TLS.
fn tell_attempt(attempt: &Attempt, out: &mut String) -> Result<(), AllocError> {
    tell_address(&attempt.address, out)?;
    write!(out, ":{}", attempt.port)?;
    tell_host(&attempt.hostname, out)
}

fn tell_all(attempts: &[Attempt], out: &mut String) -> Result<(), AllocError> {
    for attempt in attempts {
        tell_attempt(attempt, out)?;
    }
    Ok(())
}

fn tell_attempts(
    attempts: &Result<List<Attempt>, Error>,
    out: &mut String,
) -> Result<(), AllocError> {
    match attempts {
        Ok(attempts) => tell_all(attempts.as_slice(), out),
        Err(error) => refusal::tell(error, out),
    }
}

fn tell_config(
    alloc: Global,
    order: &[usize],
    config: &Config,
    out: &mut String,
) -> Result<(), AllocError> {
    write!(out, " {}", config.attempt_count())?;
    let attempts = config.attempts(alloc, order);
    tell_attempts(&attempts, out)
}

fn tell_read(
    alloc: Global,
    order: &[usize],
    read: &Result<Config, Error>,
    out: &mut String,
) -> Result<(), AllocError> {
    match read {
        Ok(config) => tell_config(alloc, order, config, out),
        Err(error) => refusal::tell(error, out),
    }
}

fn tell_under(
    alloc: Global,
    order: &[usize],
    text: &str,
    out: &mut String,
) -> Result<(), AllocError> {
    let read = Config::from_str(alloc, text);
    tell_read(alloc, order, &read, out)
}

/// Places, as the digits of a word count them.
fn order_of(alloc: Global, word: &[u8]) -> Result<Vec<usize>, AllocError> {
    let mut order = Vec::new(alloc);
    for &byte in word {
        order.push(usize::from(byte.wrapping_sub(b'0')))?;
    }
    Ok(order)
}

/// How many places a connection string has, and its attempts under this order.
pub(crate) fn tell(
    alloc: Global,
    order: &[u8],
    text: &str,
    out: &mut String,
) -> Result<(), AllocError> {
    let order = order_of(alloc, order)?;
    tell_under(alloc, order.as_slice(), text, out)
}
