//! Connection strings, and the settings that they say.

use crate::refusal;
use pg_cases::written;
use pg_config::{
    ChannelBinding, Config, IpAddr, LoadBalanceHosts, SslMode, SslNegotiation, TargetSessionAttrs,
};
use pg_errors::Error;
use pg_types::OutOfMemory;
use std::alloc::{AllocError, Global};
use std::fmt::Debug;

fn tell_text(name: &str, value: Option<&str>, out: &mut String) -> Result<(), AllocError> {
    match value {
        Some(value) => write!(out, " {name}={value:?}"),
        None => Ok(()),
    }
}

fn tell_number(name: &str, value: Option<u64>, out: &mut String) -> Result<(), AllocError> {
    match value {
        Some(value) => write!(out, " {name}={value}"),
        None => Ok(()),
    }
}

fn tell_password(password: Option<&[u8]>, out: &mut String) -> Result<(), AllocError> {
    let Some(password) = password else {
        return Ok(());
    };
    out.push_str(" password")?;
    written::tell(password, out)
}

fn tell_login(config: &Config, out: &mut String) -> Result<(), AllocError> {
    tell_text("user", config.get_user(), out)?;
    tell_password(config.get_password(), out)?;
    tell_text("dbname", config.get_dbname(), out)?;
    tell_text("options", config.get_options(), out)?;
    tell_text("application_name", config.get_application_name(), out)
}

fn tell_all<T: Debug>(name: &str, items: &[T], out: &mut String) -> Result<(), AllocError> {
    for item in items {
        write!(out, " {name}={item:?}")?;
    }
    Ok(())
}

fn tell_places(config: &Config, out: &mut String) -> Result<(), AllocError> {
    tell_all("host", config.get_hosts(), out)?;
    tell_all("hostaddr", config.get_hostaddrs(), out)?;
    tell_all("port", config.get_ports(), out)
}

/// A setting that isn't at its default.
fn tell_other<T: Debug>(
    name: &str,
    value: &T,
    is_default: bool,
    out: &mut String,
) -> Result<(), AllocError> {
    if is_default {
        return Ok(());
    }
    write!(out, " {name}={value:?}")
}

fn tell_keepalives(config: &Config, out: &mut String) -> Result<(), AllocError> {
    let keeps = config.get_keepalives();
    tell_other("keepalives", &keeps, keeps, out)?;
    let idle = config.get_keepalives_idle();
    tell_other("keepalives_idle", &idle, idle == 7200, out)?;
    tell_number("keepalives_interval", config.get_keepalives_interval(), out)?;
    let retries = config.get_keepalives_retries().map(u64::from);
    tell_number("keepalives_retries", retries, out)
}

fn tell_times(config: &Config, out: &mut String) -> Result<(), AllocError> {
    tell_number("connect_timeout", config.get_connect_timeout(), out)?;
    tell_number("tcp_user_timeout", config.get_tcp_user_timeout(), out)?;
    tell_keepalives(config, out)
}

fn tell_tls(config: &Config, out: &mut String) -> Result<(), AllocError> {
    let mode = config.get_ssl_mode();
    tell_other("ssl_mode", &mode, mode == SslMode::Prefer, out)?;
    let negotiation = config.get_ssl_negotiation();
    let is_default = negotiation == SslNegotiation::Postgres;
    tell_other("ssl_negotiation", &negotiation, is_default, out)
}

fn tell_choices(config: &Config, out: &mut String) -> Result<(), AllocError> {
    let attrs = config.get_target_session_attrs();
    tell_other(
        "target_session_attrs",
        &attrs,
        attrs == TargetSessionAttrs::Any,
        out,
    )?;
    let binding = config.get_channel_binding();
    tell_other(
        "channel_binding",
        &binding,
        binding == ChannelBinding::Prefer,
        out,
    )?;
    let order = config.get_load_balance_hosts();
    tell_other(
        "load_balance_hosts",
        &order,
        order == LoadBalanceHosts::Disable,
        out,
    )
}

/// The settings that aren't the defaults of upstream's documentation.
fn tell_settings(config: &Config, out: &mut String) -> Result<(), AllocError> {
    tell_login(config, out)?;
    tell_tls(config, out)?;
    tell_places(config, out)?;
    tell_times(config, out)?;
    tell_choices(config, out)
}

fn tell_read(read: &Result<Config, Error>, out: &mut String) -> Result<(), AllocError> {
    match read {
        Ok(config) => tell_settings(config, out),
        Err(error) => refusal::tell(error, out),
    }
}

/// What a connection string says.
pub(crate) fn tell(alloc: Global, text: &str, out: &mut String) -> Result<(), AllocError> {
    let read = Config::from_str(alloc, text);
    tell_read(&read, out)
}

/// The debug text of the settings of a connection string.
pub(crate) fn tell_debug(alloc: Global, text: &str, out: &mut String) -> Result<(), AllocError> {
    let read = Config::from_str(alloc, text);
    write!(out, " {read:?}")
}

fn set_login(alloc: Global, config: &mut Config) -> Result<(), OutOfMemory> {
    config.user(alloc, "app")?;
    config.password(alloc, b"pencil")?;
    config.dbname(alloc, "shop")?;
    config.options(alloc, "-c geqo=off")?;
    config.application_name(alloc, "demo")
}

fn set_places(alloc: Global, config: &mut Config) -> Result<(), OutOfMemory> {
    config.host(alloc, "host1")?;
    config.host_path(alloc, "/tmp")?;
    config.hostaddr(IpAddr::V4([127, 0, 0, 1]))?;
    config.port(1234)
}

fn set_rest(config: &mut Config) {
    config.ssl_mode(SslMode::Require);
    config.ssl_negotiation(SslNegotiation::Direct);
    config.connect_timeout(10);
    config.tcp_user_timeout(11);
    config.keepalives(false);
    config.keepalives_idle(12);
    config.keepalives_interval(13);
    config.keepalives_retries(14);
    config.target_session_attrs(TargetSessionAttrs::ReadWrite);
    config.channel_binding(ChannelBinding::Require);
    config.load_balance_hosts(LoadBalanceHosts::Random);
}

fn set_all(alloc: Global, config: &mut Config) -> Result<(), OutOfMemory> {
    set_login(alloc, config)?;
    set_places(alloc, config)?;
    set_rest(config);
    Ok(())
}

fn tell_copied(copy: &Result<Config, OutOfMemory>, out: &mut String) -> Result<(), AllocError> {
    match copy {
        Ok(copy) => tell_settings(copy, out),
        Err(OutOfMemory) => Err(AllocError),
    }
}

/// The settings that are told of a copy.
fn tell_copy(alloc: Global, config: &Config, out: &mut String) -> Result<(), AllocError> {
    let copy = config.copy(alloc);
    tell_copied(&copy, out)
}

fn tell_set(alloc: Global, config: &mut Config, out: &mut String) -> Result<(), AllocError> {
    match set_all(alloc, config) {
        Ok(()) => tell_copy(alloc, config, out),
        Err(OutOfMemory) => Err(AllocError),
    }
}

/// The settings of a copy, each made by the call for it.
pub(crate) fn tell_setters(alloc: Global, out: &mut String) -> Result<(), AllocError> {
    let mut config = Config::new(alloc);
    tell_set(alloc, &mut config, out)
}
