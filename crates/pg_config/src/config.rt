//! The settings of a connection.

ghost use Rattle.std.specs.Prelude.{◌≡◌, ◌++◌, ◌∷◌, [], Some, IfOk, OnErr, OnOk, option_map};
ghost use Rattle.pg_config.specs.Settings.{defaults, host_of};

use crate::host::{Host, IpAddr};
use crate::modes::{ChannelBinding, LoadBalanceHosts, SslMode, SslNegotiation, TargetSessionAttrs};
use pg_types::{Blob, List, OutOfMemory, Text, copy_optional, optional_str};
use std::alloc::Global;

/// The settings of a connection. Times are in seconds.
///
/// They can be read from a connection string (PostgreSQL documentation, "Connection Strings"), by
/// `from_str`.
#[derive(Drop, PartialEq, Eq)]
pub struct Config {
    pub(crate) user: Option<Text>,
    pub(crate) password: Option<Blob>,
    pub(crate) dbname: Option<Text>,
    pub(crate) options: Option<Text>,
    pub(crate) application_name: Option<Text>,
    pub(crate) ssl_mode: SslMode,
    pub(crate) ssl_negotiation: SslNegotiation,
    pub(crate) hosts: List<Host>,
    pub(crate) hostaddrs: List<IpAddr>,
    pub(crate) ports: List<u16>,
    pub(crate) connect_timeout: Option<u64>,
    pub(crate) tcp_user_timeout: Option<u64>,
    pub(crate) keepalives: bool,
    pub(crate) keepalives_idle: u64,
    pub(crate) keepalives_interval: Option<u64>,
    pub(crate) keepalives_retries: Option<u32>,
    pub(crate) target_session_attrs: TargetSessionAttrs,
    pub(crate) channel_binding: ChannelBinding,
    pub(crate) load_balance_hosts: LoadBalanceHosts,
}

impl Config {
    /// The settings by default: TLS is preferred and begins with an SSLRequest, keepalives are on after
    /// 7,200 idle seconds, any session will do, channel binding is preferred, and hosts are tried in their
    /// order. All else is unset or empty.
    pub fn new(alloc: Global) -> Config
        ensures { result ≡ defaults }
    {
        Config {
            user: None,
            password: None,
            dbname: None,
            options: None,
            application_name: None,
            ssl_mode: SslMode::Prefer,
            ssl_negotiation: SslNegotiation::Postgres,
            hosts: List::empty(alloc),
            hostaddrs: List::empty(alloc),
            ports: List::empty(alloc),
            connect_timeout: None,
            tcp_user_timeout: None,
            keepalives: true,
            keepalives_idle: 7200,
            keepalives_interval: None,
            keepalives_retries: None,
            target_session_attrs: TargetSessionAttrs::Any,
            channel_binding: ChannelBinding::Prefer,
            load_balance_hosts: LoadBalanceHosts::Disable,
        }
    }

    /// Sets the user to log in as. On want of memory the settings are as before.
    pub fn user(&mut self, alloc: Global, user: &str) -> Result<(), OutOfMemory>
        ensures ok { OnOk result (self.new ≡ record self.old { user = Some user.now }) }
        ensures err { OnErr result (self.new ≡ self.old) }
    {
        let text = Text::from_str(alloc, user)?;
        self.user = Some(text);
        Ok(())
    }

    /// The user to log in as.
    pub fn get_user(&self) -> Option<&str>
        ensures { option_map (λ text. text.now) result ≡ self.now.user }
    {
        optional_str(&self.user)
    }

    /// Sets the password, as bytes. On want of memory the settings are as before.
    pub fn password(&mut self, alloc: Global, password: &[u8]) -> Result<(), OutOfMemory>
        ensures ok { OnOk result (self.new ≡ record self.old { password = Some password.now }) }
        ensures err { OnErr result (self.new ≡ self.old) }
    {
        let bytes = Blob::from_slice(alloc, password)?;
        self.password = Some(bytes);
        Ok(())
    }

    /// The password, as bytes.
    pub fn get_password(&self) -> Option<&[u8]>
        ensures { option_map (λ bytes. bytes.now) result ≡ self.now.password }
    {
        as_bytes(&self.password)
    }

    /// Sets the database to connect to. The server takes the user's name where it isn't set. On want of memory the settings are as before.
    pub fn dbname(&mut self, alloc: Global, dbname: &str) -> Result<(), OutOfMemory>
        ensures ok { OnOk result (self.new ≡ record self.old { dbname = Some dbname.now }) }
        ensures err { OnErr result (self.new ≡ self.old) }
    {
        let text = Text::from_str(alloc, dbname)?;
        self.dbname = Some(text);
        Ok(())
    }

    /// The database to connect to. The server takes the user's name where it isn't set.
    pub fn get_dbname(&self) -> Option<&str>
        ensures { option_map (λ text. text.now) result ≡ self.now.dbname }
    {
        optional_str(&self.dbname)
    }

    /// Sets command line options for the server. On want of memory the settings are as before.
    pub fn options(&mut self, alloc: Global, options: &str) -> Result<(), OutOfMemory>
        ensures ok { OnOk result (self.new ≡ record self.old { options = Some options.now }) }
        ensures err { OnErr result (self.new ≡ self.old) }
    {
        let text = Text::from_str(alloc, options)?;
        self.options = Some(text);
        Ok(())
    }

    /// Command line options for the server.
    pub fn get_options(&self) -> Option<&str>
        ensures { option_map (λ text. text.now) result ≡ self.now.options }
    {
        optional_str(&self.options)
    }

    /// Sets the value of the run-time parameter `application_name`. On want of memory the settings are as before.
    pub fn application_name(
        &mut self,
        alloc: Global,
        application_name: &str,
    ) -> Result<(), OutOfMemory>
        ensures ok { OnOk result (self.new ≡ record self.old { application_name = Some application_name.now }) }
        ensures err { OnErr result (self.new ≡ self.old) }
    {
        let text = Text::from_str(alloc, application_name)?;
        self.application_name = Some(text);
        Ok(())
    }

    /// The value of the run-time parameter `application_name`.
    pub fn get_application_name(&self) -> Option<&str>
        ensures { option_map (λ text. text.now) result ≡ self.now.application_name }
    {
        optional_str(&self.application_name)
    }

    /// Sets whether TLS is used.
    pub fn ssl_mode(&mut self, ssl_mode: SslMode)
        ensures { self.new ≡ record self.old { ssl_mode = ssl_mode } }
    {
        self.ssl_mode = ssl_mode;
    }

    /// Whether TLS is used.
    pub fn get_ssl_mode(&self) -> SslMode
        ensures { result ≡ self.now.ssl_mode }
    {
        self.ssl_mode
    }

    /// Sets how TLS begins.
    pub fn ssl_negotiation(&mut self, ssl_negotiation: SslNegotiation)
        ensures { self.new ≡ record self.old { ssl_negotiation = ssl_negotiation } }
    {
        self.ssl_negotiation = ssl_negotiation;
    }

    /// How TLS begins.
    pub fn get_ssl_negotiation(&self) -> SslNegotiation
        ensures { result ≡ self.now.ssl_negotiation }
    {
        self.ssl_negotiation
    }

    /// Adds a host. A text that begins with `/` is the path of a folder with a Unix socket. Hosts are tried
    /// in their order. There are none, or as many as addresses. On want of memory the settings are as
    /// before.
    pub fn host(&mut self, alloc: Global, host: &str) -> Result<(), OutOfMemory>
        ensures ok { OnOk result (self.new ≡ record self.old { hosts = self.old.hosts ++ host_of host.now ∷ [] }) }
        ensures err { OnErr result (self.new ≡ self.old) }
    {
        let host = read_host(alloc, host)?;
        self.add_host(host)
    }

    /// Adds the host whose Unix socket is in the folder of this path. On want of memory the settings are as
    /// before.
    pub fn host_path(&mut self, alloc: Global, path: &str) -> Result<(), OutOfMemory>
        ensures ok { OnOk result (self.new ≡ record self.old { hosts = self.old.hosts ++ Host.Unix path.now ∷ [] }) }
        ensures err { OnErr result (self.new ≡ self.old) }
    {
        let path = Text::from_str(alloc, path)?;
        self.add_host(Host::Unix(path))
    }

    fn add_host(&mut self, host: Host) -> Result<(), OutOfMemory>
        ensures ok { OnOk result (self.new ≡ record self.old { hosts = self.old.hosts ++ host ∷ [] }) }
        ensures err { OnErr result (self.new ≡ self.old) }
    {
        self.hosts.push(host)?;
        Ok(())
    }

    /// The hosts, in their order.
    pub fn get_hosts(&self) -> &[Host]
        ensures { result.now ≡ self.now.hosts }
    {
        self.hosts.as_slice()
    }

    /// Adds a numeric address, to be used in place of looking the host's name up. There are none, or as
    /// many as hosts. On want of memory the settings are as before.
    pub fn hostaddr(&mut self, hostaddr: IpAddr) -> Result<(), OutOfMemory>
        ensures ok { OnOk result (self.new ≡ record self.old { hostaddrs = self.old.hostaddrs ++ hostaddr ∷ [] }) }
        ensures err { OnErr result (self.new ≡ self.old) }
    {
        self.hostaddrs.push(hostaddr)?;
        Ok(())
    }

    /// The numeric addresses, in their order.
    pub fn get_hostaddrs(&self) -> &[IpAddr]
        ensures { result.now ≡ self.now.hostaddrs }
    {
        self.hostaddrs.as_slice()
    }

    /// Adds a port. There are none, which means 5432, or one for all hosts, or as many as hosts. On want of
    /// memory the settings are as before.
    pub fn port(&mut self, port: u16) -> Result<(), OutOfMemory>
        ensures ok { OnOk result (self.new ≡ record self.old { ports = self.old.ports ++ port ∷ [] }) }
        ensures err { OnErr result (self.new ≡ self.old) }
    {
        self.ports.push(port)?;
        Ok(())
    }

    /// The ports, in their order.
    pub fn get_ports(&self) -> &[u16]
        ensures { result.now ≡ self.now.ports }
    {
        self.ports.as_slice()
    }

    /// Sets the time limit of each attempt to connect, in seconds.
    pub fn connect_timeout(&mut self, connect_timeout: u64)
        ensures { self.new ≡ record self.old { connect_timeout = Some connect_timeout } }
    {
        self.connect_timeout = Some(connect_timeout);
    }

    /// The time limit of each attempt to connect, in seconds. None: there is no limit.
    pub fn get_connect_timeout(&self) -> Option<u64>
        ensures { result ≡ self.now.connect_timeout }
    {
        self.connect_timeout
    }

    /// Sets how long sent data may stay unacknowledged, in seconds.
    pub fn tcp_user_timeout(&mut self, tcp_user_timeout: u64)
        ensures { self.new ≡ record self.old { tcp_user_timeout = Some tcp_user_timeout } }
    {
        self.tcp_user_timeout = Some(tcp_user_timeout);
    }

    /// How long sent data may stay unacknowledged, in seconds. None: as the system has it.
    pub fn get_tcp_user_timeout(&self) -> Option<u64>
        ensures { result ≡ self.now.tcp_user_timeout }
    {
        self.tcp_user_timeout
    }

    /// Sets whether TCP keepalives are used.
    pub fn keepalives(&mut self, keepalives: bool)
        ensures { self.new ≡ record self.old { keepalives = keepalives } }
    {
        self.keepalives = keepalives;
    }

    /// Whether TCP keepalives are used.
    pub fn get_keepalives(&self) -> bool
        ensures { result ≡ self.now.keepalives }
    {
        self.keepalives
    }

    /// Sets after how much idle time a keepalive is sent, in seconds.
    pub fn keepalives_idle(&mut self, keepalives_idle: u64)
        ensures { self.new ≡ record self.old { keepalives_idle = keepalives_idle } }
    {
        self.keepalives_idle = keepalives_idle;
    }

    /// After how much idle time a keepalive is sent, in seconds.
    pub fn get_keepalives_idle(&self) -> u64
        ensures { result ≡ self.now.keepalives_idle }
    {
        self.keepalives_idle
    }

    /// Sets the time between keepalives, in seconds.
    pub fn keepalives_interval(&mut self, keepalives_interval: u64)
        ensures { self.new ≡ record self.old { keepalives_interval = Some keepalives_interval } }
    {
        self.keepalives_interval = Some(keepalives_interval);
    }

    /// The time between keepalives, in seconds. None: as the system has it.
    pub fn get_keepalives_interval(&self) -> Option<u64>
        ensures { result ≡ self.now.keepalives_interval }
    {
        self.keepalives_interval
    }

    /// Sets how many keepalives may be lost before the connection is given up.
    pub fn keepalives_retries(&mut self, keepalives_retries: u32)
        ensures { self.new ≡ record self.old { keepalives_retries = Some keepalives_retries } }
    {
        self.keepalives_retries = Some(keepalives_retries);
    }

    /// How many keepalives may be lost before the connection is given up. None: as the system has it.
    pub fn get_keepalives_retries(&self) -> Option<u32>
        ensures { result ≡ self.now.keepalives_retries }
    {
        self.keepalives_retries
    }

    /// Sets what is required of the session.
    pub fn target_session_attrs(&mut self, target_session_attrs: TargetSessionAttrs)
        ensures { self.new ≡ record self.old { target_session_attrs = target_session_attrs } }
    {
        self.target_session_attrs = target_session_attrs;
    }

    /// What is required of the session.
    pub fn get_target_session_attrs(&self) -> TargetSessionAttrs
        ensures { result ≡ self.now.target_session_attrs }
    {
        self.target_session_attrs
    }

    /// Sets whether a login is bound to its TLS channel.
    pub fn channel_binding(&mut self, channel_binding: ChannelBinding)
        ensures { self.new ≡ record self.old { channel_binding = channel_binding } }
    {
        self.channel_binding = channel_binding;
    }

    /// Whether a login is bound to its TLS channel.
    pub fn get_channel_binding(&self) -> ChannelBinding
        ensures { result ≡ self.now.channel_binding }
    {
        self.channel_binding
    }

    /// Sets in which order hosts are tried.
    pub fn load_balance_hosts(&mut self, load_balance_hosts: LoadBalanceHosts)
        ensures { self.new ≡ record self.old { load_balance_hosts = load_balance_hosts } }
    {
        self.load_balance_hosts = load_balance_hosts;
    }

    /// In which order hosts are tried.
    pub fn get_load_balance_hosts(&self) -> LoadBalanceHosts
        ensures { result ≡ self.now.load_balance_hosts }
    {
        self.load_balance_hosts
    }

    /// Equal settings.
    pub fn copy(&self, alloc: Global) -> Result<Config, OutOfMemory>
        ensures { IfOk result (λ config. config ≡ self.now) }
    {
        let user = copy_optional(alloc, &self.user)?;
        let password = copy_bytes(alloc, &self.password)?;
        let dbname = copy_optional(alloc, &self.dbname)?;
        let options = copy_optional(alloc, &self.options)?;
        let application_name = copy_optional(alloc, &self.application_name)?;
        let hosts = copy_hosts(alloc, self.hosts.as_slice())?;
        let hostaddrs = copy_addresses(alloc, self.hostaddrs.as_slice())?;
        let ports = copy_ports(alloc, self.ports.as_slice())?;
        Ok(Config {
            user,
            password,
            dbname,
            options,
            application_name,
            ssl_mode: self.ssl_mode,
            ssl_negotiation: self.ssl_negotiation,
            hosts,
            hostaddrs,
            ports,
            connect_timeout: self.connect_timeout,
            tcp_user_timeout: self.tcp_user_timeout,
            keepalives: self.keepalives,
            keepalives_idle: self.keepalives_idle,
            keepalives_interval: self.keepalives_interval,
            keepalives_retries: self.keepalives_retries,
            target_session_attrs: self.target_session_attrs,
            channel_binding: self.channel_binding,
            load_balance_hosts: self.load_balance_hosts,
        })
    }
}

fn as_bytes(bytes: &Option<Blob>) -> Option<&[u8]>
    ensures { option_map (λ bytes. bytes.now) result ≡ bytes.now }
{
    match bytes {
        Some(bytes) => Some(bytes.as_slice()),
        None => None,
    }
}

fn copy_bytes(alloc: Global, bytes: &Option<Blob>) -> Result<Option<Blob>, OutOfMemory>
    ensures { IfOk result (λ copied. copied ≡ bytes.now) }
{
    match bytes {
        Some(bytes) => Ok(Some(bytes.copy(alloc)?)),
        None => Ok(None),
    }
}

fn copy_hosts(alloc: Global, hosts: &[Host]) -> Result<List<Host>, OutOfMemory>
    ensures { IfOk result (λ copied. copied ≡ hosts.now) }
{
    let mut copied = List::empty(alloc);
    for host in hosts {
        copied.push(host.copy(alloc)?)?;
    }
    Ok(copied)
}

fn copy_addresses(alloc: Global, addresses: &[IpAddr]) -> Result<List<IpAddr>, OutOfMemory>
    ensures { IfOk result (λ copied. copied ≡ addresses.now) }
{
    Ok(List::new(Vec::from_slice(alloc, addresses)?))
}

fn copy_ports(alloc: Global, ports: &[u16]) -> Result<List<u16>, OutOfMemory>
    ensures { IfOk result (λ copied. copied ≡ ports.now) }
{
    Ok(List::new(Vec::from_slice(alloc, ports)?))
}

/// The host of this text.
fn read_host(alloc: Global, host: &str) -> Result<Host, OutOfMemory>
    ensures { IfOk result (λ read. read ≡ host_of host.now) }
{
    let text = Text::from_str(alloc, host)?;
    match host.as_bytes() {
        [b'/', ..] => Ok(Host::Unix(text)),
        _ => Ok(Host::Tcp(text)),
    }
}
