//! The debug text of settings, which hides the password.

use crate::config::Config;
use std::fmt;

/// A value that is not to be shown.
#[derive(Drop)]
struct Redaction;

impl fmt::Debug for Redaction {
    fn fmt<W: fmt::Write>(&self, f: &mut fmt::Formatter<W>) -> fmt::Result {
        f.write_str("_")
    }
}

impl fmt::Debug for Config {
    fn fmt<W: fmt::Write>(&self, f: &mut fmt::Formatter<W>) -> fmt::Result {
        let password = self.password.as_ref().map(|_| Redaction);
        f.debug_struct("Config")
            .field("user", &self.get_user())
            .field("password", &password)
            .field("dbname", &self.get_dbname())
            .field("options", &self.get_options())
            .field("application_name", &self.get_application_name())
            .field("ssl_mode", &self.ssl_mode)
            .field("host", &self.get_hosts())
            .field("hostaddr", &self.get_hostaddrs())
            .field("port", &self.get_ports())
            .field("connect_timeout", &self.connect_timeout)
            .field("tcp_user_timeout", &self.tcp_user_timeout)
            .field("keepalives", &self.keepalives)
            .field("keepalives_idle", &self.keepalives_idle)
            .field("keepalives_interval", &self.keepalives_interval)
            .field("keepalives_retries", &self.keepalives_retries)
            .field("target_session_attrs", &self.target_session_attrs)
            .field("channel_binding", &self.channel_binding)
            .field("load_balance_hosts", &self.load_balance_hosts)
            .finish()
    }
}
