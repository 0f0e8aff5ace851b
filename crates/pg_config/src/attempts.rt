//! The attempts to connect that settings ask for. Upstream makes them in `connect`; here they are handed
//! out.

ghost use Rattle.std.specs.Prelude.{◌≡◌, ◌⊎◌, ◌++◌, Err, IfErr, IfOk, IsFalse, IsTrue, OnOk};
ghost use Rattle.std.specs.List.{filter_map};
ghost use Rattle.std.specs.Option.{option_to_list};
ghost use Rattle.pg_config.specs.Attempts as spec;
ghost use Rattle.pg_config.specs.Attempts.{attempts_of, do_fit, host_address, host_name, place_count, places_in};

use crate::config::Config;
use crate::host::{DEFAULT_PORT, Host, IpAddr};
use crate::modes::LoadBalanceHosts;
use pg_types::{Cause, Error, List, OutOfMemory, Text};
use std::alloc::Global;

/// Where to connect.
#[derive(Debug, Drop, PartialEq, Eq)]
pub enum Address {
    Ip(IpAddr),
    /// A name that has to be looked up.
    Name(Text),
    /// The path of the folder that holds a Unix socket.
    Unix(Text),
}

/// One attempt to connect.
#[derive(Debug, Drop, PartialEq, Eq)]
pub struct Attempt {
    pub address: Address,
    /// The host's name, for TLS.
    pub hostname: Option<Text>,
    pub port: u16,
}

impl Config {
    /// How many places there are to connect to: the larger number of hosts and addresses.
    pub fn attempt_count(&self) -> usize
        ensures { result ≡ place_count self.now }
    {
        let hosts = self.hosts.as_slice().len();
        let addresses = self.hostaddrs.as_slice().len();
        hosts.max(addresses)
    }

    /// The attempts to connect, in their order: that of the places, which count from 0, or `order` where
    /// hosts are balanced. `order` is to hold each place below `attempt_count` once; a number past them
    /// stands for no attempt. Config(Hosts) comes exactly where there is neither host nor address, or both
    /// and not as many, or more than one port and not one for each.
    pub fn attempts(&self, alloc: Global, order: &[usize]) -> Result<List<Attempt>, Error>
        ensures attempts { IfOk result (λ attempts. IsTrue (do_fit self.now) × (attempts ≡ attempts_of self.now order.now)) }
        ensures err { IfErr result (λ e. (e ≡ Error.OutOfMemory) ⊎ (e ≡ Error.Config Cause.Hosts)) }
        ensures hosts { result ≡ Err (Error.Config Cause.Hosts) → IsFalse (do_fit self.now) }
        ensures unfit { IsFalse (do_fit self.now) → result ≡ Err (Error.Config Cause.Hosts) }
    {
        if !self.do_fit() {
            return Err(Error::Config(Cause::Hosts));
        }
        Ok(self.fitting_attempts(alloc, order)?)
    }

    /// Hosts, addresses and ports fit together.
    fn do_fit(&self) -> bool
        ensures { result ≡ spec.do_fit self.now }
    {
        let hosts = self.hosts.as_slice().len();
        let addresses = self.hostaddrs.as_slice().len();
        let ports = self.ports.as_slice().len();
        let count = self.attempt_count();
        count != 0
            && (hosts == 0 || addresses == 0 || hosts == addresses)
            && (ports < 2 || ports == count)
    }

    fn fitting_attempts(&self, alloc: Global, order: &[usize]) -> Result<List<Attempt>, OutOfMemory>
        ensures { IfOk result (λ attempts. attempts ≡ attempts_of self.now order.now) }
    {
        let places = self.places_tried(alloc, order)?;
        self.attempts_at(alloc, places.as_slice())
    }

    /// The places in the order in which they are tried.
    fn places_tried(&self, alloc: Global, order: &[usize]) -> Result<Vec<usize>, OutOfMemory>
        ensures { IfOk result (λ places. places.items ≡ places_in self.now.load_balance_hosts (place_count self.now) order.now) }
    {
        match self.load_balance_hosts {
            LoadBalanceHosts::Random => Ok(Vec::from_slice(alloc, order)?),
            LoadBalanceHosts::Disable => places_below(alloc, self.attempt_count()),
        }
    }

    fn attempts_at(&self, alloc: Global, places: &[usize]) -> Result<List<Attempt>, OutOfMemory>
        ensures { IfOk result (λ attempts. attempts ≡ filter_map (spec.attempt_at self.now) places.now) }
    {
        let mut attempts = List::empty(alloc);
        for place in places {
            let attempt = self.attempt_at(alloc, *place)?;
            push_if_any(&mut attempts, attempt)?;
        }
        Ok(attempts)
    }

    /// The attempt at a place, if a host or an address is there.
    fn attempt_at(&self, alloc: Global, place: usize) -> Result<Option<Attempt>, OutOfMemory>
        ensures { IfOk result (λ attempt. attempt ≡ spec.attempt_at self.now place) }
    {
        match self.address_at(alloc, place)? {
            Some(address) => {
                let hostname = self.hostname_at(alloc, place)?;
                Ok(Some(Attempt {
                    address,
                    hostname,
                    port: self.port_at(place),
                }))
            }
            None => Ok(None),
        }
    }

    fn address_at(&self, alloc: Global, place: usize) -> Result<Option<Address>, OutOfMemory>
        ensures { IfOk result (λ address. address ≡ spec.address_at self.now place) }
    {
        match self.hostaddrs.as_slice().get(place) {
            Some(ip) => Ok(Some(Address::Ip(*ip))),
            None => match self.hosts.as_slice().get(place) {
                Some(host) => {
                    let address = address_of_host(alloc, host)?;
                    Ok(Some(address))
                }
                None => Ok(None),
            },
        }
    }

    fn hostname_at(&self, alloc: Global, place: usize) -> Result<Option<Text>, OutOfMemory>
        ensures { IfOk result (λ name. name ≡ spec.hostname_at self.now place) }
    {
        match self.hosts.as_slice().get(place) {
            Some(host) => name_of_host(alloc, host),
            None => Ok(None),
        }
    }

    fn port_at(&self, place: usize) -> u16
        ensures { result ≡ spec.port_at self.now place }
    {
        match self.ports.as_slice().get(place) {
            Some(port) => *port,
            None => match self.ports.as_slice().first() {
                Some(port) => *port,
                None => DEFAULT_PORT,
            },
        }
    }
}

/// The places below `count`, in their order.
fn places_below(alloc: Global, count: usize) -> Result<Vec<usize>, OutOfMemory>
    ensures { IfOk result (λ places. places.items ≡ spec.places_below count) }
{
    let mut places = Vec::new(alloc);
    for place in 0..count {
        places.push(place)?;
    }
    Ok(places)
}

fn push_if_any(attempts: &mut List<Attempt>, attempt: Option<Attempt>) -> Result<(), OutOfMemory>
    ensures { OnOk result (attempts.new ≡ attempts.old ++ option_to_list attempt) }
{
    match attempt {
        Some(attempt) => {
            attempts.push(attempt)?;
            Ok(())
        }
        None => Ok(()),
    }
}

fn address_of_host(alloc: Global, host: &Host) -> Result<Address, OutOfMemory>
    ensures { IfOk result (λ address. address ≡ host_address host.now) }
{
    match host {
        Host::Tcp(name) => Ok(Address::Name(name.copy(alloc)?)),
        Host::Unix(path) => Ok(Address::Unix(path.copy(alloc)?)),
    }
}

fn name_of_host(alloc: Global, host: &Host) -> Result<Option<Text>, OutOfMemory>
    ensures { IfOk result (λ name. name ≡ host_name host.now) }
{
    match host {
        Host::Tcp(name) => Ok(Some(name.copy(alloc)?)),
        Host::Unix(_) => Ok(None),
    }
}
