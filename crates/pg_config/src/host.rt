//! Hosts and their addresses.

ghost use Rattle.std.specs.Prelude.{◌≡◌, IfOk};

use pg_types::{OutOfMemory, Text};
use std::alloc::Global;
use std::fmt;

/// The port where none is said.
pub(crate) const DEFAULT_PORT: u16 = 5432;

/// A host.
#[derive(Drop, PartialEq, Eq)]
pub enum Host {
    /// A name, or an address as a text.
    Tcp(Text),
    /// The path of the folder that holds the server's Unix socket.
    Unix(Text),
}

impl Host {
    /// An equal host.
    pub fn copy(&self, alloc: Global) -> Result<Host, OutOfMemory>
        ensures { IfOk result (λ host. host ≡ self.now) }
    {
        match self {
            Host::Tcp(name) => Ok(Host::Tcp(name.copy(alloc)?)),
            Host::Unix(path) => Ok(Host::Unix(path.copy(alloc)?)),
        }
    }
}

impl fmt::Debug for Host {
    fn fmt<W: fmt::Write>(&self, f: &mut fmt::Formatter<W>) -> fmt::Result {
        let (variant, text) = match self {
            Host::Tcp(name) => ("Tcp", name),
            Host::Unix(path) => ("Unix", path),
        };
        f.debug_tuple(variant).field(&text.as_str()).finish()
    }
}

/// A numeric address.
#[derive(Clone, Copy, Debug, Drop, PartialEq, Eq)]
pub enum IpAddr {
    /// Its four bytes.
    V4([u8; 4]),
    /// Its eight groups.
    V6([u16; 8]),
}
