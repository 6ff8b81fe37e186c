ghost use Rattle.std.specs.Prelude.{◌≡◌, IfOk};

use crate::host_name::HostName;
use std::alloc::{AllocError, Global};
use std::net::SocketAddrV4;

/// A next hop.
#[derive(Debug)]
pub struct Hop {
    /// Its name.
    pub name: HostName,
    /// Where it listens: four octets, and a port.
    pub at: SocketAddrV4,
}

// Written out, so that the proof of a caller that drops a hop stops at this function.
impl Drop for Hop {
    fn drop(self) {
        let Hop { name: _name, at: _ } = self;
    }
}

impl Hop {
    /// Returns the same hop again. Fails if memory runs out.
    pub fn copy(&self, alloc: Global) -> Result<Self, AllocError>
        ensures { IfOk result (λ copy. copy ≡ self.now) }
    {
        let name = self.name.copy(alloc)?;
        Ok(Hop { name, at: self.at })
    }
}
