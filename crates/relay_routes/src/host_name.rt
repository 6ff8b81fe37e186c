ghost use Rattle.std.specs.Prelude.{◌≡◌, IfOk, MatchOption};
ghost use Rattle.relay_envelope.specs.HostName.{IsHostName};

use relay_envelope::is_host_name;
use relay_octets::Octets;
use std::alloc::{AllocError, Global};
use std::marker::Model;

/// The name of a host: 1 to 255 letters, digits, `-` and `.`.
#[derive(Debug)]
pub struct HostName {
    octets: Octets,
}

// Written out, so that the proof of a caller that drops a name stops at this function.
impl Drop for HostName {
    fn drop(self) {
        let HostName { octets: _octets } = self;
    }
}

impl Model for HostName {
    ghost use Rattle.std.specs.Prelude.{List, ℕ};
    ghost use Rattle.relay_envelope.specs.HostName.{IsHostName};

    ghost Value = { List ℕ };

    ghost view = { λ name. name.octets };

    ghost invariant = { λ name. IsHostName name.octets };
}

impl HostName {
    /// Returns the octets as a name, if they are one. Allocates nothing.
    pub fn new(octets: Octets) -> Option<Self>
        ensures { MatchOption result (¬ IsHostName octets) (λ name. (name ≡ octets) × IsHostName octets) }
    {
        if is_host_name(octets.as_slice()) {
            Some(HostName { octets })
        } else {
            None
        }
    }

    /// Returns the name that a text is, if it is one. Fails if memory runs out.
    pub fn read(alloc: Global, text: &[u8]) -> Result<Option<Self>, AllocError>
        ensures { IfOk result (λ found. MatchOption found (¬ IsHostName text.now)
            (λ name. (name ≡ text.now) × IsHostName text.now)) }
    {
        if !is_host_name(text) {
            return Ok(None);
        }
        let octets = Octets::from_slice(alloc, text)?;
        Ok(Some(HostName { octets }))
    }

    /// Returns the octets.
    pub fn as_slice(&self) -> &[u8]
        ensures value { result.now ≡ self.now }
        ensures valid { IsHostName self.now }
    {
        self.octets.as_slice()
    }

    /// Returns the same name again. Fails if memory runs out.
    pub fn copy(&self, alloc: Global) -> Result<Self, AllocError>
        ensures { IfOk result (λ copy. copy ≡ self.now) }
    {
        let octets = Octets::from_slice(alloc, self.octets.as_slice())?;
        Ok(HostName { octets })
    }
}
