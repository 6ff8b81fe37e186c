ghost use Rattle.std.specs.Prelude.{◌≡◌, ℕ, List, [], ◌++◌, length, IfOk, OnOk, OnErr, IsTrue, ◌↔◌};

use std::alloc::{AllocError, Global};
use std::convert::AsSlice;
use std::marker::Model;

/// Octets that contracts see as a list: two values are equal if their octets are, whatever their capacity.
#[derive(Debug, Drop)]
pub struct Octets {
    bytes: Vec<u8>,
}

impl Model for Octets {
    ghost Value = { List ℕ };

    ghost view = { λ octets. octets.bytes.items };
}

impl Octets {
    /// Takes the octets of a `Vec`. Allocates nothing.
    pub fn new(bytes: Vec<u8>) -> Self
        ensures { result ≡ bytes.items }
    {
        Octets { bytes }
    }

    /// Copies a slice. Fails if memory runs out.
    pub fn from_slice(alloc: Global, octets: &[u8]) -> Result<Self, AllocError>
        ensures { IfOk result (λ copy. copy ≡ octets.now) }
    {
        Ok(Octets {
            bytes: Vec::from_slice(alloc, octets)?,
        })
    }

    pub fn len(&self) -> usize
        ensures { result ≡ length self.now }
    {
        self.bytes.len()
    }

    pub fn is_empty(&self) -> bool
        ensures { IsTrue result ↔ (self.now ≡ []) }
    {
        self.bytes.is_empty()
    }

    pub fn as_slice(&self) -> &[u8]
        ensures { result.now ≡ self.now }
    {
        self.bytes.as_slice()
    }

    /// Returns the octets as a `Vec`. Allocates nothing.
    pub fn into_vec(self) -> Vec<u8>
        ensures { result.items ≡ self }
    {
        let Octets { bytes } = self;
        bytes
    }

    /// Appends a slice. Fails if memory runs out, and then appends nothing.
    pub fn push_slice(&mut self, octets: &[u8]) -> Result<(), AllocError>
        ensures ok { OnOk result (self.new ≡ self.old ++ octets.now) }
        ensures err { OnErr result (self.new ≡ self.old) }
    {
        self.bytes.extend_from_slice(octets)
    }
}
