//! The addresses of next hops, by number.
ghost use Rattle.std.specs.Prelude.{◌≡◌, ℕ, [], None, Some, IfSome, slice_get};
ghost use Rattle.std.specs.Net.Socket.{IsSocketAddrV4};
ghost use Rattle.std.specs.declared.net.socket_addr.SocketAddrV4.{SocketAddrV4};
ghost use Rattle.relay_lanes.specs.Places.{HasNone, key_of};

use std::alloc::Global;
use std::collections::HashMap;
use std::marker::Model;
use std::net::SocketAddrV4;

/// The addresses of next hops, numbered from 0 in the order in which they were added. None is ever removed.
pub struct Places {
    places: Vec<SocketAddrV4>,
    /// The number of each address, by its key.
    numbers: HashMap<u64, usize>,
}

// Written out, so that the proof of a caller that drops them stops at this function.
impl Drop for Places {
    fn drop(self) {
        let Places {
            places: _places,
            numbers: _numbers,
        } = self;
    }
}

impl Model for Places {
    ghost use Rattle.std.specs.Prelude.{List};
    ghost use Rattle.std.specs.declared.net.socket_addr.SocketAddrV4.{SocketAddrV4};
    ghost use Rattle.relay_lanes.specs.Places.{AreNumbered};

    ghost Value = { List SocketAddrV4 };

    ghost view = { λ table. table.places.items };

    ghost invariant = { λ table. AreNumbered table.numbers table.places.items };
}

impl Places {
    /// Returns an empty table. Allocates nothing.
    pub fn new(alloc: Global) -> Self
        ensures { result ≡ [] }
    {
        Places {
            places: Vec::new(alloc),
            numbers: HashMap::new(alloc),
        }
    }

    /// Returns the address of a number, if it has one.
    pub fn get(&self, number: usize) -> Option<SocketAddrV4>
        ensures { result ≡ slice_get self.now number }
    {
        match self.places.get(number) {
            Some(place) => Some(*place),
            None => None,
        }
    }

    /// Returns the number of an address, and adds the address if it has none yet. Returns `None` if memory runs out;
    /// nothing was added then.
    pub fn number_of(&mut self, at: SocketAddrV4) -> Option<usize>
        ensures place { IfSome result (λ number. slice_get self.new number ≡ Some at) }
        ensures others { (number : ℕ) (place : SocketAddrV4) → slice_get self.old number ≡ Some place
            → slice_get self.new number ≡ Some place }
        ensures failed { result ≡ None → self.new ≡ self.old }
    {
        let key = key_of(at);
        match self.numbers.get(&key) {
            Some(number) => Some(*number),
            None => self.add(key, at),
        }
    }

    /// Adds an address that has no number yet, under the next one. Returns `None` if memory runs out; nothing was added
    /// then.
    fn add(&mut self, key: u64, at: SocketAddrV4) -> Option<usize>
        requires key { key ≡ key_of at }
        requires fits { IsSocketAddrV4 at }
        requires none { HasNone self.old at }
        ensures place { IfSome result (λ number. slice_get self.new number ≡ Some at) }
        ensures others { (number : ℕ) (place : SocketAddrV4) → slice_get self.old number ≡ Some place
            → slice_get self.new number ≡ Some place }
        ensures failed { result ≡ None → self.new ≡ self.old }
    {
        let number = self.places.len();
        if self.places.reserve(1).is_err() {
            return None;
        }
        match self.numbers.insert(key, number) {
            Ok(_) => {
                self.places.push_reserved(at);
                Some(number)
            }
            Err(_) => None,
        }
    }
}

/// Returns the key of an address, which no other address has.
fn key_of(at: SocketAddrV4) -> u64
    ensures key { result ≡ key_of at }
    ensures fits { IsSocketAddrV4 at }
{
    let octets = at.ip().octets();
    u64::from(u32::from_be_bytes(octets)) * 65_536 + u64::from(at.port())
}
