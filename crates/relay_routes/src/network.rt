ghost use Rattle.std.specs.Prelude.{◌≡◌, MatchOption};
ghost use Rattle.std.specs.Net.Addr.{ipv4_octets};
ghost use Rattle.relay_routes.specs.Prefix.{IsNetwork};

use crate::prefix_length::read_prefix_length;
use memchr::memchr;
use std::net::Ipv4Addr;

/// The bits of an address.
const ALL_BITS: u8 = 32;

/// A network of clients: the addresses that begin with one prefix (RFC 4632).
#[derive(Clone, Copy, Debug, Drop)]
pub struct Network {
    /// The first of its addresses, whose bits after the prefix are zero.
    pub first: Ipv4Addr,
    /// The number of bits of the prefix, 0 to 32.
    pub prefix_length: u8,
    pub ghost valid: { IsNetwork (ipv4_octets first) prefix_length },
}

impl Network {
    ghost use Rattle.relay_routes.specs.Network.{IsNetworkAt, IsNetworkText, is_in};

    /// Returns the network of a first address and a prefix, which has at most 32 bits, and only zeros after it.
    pub fn new(first: Ipv4Addr, prefix_length: u8) -> Option<Self>
        ensures { MatchOption result (¬ IsNetwork (ipv4_octets first) prefix_length) (λ network.
            (network.first ≡ first) × (network.prefix_length ≡ prefix_length)) }
    {
        if prefix_length > ALL_BITS {
            return None;
        }
        let host_bits = u32::from(ALL_BITS - prefix_length);
        let number = u64::from(u32::from_be_bytes(first.octets()));
        if number % (1 << host_bits) != 0 {
            return None;
        }
        Some(Network {
            first,
            prefix_length,
        })
    }

    /// Returns the network that a text writes: an address alone, or an address, `/` and the length of its prefix, all
    /// numbers without leading zeros.
    pub fn read(text: &[u8]) -> Option<Self>
        ensures { MatchOption result
            ((network : Network) → ¬ IsNetworkText text.now network) (IsNetworkText text.now) }
    {
        match memchr(b'/', text) {
            Some(place) => {
                let prefix_length = read_prefix_length(&text[place + 1..])?;
                Network::at(&text[..place], prefix_length)
            }
            None => Network::at(text, ALL_BITS),
        }
    }

    /// Returns the network of the address that a text writes and a prefix.
    fn at(address: &[u8], prefix_length: u8) -> Option<Self>
        ensures { MatchOption result
            ((network : Network) → ¬ IsNetworkAt address.now prefix_length network)
            (IsNetworkAt address.now prefix_length) }
    {
        match Ipv4Addr::parse_ascii(address) {
            Ok(first) => Network::new(first, prefix_length),
            Err(_) => None,
        }
    }

    /// Returns whether a client is in the network.
    pub fn contains(&self, client: [u8; 4]) -> bool
        ensures { result ≡ is_in client self.now }
    {
        let host_bits = u32::from(ALL_BITS - self.prefix_length);
        let first = u64::from(u32::from_be_bytes(self.first.octets()));
        u64::from(u32::from_be_bytes(client)) >> host_bits == first >> host_bits
    }
}
