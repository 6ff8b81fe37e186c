//! Version 2: a header is a block of octets that says its own length.
ghost use Rattle.std.specs.Prelude.{◌≡◌, ◌++◌, MatchOption};
ghost use Rattle.relay_proxy.specs.Block.{HasNoMeaning, SaysOfBlock, WritesIpv4, lacks_addresses, other_size};
ghost use Rattle.relay_proxy.specs.Block.{signature};
ghost use Rattle.relay_proxy.specs.Header.{Reads};

use crate::header::{Header, Reading};
use crate::source::Source;
use std::net::{Ipv4Addr, SocketAddrV4};

/// How each block begins.
pub(crate) const SIGNATURE: &[u8] = b"\r\n\r\n\0\r\nQUIT\n";

/// The octets that follow the signature in each block: version and command, family and protocol, and the length of
/// what follows.
const FIXED_SIZE: usize = 4;

/// The most octets that follow these: a block has 536 at most, as many as the smallest segment of TCP that a host must
/// take.
const REST_LIMIT: usize = 520;

/// Version 2, where the proxy speaks for itself.
const LOCAL: u8 = 0x20;

/// Version 2, if it passes the connection of a client on.
const PROXY: u8 = 0x21;

/// Reads the block of which these octets follow the signature.
pub(crate) fn read_block(octets: &[u8]) -> Reading
    ensures { Reads (signature ++ octets.now) result }
{
    match octets {
        [command, family, high, low, rest @ ..] => {
            let size = usize::from(u16::from_be_bytes([*high, *low]));
            if REST_LIMIT < size {
                return Reading::Missing;
            }
            if rest.len() < size {
                return Reading::Unfinished(size - rest.len());
            }
            match source_of(*command, *family, &rest[..size]) {
                Some(source) => Reading::Found(Header {
                    source,
                    length: SIGNATURE.len() + FIXED_SIZE + size,
                }),
                None => Reading::Missing,
            }
        }
        _ => Reading::Unfinished(FIXED_SIZE - octets.len()),
    }
}

/// Returns what a block says with this command, this family and protocol, and this rest.
fn source_of(command: u8, family: u8, rest: &[u8]) -> Option<Source>
    ensures { MatchOption result (HasNoMeaning command family rest.now) (SaysOfBlock command family rest.now) }
{
    match command {
        LOCAL => Some(Source::Own),
        PROXY => match family {
            0x00 => Some(Source::Own),
            0x11 => match client_of(rest) {
                Some(client) => Some(Source::Client(client)),
                None => None,
            },
            _ => match other_size(family) {
                Some(size) if size <= rest.len() => Some(Source::Other),
                _ => None,
            },
        },
        _ => None,
    }
}

/// Returns the client of TCP over IPv4: source and destination address, source and destination port.
fn client_of(rest: &[u8]) -> Option<SocketAddrV4>
    ensures { MatchOption result (lacks_addresses rest.now) (WritesIpv4 rest.now) }
{
    match rest {
        [a, b, c, d, _, _, _, _, high, low, _, _, ..] => Some(SocketAddrV4::new(
            Ipv4Addr::new(*a, *b, *c, *d),
            u16::from_be_bytes([*high, *low]),
        )),
        _ => None,
    }
}

/// Returns the octets of the addresses of other families and protocols: UDP over IPv4, TCP and UDP over IPv6, and
/// sockets of the proxy's own machine.
fn other_size(family: u8) -> Option<usize>
    ensures { result ≡ other_size family }
{
    match family {
        0x12 => Some(12),
        0x21 | 0x22 => Some(36),
        0x31 | 0x32 => Some(216),
        _ => None,
    }
}
