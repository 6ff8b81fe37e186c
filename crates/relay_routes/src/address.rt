ghost use Rattle.std.specs.Prelude.{◌≡◌, MatchOption, not};
ghost use Rattle.std.specs.List.{after_first};
ghost use Rattle.std.specs.declared.net.socket_addr.SocketAddrV4.{SocketAddrV4};
ghost use Rattle.relay_routes.specs.Value.{IsAddressText, begins_with_zero, is_colon};

use memchr::memchr;
use std::net::SocketAddrV4;

/// Returns the address that the text writes: four numbers with `.` between them, `:` and a port from 1, without leading
/// zeros.
pub(crate) fn read_address(text: &str) -> Option<SocketAddrV4>
    ensures { MatchOption result
        ((address : SocketAddrV4) → ¬ IsAddressText text.now address) (IsAddressText text.now) }
{
    match text.parse::<SocketAddrV4>() {
        Ok(address) if has_plain_port(text.as_bytes()) => Some(address),
        _ => None,
    }
}

/// Returns whether no `0` is after the first `:`: a port from 1 without leading zeros begins with another digit.
fn has_plain_port(text: &[u8]) -> bool
    ensures { result ≡ not (begins_with_zero (after_first is_colon text.now)) }
{
    match memchr(b':', text) {
        Some(place) => !begins_with_zero(&text[place + 1..]),
        None => true,
    }
}

fn begins_with_zero(text: &[u8]) -> bool
    ensures { result ≡ begins_with_zero text.now }
{
    match text {
        [first, ..] => *first == b'0',
        [] => false,
    }
}
