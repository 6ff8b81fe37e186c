//! Words of a header line: addresses and ports, with one space between them.
ghost use Rattle.std.specs.Prelude.{◌<◌, ◌↔◌, IsTrue, MatchOption, slice_index};
ghost use Rattle.relay_proxy.specs.Word.{Cuts, HasNoAddress, HasNoPort, HasNoPortWord, HasNoSpace, IsPort};
ghost use Rattle.relay_proxy.specs.Word.{ReadsAddress};
ghost use Rattle.relay_proxy.specs.Word.{ReadsPort};

use memchr::memchr;
use std::net::Ipv4Addr;
use std::str;

/// The port 0.
const ZERO: &[u8] = b"0";

/// Returns the address of IPv4 that is before the first space, and what follows that.
pub(crate) fn read_address(text: &[u8]) -> Option<(Ipv4Addr, &[u8])>
    ensures { MatchOption result (HasNoAddress text.now)
        (λ parts. ReadsAddress text.now parts.0 parts.1.now) }
{
    match cut(text) {
        None => None,
        Some((word, rest)) => match Ipv4Addr::parse_ascii(word) {
            Ok(address) => Some((address, rest)),
            Err(_) => None,
        },
    }
}

/// Returns the port that is before the first space, and what follows that.
pub(crate) fn read_port_word(text: &[u8]) -> Option<(u16, &[u8])>
    ensures { MatchOption result (HasNoPortWord text.now)
        (λ parts. ReadsPort text.now parts.0 parts.1.now) }
{
    match cut(text) {
        None => None,
        Some((word, rest)) => match read_port(word) {
            Some(port) => Some((port, rest)),
            None => None,
        },
    }
}

/// Returns the port that a text writes, without leading zeros.
pub(crate) fn read_port(text: &[u8]) -> Option<u16>
    ensures { MatchOption result (HasNoPort text.now) (IsPort text.now) }
{
    if text == ZERO {
        Some(0)
    } else if begins_above_zero(text) {
        number_of(text)
    } else {
        None
    }
}

/// Returns the number of 16 bits that a text writes which begins neither with a sign nor with a zero.
fn number_of(text: &[u8]) -> Option<u16>
    requires { 48 < slice_index text.now 0 }
    ensures { MatchOption result (HasNoPort text.now) (IsPort text.now) }
{
    match str::from_utf8(text) {
        Ok(digits) => digits.parse().ok(),
        Err(_) => None,
    }
}

/// Returns whether a text begins with an octet above the digit 0: with a digit from 1, or with what no number has.
fn begins_above_zero(text: &[u8]) -> bool
    ensures { IsTrue result ↔ 48 < slice_index text.now 0 }
{
    match text {
        [first, ..] => b'0' < *first,
        [] => false,
    }
}

/// Returns what is before the first space, and what follows it.
fn cut(text: &[u8]) -> Option<(&[u8], &[u8])>
    ensures { MatchOption result (HasNoSpace text.now) (λ parts. Cuts text.now parts.0.now parts.1.now) }
{
    match memchr(b' ', text) {
        Some(place) => Some((&text[..place], &text[place + 1..])),
        None => None,
    }
}
