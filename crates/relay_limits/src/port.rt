//! The address of a page that only this machine is shown.
ghost use Rattle.std.specs.Prelude.{◌≡◌, ◌≤◌, IsTrue, length};
ghost use Rattle.relay_limits.specs.Port.{are_port_digits, begins_here, number_of, port_in, port_of};
ghost use Rattle.std.specs.Char.{is_ascii_digit};
ghost use Rattle.std.specs.List.{list_all};

use std::str;

/// What is before the port.
const HERE: &[u8] = b"127.0.0.1:";

/// Returns the port after `127.0.0.1:`, 1 to 65,535 in 1 to 5 digits, where a text is such an address.
#[tactic(auto, unfolding(crate::specs::Port::port_in))]
pub(crate) fn port_in(text: &[u8]) -> Option<u16>
    ensures { result ≡ port_in text.now }
{
    if !begins_here(text) {
        return None;
    }
    let digits = &text[HERE.len()..];
    if are_port_digits(digits) {
        port_of(digits)
    } else {
        None
    }
}

/// Returns whether a text begins with `127.0.0.1:`.
fn begins_here(text: &[u8]) -> bool
    ensures value { result ≡ begins_here text.now }
    ensures long { IsTrue result → 10 ≤ length text.now }
{
    HERE.len() <= text.len() && &text[..HERE.len()] == HERE
}

fn are_port_digits(digits: &[u8]) -> bool
    ensures { result ≡ are_port_digits digits.now }
{
    1 <= digits.len() && digits.len() <= 5 && are_digits(digits)
}

fn are_digits(digits: &[u8]) -> bool
    ensures { result ≡ list_all is_ascii_digit digits.now }
{
    digits.iter().all(|octet| octet.is_ascii_digit())
}

/// Returns the number of digits, if it is a port.
fn port_of(digits: &[u8]) -> Option<u16>
    requires { IsTrue (are_port_digits digits.now) }
    ensures { result ≡ port_of digits.now }
{
    match number_of(digits) {
        Some(port) if 0 < port => Some(port),
        _ => None,
    }
}

/// Returns the number of digits, where 16 bits hold it.
fn number_of(digits: &[u8]) -> Option<u16>
    requires { IsTrue (are_port_digits digits.now) }
    ensures { result ≡ number_of digits.now }
{
    match str::from_utf8(digits) {
        Ok(text) => text.parse().ok(),
        Err(_) => None,
    }
}
