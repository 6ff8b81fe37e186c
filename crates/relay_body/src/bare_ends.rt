//! Bare line ends: a CR or an LF that isn't part of a CR LF.
ghost use Rattle.std.specs.Prelude.{◌≡◌, ◌≤◌, IsTrue, length};
ghost use Rattle.relay_body.specs.BareEnds.{begins_with_crlf, has_bare_end};

use memchr::memchr2;

/// Returns whether the octets have a bare CR or LF (RFC 5321, section 2.3.8).
pub fn has_bare_end(octets: &[u8]) -> bool
    ensures { result ≡ has_bare_end octets.now }
{
    let mut from = 0;
    while let Some(place) = memchr2(b'\r', b'\n', &octets[from..]) {
        let rest = &octets[from + place..];
        if !begins_with_crlf(rest) {
            return true;
        }
        from += place + 2;
    }
    false
}

/// Returns whether CR LF are the first octets.
fn begins_with_crlf(octets: &[u8]) -> bool
    ensures test { result ≡ begins_with_crlf octets.now }
    ensures two { IsTrue result → 2 ≤ length octets.now }
{
    match octets {
        [b'\r', b'\n', ..] => true,
        _ => false,
    }
}
