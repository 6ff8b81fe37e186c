//! NUL among the octets of a content.
ghost use Rattle.std.specs.Prelude.{◌≡◌};
ghost use Rattle.relay_body.specs.Nul.{has_nul};

use memchr::memchr;

/// Returns whether NUL is among the octets (RFC 5321, section 4.1.1.4), by one search. Allocates nothing.
pub fn has_nul(octets: &[u8]) -> bool
    ensures { result ≡ has_nul octets.now }
{
    memchr(b'\0', octets).is_some()
}
