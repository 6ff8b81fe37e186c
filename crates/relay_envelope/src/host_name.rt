ghost use Rattle.std.specs.Prelude.{◌≡◌, ◌↔◌, IsTrue};
ghost use Rattle.relay_envelope.specs.HostName.{IsHostName, is_host_octet};

/// The most octets of a host's name (RFC 5321, section 4.5.3.1.2).
const HOST_LIMIT: usize = 255;

/// Returns whether the text is the name of a host: 1 to 255 letters, digits, `-` and `.`. Allocates nothing.
pub fn is_host_name(text: &[u8]) -> bool
    ensures { IsTrue result ↔ IsHostName text.now }
{
    !text.is_empty() && text.len() <= HOST_LIMIT && text.iter().all(|octet| is_host_octet(*octet))
}

/// Returns whether a host's name may hold the octet.
fn is_host_octet(octet: u8) -> bool
    ensures { result ≡ is_host_octet octet }
{
    octet.is_ascii_alphanumeric() || octet == b'-' || octet == b'.'
}
