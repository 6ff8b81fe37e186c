//! The Host field, which says by which name the page is requested (RFC 9110, section 7.2).
ghost use Rattle.std.specs.Prelude.{◌≡◌};
ghost use Rattle.relay_page.specs.Host.{is_host, is_loopback, is_port};
ghost use Rattle.std.specs.List.{list_all};
ghost use Rattle.std.specs.Char.{is_ascii_digit};

use relay_lines::word::is_word;

/// Returns whether a Host field names this machine alone: `localhost`, `127.0.0.1` or `[::1]`, with a port or without
/// one.
pub(crate) fn is_loopback(host: &[u8]) -> bool
    ensures { result ≡ is_loopback host.now }
{
    is_host(b"localhost", host) || is_host(b"127.0.0.1", host) || is_host(b"[::1]", host)
}

/// Returns whether a Host field is this name, in any letter case, with or without a port.
fn is_host(name: &[u8], text: &[u8]) -> bool
    ensures { result ≡ is_host name.now text.now }
{
    let end = name.len().min(text.len());
    is_word(&text[..end], name) && is_port(&text[end..])
}

/// Returns whether a text is empty, or a colon and digits.
fn is_port(text: &[u8]) -> bool
    ensures { result ≡ is_port text.now }
{
    match text {
        [] => true,
        [first, digits @ ..] => *first == b':' && are_digits(digits),
    }
}

fn are_digits(text: &[u8]) -> bool
    ensures { result ≡ list_all is_ascii_digit text.now }
{
    text.iter().all(|octet| octet.is_ascii_digit())
}
