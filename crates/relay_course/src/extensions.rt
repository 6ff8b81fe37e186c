ghost use Rattle.std.specs.Prelude.{◌≡◌};
ghost use Rattle.relay_course.specs.Extensions.{extensions_in, extensions_of, offers};

use relay_lines::Reply;
use relay_lines::word::{first_word, is_word};
use relay_octets::Octets;

/// The extensions that a server offers in its reply to EHLO, of those that a client may use.
#[derive(Clone, Copy, Debug, PartialEq, Eq)]
pub struct Extensions {
    /// Commands may be written in groups (RFC 2920).
    pub pipelining: bool,
    /// BDAT may be written (RFC 3030).
    pub chunking: bool,
    /// MAIL and RCPT may carry the parameters of reports (RFC 3461).
    pub dsn: bool,
}

/// Returns the extensions that this reply to EHLO offers (RFC 5321, section 4.1.1.1). Allocates nothing.
pub fn extensions_of(reply: &Reply) -> Extensions
    ensures { result ≡ extensions_of reply.now }
{
    match reply.lines() {
        [_, lines @ ..] => extensions_in(lines),
        [] => extensions_in(&[]),
    }
}

/// Returns the extensions that these lines offer.
fn extensions_in(lines: &[Octets]) -> Extensions
    ensures { result ≡ extensions_in lines.now }
{
    Extensions {
        pipelining: offers(b"PIPELINING", lines),
        chunking: offers(b"CHUNKING", lines),
        dsn: offers(b"DSN", lines),
    }
}

/// Returns whether one of the lines begins with this keyword.
fn offers(keyword: &[u8], lines: &[Octets]) -> bool
    ensures { result ≡ offers keyword.now lines.now }
{
    for line in lines {
        if is_word(first_word(line.as_slice()), keyword) {
            return true;
        }
    }
    false
}
