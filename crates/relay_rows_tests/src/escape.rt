ghost use Rattle.std.specs.Prelude.{◌≡◌, ◌<◌, [], ◌∷◌, length, IfOk, IfSome, MatchOption};
ghost use Rattle.relay_rows_tests.specs.Row.{escaped, octets_of};

use relay_octets::Octets;
use std::alloc::{AllocError, Global};

/// Returns the octets that a text of a row stands for.
pub fn unescaped(alloc: Global, text: &[u8]) -> Result<Octets, AllocError>
    ensures { IfOk result (λ octets. octets ≡ octets_of text.now) }
{
    let mut octets = Vec::with_capacity(alloc, text.len())?;
    let mut rest = text;
    while let Some((octet, after)) = first_octet(rest) {
        octets.push(octet)?;
        rest = after;
    }
    Ok(Octets::new(octets))
}

/// Returns the first octet that a text of a row stands for, and the text after it.
fn first_octet(text: &[u8]) -> Option<(u8, &[u8])>
    ensures first { MatchOption result (text.now ≡ [])
        (λ first. octets_of text.now ≡ first.0 ∷ octets_of first.1.now) }
    ensures shorter { IfSome result (λ first. length first.1.now < length text.now) }
{
    match text {
        [b'\\', letter, after @ ..] => Some((escaped(*letter), after)),
        [octet, after @ ..] => Some((*octet, after)),
        [] => None,
    }
}

/// Returns the octet that a letter after a backslash stands for.
pub fn escaped(letter: u8) -> u8
    ensures { result ≡ escaped letter }
{
    match letter {
        b'r' => b'\r',
        b'n' => b'\n',
        b't' => b'\t',
        b'v' => 11,
        b'0' => 0,
        b'u' => 31,
        b'd' => 127,
        b'h' => 128,
        b'f' => 255,
        other => other,
    }
}
