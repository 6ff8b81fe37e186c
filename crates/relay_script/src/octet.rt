//! One octet of a text.
ghost use Rattle.std.specs.Prelude.{◌≡◌, ◌<◌, ◌++◌, ◌∷◌, MatchOption, OnOk};
ghost use Rattle.relay_script.specs.Text.{digit_of as digit, is_plain as plain, spelled_octet};
ghost use Rattle.relay_script.specs.Reading.{BeginsWithNoOctet, BeginsWithOctet, IsDigitOf, IsNoDigit, has_code};

use std::alloc::AllocError;

/// Adds the spelling of an octet.
pub(crate) fn push_octet(out: &mut Vec<u8>, octet: u8) -> Result<(), AllocError>
    ensures { OnOk result (out.new.items ≡ out.old.items ++ spelled_octet octet) }
{
    if is_plain(octet) {
        return out.extend_from_slice(&[octet]);
    }
    match octet {
        b'\r' => out.extend_from_slice(b"\\r"),
        b'\n' => out.extend_from_slice(b"\\n"),
        _ => out.extend_from_slice(&[b'\\', b'x', digit_of(octet / 16), digit_of(octet % 16)]),
    }
}

/// Returns the octet whose spelling a text begins with, and what follows it.
pub(crate) fn first_octet(text: &[u8]) -> Option<(u8, &[u8])>
    ensures { MatchOption result (BeginsWithNoOctet text.now) (λ parts. BeginsWithOctet text.now parts.0 parts.1.now) }
{
    let (first, rest) = text.split_first()?;
    if *first == b'\\' {
        return escaped_octet(rest);
    }
    if is_plain(*first) {
        Some((*first, rest))
    } else {
        None
    }
}

/// Returns the octet that is spelled by a `\` and the text.
fn escaped_octet(text: &[u8]) -> Option<(u8, &[u8])>
    ensures { MatchOption result (BeginsWithNoOctet (92 ∷ text.now))
        (λ parts. BeginsWithOctet (92 ∷ text.now) parts.0 parts.1.now) }
{
    let (mark, rest) = text.split_first()?;
    match *mark {
        b'r' => Some((b'\r', rest)),
        b'n' => Some((b'\n', rest)),
        b'x' => coded_octet(rest),
        _ => None,
    }
}

/// Returns the octet that is spelled by `\x` and the text.
fn coded_octet(text: &[u8]) -> Option<(u8, &[u8])>
    ensures { MatchOption result (BeginsWithNoOctet (92 ∷ 120 ∷ text.now))
        (λ parts. BeginsWithOctet (92 ∷ 120 ∷ text.now) parts.0 parts.1.now) }
{
    let (high, more) = text.split_first()?;
    let (low, rest) = more.split_first()?;
    let sixteens = value_of_digit(*high)?;
    let ones = value_of_digit(*low)?;
    let octet = sixteens * 16 + ones;
    if has_code(octet) {
        Some((octet, rest))
    } else {
        None
    }
}

/// Returns whether an octet stands as it is: from the space to `~`, but for `\`.
fn is_plain(octet: u8) -> bool
    ensures { result ≡ plain octet }
{
    matches!(octet, b' '..=b'~') && octet != b'\\'
}

/// Returns whether the spelling of an octet is `\x` and two digits.
fn has_code(octet: u8) -> bool
    ensures { result ≡ has_code octet }
{
    !is_plain(octet) && octet != b'\r' && octet != b'\n'
}

/// Returns the hexadecimal digit of a value, in upper case.
fn digit_of(value: u8) -> u8
    requires { value < 16 }
    ensures { result ≡ digit value }
{
    if value < 10 { b'0' + value } else { 55 + value }
}

/// Returns the value of a hexadecimal digit in upper case.
fn value_of_digit(octet: u8) -> Option<u8>
    ensures { MatchOption result (IsNoDigit octet) (IsDigitOf octet) }
{
    match octet {
        b'0'..=b'9' => Some(octet - b'0'),
        b'A'..=b'F' => Some(octet - 55),
        _ => None,
    }
}
