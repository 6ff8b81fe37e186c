//! The status code that a reply's text begins with (RFC 2034, section 4).
ghost use Rattle.std.specs.Prelude.{◌≡◌, MatchOption};
ghost use Rattle.std.specs.Char.{is_ascii_digit};
ghost use Rattle.std.specs.List.{after_first, before_first, list_all};
ghost use Rattle.relay_envelope.specs.Parameters.{FirstPart, OnePart, is_octet};
ghost use Rattle.relay_report.specs.StatusCode.{are_subcodes, first_word, has_no_leading_zero, is_failure_code};
ghost use Rattle.relay_report.specs.StatusCode.{is_subcode, refusal_status};

use memchr::memchr;

/// Returns the status of a recipient that was refused by a reply (RFC 3464, section 2.3.4): the code that its text
/// begins with, where text and reply say a permanent failure, and `5.0.0` elsewhere.
#[tactic(auto, unfolding(crate::specs::StatusCode::refusal_status))]
pub(crate) fn refusal_status(code: u16, text: &[u8]) -> &[u8]
    ensures { result.now ≡ refusal_status code text.now }
{
    let word = first_word(text);
    if 500 <= code && is_failure_code(word) {
        word
    } else {
        b"5.0.0"
    }
}

fn first_word(text: &[u8]) -> &[u8]
    ensures { result.now ≡ first_word text.now }
{
    let (word, _) = parts_at(b' ', text);
    word
}

/// Returns whether a word is a status code of class 5 (RFC 3463, section 2).
fn is_failure_code(word: &[u8]) -> bool
    ensures { result ≡ is_failure_code word.now }
{
    match word {
        [] => false,
        [_] => false,
        [class, point, subcodes @ ..] => {
            *class == b'5' && *point == b'.' && are_subcodes(subcodes)
        }
    }
}

fn are_subcodes(text: &[u8]) -> bool
    ensures { result ≡ are_subcodes text.now }
{
    let (subject, detail) = parts_at(b'.', text);
    is_subcode(subject) && is_subcode(detail)
}

fn is_subcode(digits: &[u8]) -> bool
    ensures { result ≡ is_subcode digits.now }
{
    1 <= digits.len() && digits.len() <= 3 && are_digits(digits) && has_no_leading_zero(digits)
}

fn are_digits(digits: &[u8]) -> bool
    ensures { result ≡ list_all is_ascii_digit digits.now }
{
    digits.iter().all(|octet| octet.is_ascii_digit())
}

fn has_no_leading_zero(digits: &[u8]) -> bool
    ensures { result ≡ has_no_leading_zero digits.now }
{
    match digits {
        [] => true,
        [_] => true,
        [first, _, ..] => *first != b'0',
    }
}

/// Returns what is before the first such octet, and after it; nothing is after it if there is none.
fn parts_at(octet: u8, text: &[u8]) -> (&[u8], &[u8])
    ensures front { result.0.now ≡ before_first (is_octet octet) text.now }
    ensures back { result.1.now ≡ after_first (is_octet octet) text.now }
{
    match first_part(octet, text) {
        Some((front, back)) => (front, back),
        None => text.split_at(text.len()),
    }
}

/// Returns what is before the first such octet, and after it.
fn first_part(octet: u8, text: &[u8]) -> Option<(&[u8], &[u8])>
    ensures { MatchOption result (OnePart octet text.now)
        (λ parts. FirstPart octet text.now parts.0.now parts.1.now) }
{
    let place = memchr(octet, text)?;
    Some((&text[..place], &text[place + 1..]))
}
