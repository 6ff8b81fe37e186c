//! Octets written in hexadecimal.
ghost use Rattle.std.specs.Prelude.{◌<◌, IfSome};

use crate::answer::Answer;

/// Returns the value of a digit in lower case.
fn digit(octet: u8) -> Option<u8>
    ensures { IfSome result (λ value. value < 16) }
{
    match octet {
        b'0'..=b'9' => Some(octet - b'0'),
        b'a'..=b'f' => Some(octet - b'a' + 10),
        _ => None,
    }
}

/// Returns the octets that a text writes, two digits each. What is no digit, and a last one alone, are passed over.
pub fn octets_of(answer: &mut Answer, text: &str) -> Vec<u8> {
    let mut octets = Vec::new(answer.alloc);
    let mut high = 0u8;
    let mut is_second = false;
    for octet in text.as_bytes() {
        if let Some(value) = digit(*octet) {
            if is_second {
                answer.push(&mut octets, high.wrapping_add(value));
            }
            high = value.wrapping_mul(16);
            is_second = !is_second;
        }
    }
    octets
}
