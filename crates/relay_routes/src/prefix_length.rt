ghost use Rattle.std.specs.Prelude.{◌≡◌, ◌≢◌, ◌+◌, ◌<◌, ℕ, MatchOption, decimal};

/// Returns the number of one or two digits that a text writes without leading zeros.
pub(crate) fn read_prefix_length(text: &[u8]) -> Option<u8>
    ensures { MatchOption result ((number : ℕ) → number < 100 → text.now ≢ decimal number)
        (λ number. (number < 100) × (text.now ≡ decimal number)) }
{
    match text {
        [ones] => digit(*ones),
        [tens, ones] if *tens != b'0' => Some(10 * digit(*tens)? + digit(*ones)?),
        _ => None,
    }
}

fn digit(octet: u8) -> Option<u8>
    ensures { MatchOption result ((value : ℕ) → value < 10 → octet ≢ 48 + value)
        (λ value. (value < 10) × (octet ≡ 48 + value)) }
{
    match octet {
        b'0'..=b'9' => Some(octet - b'0'),
        _ => None,
    }
}
