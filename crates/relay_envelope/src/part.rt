//! Parts of a text round an octet.
ghost use Rattle.std.specs.Prelude.{◌≡◌, MatchOption};
ghost use Rattle.relay_envelope.specs.Parameters.{FirstPart, OnePart, keyword_of, value_of_word};

use memchr::memchr;

/// Returns what is before the first such octet, and after it.
pub(crate) fn first_part(octet: u8, text: &[u8]) -> Option<(&[u8], &[u8])>
    ensures { MatchOption result (OnePart octet text.now)
        (λ parts. FirstPart octet text.now parts.0.now parts.1.now) }
{
    let place = memchr(octet, text)?;
    Some((&text[..place], &text[place + 1..]))
}

/// Returns a parameter's keyword, and its value, which is empty where it has no `=`.
#[tactic(auto, unfolding(crate::specs::Parameters::keyword_of, crate::specs::Parameters::value_of_word))]
pub(crate) fn keyword_and_value(word: &[u8]) -> (&[u8], &[u8])
    ensures keyword { result.0.now ≡ keyword_of word.now }
    ensures value { result.1.now ≡ value_of_word word.now }
{
    match first_part(b'=', word) {
        Some((keyword, value)) => (keyword, value),
        None => word.split_at(word.len()),
    }
}
