ghost use Rattle.std.specs.Prelude.{◌≢◌, ◌≡◌, ℕ, List, MatchOption};
ghost use Rattle.relay_envelope.specs.Mailbox.{in_brackets};

/// Returns what is between `<` and `>`, where the text begins and ends with these.
pub(super) fn inside_brackets(text: &[u8]) -> Option<&[u8]>
    ensures { MatchOption result
        ((body : List ℕ) → text.now ≢ in_brackets body)
        (λ body. text.now ≡ in_brackets body.now) }
{
    match text {
        [b'<', body @ .., b'>'] => Some(body),
        _ => None,
    }
}
