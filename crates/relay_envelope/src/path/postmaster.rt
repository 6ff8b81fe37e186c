ghost use Rattle.std.specs.Prelude.{◌≡◌, ◌≢◌, ◌≤◌, ◌↔◌, ℕ, List, length, IsTrue, MatchOption};
ghost use Rattle.relay_envelope.specs.Mailbox.{IsPostmaster, in_brackets};

use super::brackets::inside_brackets;

/// The word of the postmaster's path (RFC 5321, section 4.1.1.3).
const POSTMASTER: &[u8] = b"postmaster";

/// The postmaster's path, as it came.
#[derive(Clone, Copy, Debug)]
pub struct Postmaster<'a> {
    text: &'a [u8],
    word: &'a [u8],
    pub ghost is_text: { text.now ≡ in_brackets word.now },
    pub ghost valid: { IsPostmaster word.now },
    pub ghost in_limit: { length text.now ≤ 256 },
}

impl<'a> Postmaster<'a> {
    /// Returns the postmaster's path that the whole text is.
    pub(super) fn read(text: &'a [u8]) -> Option<Self>
        ensures { MatchOption result
            ((word : List ℕ) → IsPostmaster word → text.now ≢ in_brackets word)
            (λ postmaster. postmaster.text.now ≡ text.now) }
    {
        let word = inside_brackets(text)?;
        if is_postmaster(word) {
            Some(Postmaster { text, word })
        } else {
            None
        }
    }

    /// Returns the path as it came, with its brackets.
    pub(super) fn text(&self) -> &'a [u8]
        ensures value { result.now ≡ in_brackets self.now.word.now }
        ensures within { length result.now ≤ 256 }
    {
        self.text
    }
}

/// Returns whether the word is the postmaster's, in any letter case.
fn is_postmaster(word: &[u8]) -> bool
    ensures { IsTrue result ↔ IsPostmaster word.now }
{
    word.eq_ignore_ascii_case(POSTMASTER)
}
