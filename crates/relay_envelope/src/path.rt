//! Paths of MAIL and RCPT (RFC 5321, section 4.1.2).
ghost use Rattle.std.specs.Prelude.{◌≡◌, ◌≢◌, ◌≤◌, ◌++◌, ◌∷◌, ℕ, List, length, drop, IfSome, MatchOption};
ghost use Rattle.std.specs.List.{prefix_len};
ghost use Rattle.std.specs.Option.{option_copied};
ghost use Rattle.relay_lines.specs.Word.{is_space};
ghost use Rattle.relay_envelope.specs.Row.{IsRow};
ghost use Rattle.relay_envelope.specs.Mailbox.{SplitsAfterBracket};
ghost use Rattle.relay_envelope.specs.Path.{Path as PathText, BeginsWithPath, IsPath, domain_in, domain_of, path_text};
ghost use Rattle.relay_envelope.specs.Path.{stands_apart, value_of};

mod brackets;
mod mailbox;
mod postmaster;

use crate::row::row_before;
use mailbox::after_last_at;
pub use mailbox::{Mailbox, is_domain};
pub use postmaster::Postmaster;

/// A path that a reader found in a text, as slices of it. Nothing else makes one.
#[derive(Clone, Copy, Debug)]
pub enum Path<'a> {
    /// `<>`, the reverse path of a report.
    Null,
    /// `<Postmaster>`, in any letter case.
    Postmaster(Postmaster<'a>),
    /// A mailbox in brackets.
    Mailbox(Mailbox<'a>),
}

impl<'a> Path<'a> {
    /// Reads the whole text as a path. Allocates nothing.
    pub fn read(text: &'a [u8]) -> Option<Self>
        ensures { MatchOption result
            ((path : PathText) → IsPath path → text.now ≢ path_text path)
            (λ path. IsPath (value_of path) × (text.now ≡ path_text (value_of path))) }
    {
        path_of(text)
    }

    /// Returns the path as it came, with its brackets.
    pub fn text(&self) -> &'a [u8]
        ensures value { result.now ≡ path_text (value_of self.now) }
        ensures within { length result.now ≤ 256 }
    {
        match self {
            Path::Null => b"<>",
            Path::Postmaster(postmaster) => postmaster.text(),
            Path::Mailbox(mailbox) => mailbox.text(),
        }
    }
}

/// Returns the domain of a mailbox; `<>` and `<Postmaster>` have none.
pub fn domain_of<'a>(path: &Path<'a>) -> Option<&'a [u8]>
    ensures { option_copied result ≡ domain_of (value_of path.now) }
{
    match path {
        Path::Null => None,
        Path::Postmaster(_) => None,
        Path::Mailbox(mailbox) => Some(mailbox.domain()),
    }
}

/// The domain in a path as it is stored, with its brackets; `<>` and `<Postmaster>` have none. Allocates nothing.
pub fn domain_in(path: &[u8]) -> Option<&[u8]>
    ensures value { option_copied result ≡ domain_in path.now }
    ensures within { IfSome result (λ domain. length domain.now ≤ length path.now) }
{
    let after = after_last_at(path)?;
    match after {
        [] => Some(after),
        [domain @ .., _] => Some(domain),
    }
}

/// Reads the path that the text begins with after spaces, and returns it with the rest.
pub(crate) fn begin_path(text: &[u8]) -> Option<(Path<'_>, &[u8])>
    ensures { MatchOption result
        ((path : PathText) (rest : List ℕ) → ¬ BeginsWithPath text.now path rest)
        (λ parts. BeginsWithPath text.now (value_of parts.0) parts.1.now) }
{
    let (front, rest) = split_after_bracket(skip_spaces(text))?;
    let path = path_of(front)?;
    if is_apart(rest) {
        Some((path, rest))
    } else {
        None
    }
}

/// Reads the whole text as a path.
fn path_of(text: &[u8]) -> Option<Path<'_>>
    ensures { MatchOption result
        ((path : PathText) → IsPath path → text.now ≢ path_text path)
        (λ path. IsPath (value_of path) × (text.now ≡ path_text (value_of path))) }
{
    match text {
        b"<>" => Some(Path::Null),
        _ => match Postmaster::read(text) {
            Some(postmaster) => Some(Path::Postmaster(postmaster)),
            None => Some(Path::Mailbox(Mailbox::read(text)?)),
        },
    }
}

/// Returns the text to the first `>` outside a quoted string, and what follows that.
fn split_after_bracket(text: &[u8]) -> Option<(&[u8], &[u8])>
    ensures { MatchOption result
        ((row : List ℕ) (rest : List ℕ) → IsRow 62 row → text.now ≢ 60 ∷ row ++ 62 ∷ rest)
        (λ parts. SplitsAfterBracket text.now parts.0.now parts.1.now) }
{
    let (first, after) = text.split_first()?;
    if *first == b'<' {
        let len = row_before(b'>', after)?;
        Some(text.split_at(len + 2))
    } else {
        None
    }
}

/// Returns what follows the spaces that the text begins with.
fn skip_spaces(text: &[u8]) -> &[u8]
    ensures { result.now ≡ drop (prefix_len is_space text.now) text.now }
{
    let (_, rest) = text.split_at(space_len(text));
    rest
}

/// Returns how many spaces the text begins with.
fn space_len(text: &[u8]) -> usize
    ensures value { result ≡ prefix_len is_space text.now }
    ensures within { result ≤ length text.now }
{
    for (i, octet) in text.iter().enumerate() {
        if *octet != b' ' {
            return i;
        }
    }
    text.len()
}

/// Returns whether nothing follows, or a space does: a text that touches the path's `>` makes it no path.
fn is_apart(rest: &[u8]) -> bool
    ensures { result ≡ stands_apart rest.now }
{
    match rest {
        [] => true,
        [first, ..] => *first == b' ',
    }
}
