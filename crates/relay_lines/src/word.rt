//! Words of a command line (RFC 5321, sections 2.4 and 4.1.1), and what is shown of octets.
ghost use Rattle.std.specs.Prelude.{◌≡◌, ◌≤◌, IfOk, length, map, option_copied};
ghost use Rattle.std.specs.List.{AllPass};
ghost use Rattle.relay_lines.specs.Word.{is_printable, shown, is_blank, is_domain_octet, is_literal_octet};
ghost use Rattle.relay_lines.specs.Word.{are_printable, are_domain_octets, are_literal_octets, without_trailing_blanks};
ghost use Rattle.relay_lines.specs.Word.{word_len, space_len, first_word, argument_of, is_word, after_keyword};
ghost use Rattle.relay_lines.specs.Word.{is_address_literal, is_host_word};

use std::alloc::{AllocError, Global};

fn is_blank(octet: u8) -> bool
    ensures { result ≡ is_blank octet }
{
    octet == b' ' || octet == b'\t'
}

/// Returns whether the octet is a printable one of ASCII, from the space to `~`.
pub fn is_printable(octet: u8) -> bool
    ensures { result ≡ is_printable octet }
{
    b' ' <= octet && octet <= b'~'
}

/// Returns the octet, or `?` if it isn't printable.
fn shown(octet: u8) -> u8
    ensures { result ≡ shown octet }
{
    if is_printable(octet) { octet } else { b'?' }
}

/// Returns the text with `?` in place of each octet that isn't printable, so that it is safe in a log or a terminal.
/// Fails if memory runs out.
pub fn all_shown(alloc: Global, text: &[u8]) -> Result<Vec<u8>, AllocError>
    ensures shown { IfOk result (λ all. all.items ≡ map shown text.now) }
    ensures printable { IfOk result (λ all. AllPass is_printable all.items) }
{
    let mut all = Vec::with_capacity(alloc, text.len())?;
    for octet in text {
        all.push(shown(*octet))?;
    }
    Ok(all)
}

fn is_domain_octet(octet: u8) -> bool
    ensures { result ≡ is_domain_octet octet }
{
    octet.is_ascii_alphanumeric() || octet == b'-' || octet == b'.' || octet == b'_'
}

fn is_literal_octet(octet: u8) -> bool
    ensures { result ≡ is_literal_octet octet }
{
    is_domain_octet(octet) || octet == b':'
}

/// Returns whether each octet is a printable one, from the space to `~`.
#[tactic(auto, unfolding(crate::specs::Word::are_printable))]
pub(crate) fn are_printable(text: &[u8]) -> bool
    ensures { result ≡ are_printable text.now }
{
    text.iter().all(|octet| is_printable(*octet))
}

/// Returns whether each octet is one of a domain (RFC 5321, section 4.1.2): a letter, a digit, `-` or `.`, or `_`.
#[tactic(auto, unfolding(crate::specs::Word::are_domain_octets))]
pub fn are_domain_octets(text: &[u8]) -> bool
    ensures { result ≡ are_domain_octets text.now }
{
    text.iter().all(|octet| is_domain_octet(*octet))
}

#[tactic(auto, unfolding(crate::specs::Word::are_literal_octets))]
fn are_literal_octets(text: &[u8]) -> bool
    ensures { result ≡ are_literal_octets text.now }
{
    text.iter().all(|octet| is_literal_octet(*octet))
}

/// Returns the line without the spaces and tabs at its end (RFC 5321, section 4.1.1).
#[tactic(auto, unfolding(crate::specs::Word::without_trailing_blanks))]
pub(crate) fn without_trailing_blanks(line: &[u8]) -> &[u8]
    ensures { result.now ≡ without_trailing_blanks line.now }
{
    let mut end = line.len();
    while end > 0 && is_blank(line[end - 1]) {
        end -= 1;
    }
    &line[..end]
}

#[tactic(auto, unfolding(crate::specs::Word::word_len))]
fn word_len(text: &[u8]) -> usize
    ensures value { result ≡ word_len text.now }
    ensures within { result ≤ length text.now }
{
    for (i, octet) in text.iter().enumerate() {
        if *octet == b' ' {
            return i;
        }
    }
    text.len()
}

#[tactic(auto, unfolding(crate::specs::Word::space_len))]
fn space_len(text: &[u8]) -> usize
    ensures value { result ≡ space_len text.now }
    ensures within { result ≤ length text.now }
{
    for (i, octet) in text.iter().enumerate() {
        if *octet != b' ' {
            return i;
        }
    }
    text.len()
}

/// Returns the text up to the first space.
#[tactic(auto, unfolding(crate::specs::Word::first_word))]
pub fn first_word(text: &[u8]) -> &[u8]
    ensures { result.now ≡ first_word text.now }
{
    &text[..word_len(text)]
}

/// Returns the text after the first word and the spaces after it.
#[tactic(auto, unfolding(crate::specs::Word::argument_of))]
pub(crate) fn argument_of(text: &[u8]) -> &[u8]
    ensures { result.now ≡ argument_of text.now }
{
    let after = &text[word_len(text)..];
    &after[space_len(after)..]
}

/// Returns whether the text is this word, in any letter case (RFC 5321, section 2.4).
#[tactic(auto, unfolding(crate::specs::Word::is_word))]
pub fn is_word(text: &[u8], word: &[u8]) -> bool
    ensures { result ≡ is_word text.now word.now }
{
    text.eq_ignore_ascii_case(word)
}

/// Returns the text after a keyword, if it begins with that in any letter case.
#[tactic(auto, using(crate::proofs::WordLemmas::after_keyword_short), unfolding(crate::specs::Word::after_keyword))]
pub(crate) fn after_keyword<'a>(keyword: &[u8], text: &'a [u8]) -> Option<&'a [u8]>
    ensures { option_copied result ≡ after_keyword keyword.now text.now }
{
    let (front, after) = text.split_at_checked(keyword.len())?;
    if is_word(front, keyword) {
        Some(after)
    } else {
        None
    }
}

/// Returns whether the text is an address literal (RFC 5321, section 4.1.3): `[`, then letters, digits, `-`, `.`, `_`
/// and `:`, or none, then `]`.
#[tactic(auto, unfolding(crate::specs::Word::is_address_literal))]
pub fn is_address_literal(text: &[u8]) -> bool
    ensures { result ≡ is_address_literal text.now }
{
    match text {
        [b'[', inner @ .., b']'] => are_literal_octets(inner),
        _ => false,
    }
}

/// Returns whether the text is the word of HELO: 1 to 255 octets (RFC 5321, section 4.5.3.1.2), each of them one of a
/// domain, or an address literal.
#[tactic(auto, unfolding(crate::specs::Word::is_host_word))]
pub fn is_host_word(text: &[u8]) -> bool
    ensures { result ≡ is_host_word text.now }
{
    if text.is_empty() || text.len() > 255 {
        return false;
    }
    are_domain_octets(text) || is_address_literal(text)
}
