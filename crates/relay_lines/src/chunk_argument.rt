//! The argument of BDAT (RFC 3030, section 2).
ghost use Rattle.std.specs.Prelude.{◌≡◌, ◌↔◌, MatchResult, IsTrue, Ok, Some, None};
ghost use Rattle.relay_lines.specs.ChunkArgument.{SpellsBdat, are_digits, are_size_digits, bdat_argument_of};
ghost use Rattle.relay_lines.specs.ChunkArgument.{begins_with_bdat, chunk_size_of, size_of_digits, BeginsWithBdat};
ghost use Rattle.relay_lines.specs.declared.chunk_argument.BdatArgument.{BdatArgument};

use crate::word::{after_keyword, argument_of, first_word, is_word};
use std::str;
use thiserror::Error;

/// The argument of BDAT.
#[derive(Clone, Copy, PartialEq, Eq)]
pub struct BdatArgument {
    /// How many octets of content follow the line at once.
    pub size: u32,
    /// Whether they are the last ones of the message.
    pub last: bool,
}

/// A text after BDAT that is neither a size nor a size and LAST. A size is 1 to 10 digits, leading
/// zeros among them, and at most 4,294,967,295.
#[derive(Clone, Copy, Debug, PartialEq, Eq, Error)]
#[error("bad chunk size")]
pub struct BadChunkSize;

impl BdatArgument {
    /// Reads the argument of BDAT: `size` or `size LAST`, with LAST in any letter case and one space or more before it.
    /// It has no blanks at its end.
    pub fn parse(text: &[u8]) -> Result<BdatArgument, BadChunkSize>
        ensures value { MatchResult result (λ argument. bdat_argument_of text.now ≡ Some argument)
            (λ _. bdat_argument_of text.now ≡ None) }
        ensures spelled { (argument : BdatArgument) → (result ≡ Ok argument) ↔ SpellsBdat text.now argument }
    {
        BdatArgument::read(text).ok_or(BadChunkSize)
    }

    #[tactic(auto, unfolding(crate::specs::ChunkArgument::bdat_argument_of))]
    fn read(text: &[u8]) -> Option<BdatArgument>
        ensures { result ≡ bdat_argument_of text.now }
    {
        let digits = first_word(text);
        if digits.len() == text.len() {
            return Some(BdatArgument {
                size: chunk_size(text)?,
                last: false,
            });
        }
        if !is_word(argument_of(text), b"LAST") {
            return None;
        }
        Some(BdatArgument {
            size: chunk_size(digits)?,
            last: true,
        })
    }
}

/// Reads a chunk-size.
#[tactic(auto, unfolding(crate::specs::ChunkArgument::chunk_size_of))]
fn chunk_size(text: &[u8]) -> Option<u32>
    ensures { result ≡ chunk_size_of text.now }
{
    if are_size_digits(text) {
        size_of_digits(text)
    } else {
        None
    }
}

/// Returns whether the text is 1 to 10 digits.
#[tactic(auto, unfolding(crate::specs::ChunkArgument::are_size_digits))]
fn are_size_digits(text: &[u8]) -> bool
    ensures { result ≡ are_size_digits text.now }
{
    if text.is_empty() || text.len() > 10 {
        return false;
    }
    are_digits(text)
}

#[tactic(auto, unfolding(crate::specs::ChunkArgument::are_digits))]
fn are_digits(text: &[u8]) -> bool
    ensures { result ≡ are_digits text.now }
{
    text.iter().all(|octet| octet.is_ascii_digit())
}

/// Returns the number that digits spell, if it is a chunk-size.
fn size_of_digits(digits: &[u8]) -> Option<u32>
    requires { IsTrue (are_size_digits digits.now) }
    ensures { result ≡ size_of_digits digits.now }
{
    match str::from_utf8(digits) {
        Ok(text) => text.parse().ok(),
        Err(_) => None,
    }
}

/// Returns whether a line begins with BDAT, in any letter case, and a space. A line that is too long and begins so has
/// a bad chunk size.
#[tactic(auto, using(crate::proofs::ChunkArgumentLemmas::bdat_is_found))]
pub fn begins_with_bdat(line: &[u8]) -> bool
    ensures value { result ≡ begins_with_bdat line.now }
    ensures begins { IsTrue result ↔ BeginsWithBdat line.now }
{
    after_keyword(b"BDAT ", line).is_some()
}
