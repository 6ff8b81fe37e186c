//! The words of a line.
ghost use Rattle.std.specs.Prelude.{◌≡◌, [], ◌∷◌, MatchOption, Some, None};
ghost use Rattle.std.specs.Char.{is_ascii_digit};
ghost use Rattle.std.specs.List.{list_all};
ghost use Rattle.relay_script.specs.Line.{IsOperand};
ghost use Rattle.relay_script.specs.Line.Operand.{Count, Node, Number, Time};
ghost use Rattle.relay_script.specs.Reading.{are_number_digits, CutsWord, HasNoSpace, IsNotAfter, LacksOperand};
ghost use Rattle.relay_script.specs.Reading.{StandsAfter};
ghost use Rattle.relay_script.specs.Reading.Kind.{CountKind, NodeKind, NumberKind, TimeKind};

use crate::node_count::NodeCount;
use crate::node_index::{MOST_NODES, NodeIndex};
use bstr::ByteSlice;
use relay_trace::Moment;
use std::str;

/// The most digits of a number.
const DIGIT_LIMIT: usize = 18;

/// Returns what is after the keyword and a space that a text begins with.
#[tactic(auto, using(crate::proofs::WordLemmas::keyword))]
pub(crate) fn after<'a>(keyword: &[u8], text: &'a [u8]) -> Option<&'a [u8]>
    ensures { MatchOption result (IsNotAfter keyword.now text.now)
        (λ rest. StandsAfter keyword.now text.now rest.now) }
{
    let more = text.strip_prefix(keyword)?;
    more.strip_prefix(b" ")
}

/// Returns the word before the first space, and what is after that space.
#[tactic(auto, using(crate::proofs::CutLemmas::cut_is))]
pub(crate) fn cut_word(text: &[u8]) -> Option<(&[u8], &[u8])>
    ensures { MatchOption result (HasNoSpace text.now) (λ parts. CutsWord text.now parts.0.now parts.1.now) }
{
    text.split_once_str(b" ")
}

/// Returns the node of a letter.
pub(crate) fn read_node(word: &[u8]) -> Option<NodeIndex>
    ensures { MatchOption result (LacksOperand NodeKind word.now) (λ node. IsOperand word.now (Node node)) }
{
    match word {
        [letter] => node_of_letter(*letter),
        _ => None,
    }
}

/// Returns the node of a letter, `a` to `p`.
fn node_of_letter(letter: u8) -> Option<NodeIndex>
    ensures { MatchOption result (LacksOperand NodeKind (letter ∷ [])) (λ node. IsOperand (letter ∷ []) (Node node)) }
{
    match letter {
        b'a'..=b'p' => Some(NodeIndex::new((letter - b'a') as usize)),
        _ => None,
    }
}

/// Returns the number of 1 to 18 digits, leading zeros among them.
#[tactic(auto, using(crate::proofs::NumberLemmas::no_number))]
pub(crate) fn read_number(word: &[u8]) -> Option<u64>
    ensures { MatchOption result (LacksOperand NumberKind word.now) (λ number. IsOperand word.now (Number number)) }
{
    if !are_number_digits(word) {
        return None;
    }
    match str::from_utf8(word) {
        Ok(digits) => digits.parse().ok(),
        Err(_) => None,
    }
}

/// Returns whether a word is 1 to 18 digits.
#[tactic(auto, unfolding(crate::specs::Reading::are_number_digits))]
fn are_number_digits(word: &[u8]) -> bool
    ensures { result ≡ are_number_digits word.now }
{
    if word.is_empty() || word.len() > DIGIT_LIMIT {
        return false;
    }
    are_digits(word)
}

/// Returns whether each octet is a digit.
fn are_digits(text: &[u8]) -> bool
    ensures { result ≡ list_all is_ascii_digit text.now }
{
    text.iter().all(|octet| octet.is_ascii_digit())
}

/// Returns how many nodes a word says, 2 to 16.
#[tactic(auto, using(crate::proofs::NumberLemmas::no_count, crate::proofs::NumberLemmas::other_count))]
pub(crate) fn read_count(word: &[u8]) -> Option<NodeCount>
    ensures { MatchOption result (LacksOperand CountKind word.now) (λ count. IsOperand word.now (Count count)) }
{
    let count = read_number(word)?;
    if (2..=MOST_NODES as u64).contains(&count) {
        Some(NodeCount::new(count as usize))
    } else {
        None
    }
}

/// Returns the time whose seconds from 1970 a word writes.
#[tactic(auto, using(crate::proofs::NumberLemmas::no_moment, crate::proofs::NumberLemmas::late_moment))]
pub(crate) fn read_moment(word: &[u8]) -> Option<Moment>
    ensures { MatchOption result (LacksOperand TimeKind word.now) (λ moment. IsOperand word.now (Time moment)) }
{
    let seconds = read_number(word)?;
    Moment::new(seconds).ok()
}
