//! The operands after a keyword, one space apart.
ghost use Rattle.std.specs.Prelude.{[], ◌∷◌, MatchOption};
ghost use Rattle.relay_script.specs.Line.{SpellsWords};
ghost use Rattle.relay_script.specs.Line.Operand.{Count, Node, Number, Time};
ghost use Rattle.relay_script.specs.Reading.{LacksOperands, LacksWords, SpellsOperands};
ghost use Rattle.relay_script.specs.Reading.Kind.{CountKind, NodeKind, NumberKind, TimeKind};

use crate::node_count::NodeCount;
use crate::node_index::NodeIndex;
use crate::word::{after, cut_word, read_count, read_moment, read_node, read_number};
use relay_trace::Moment;

/// Returns a node after the keyword.
#[tactic(auto, using(crate::proofs::LineLemmas::no_words_after))]
pub(crate) fn node_after(keyword: &[u8], line: &[u8]) -> Option<NodeIndex>
    ensures { MatchOption result (LacksWords keyword.now (NodeKind ∷ []) line.now)
        (λ node. SpellsWords line.now keyword.now (Node node ∷ [])) }
{
    let word = after(keyword, line)?;
    read_node(word)
}

/// Returns a number after the keyword.
#[tactic(auto, using(crate::proofs::LineLemmas::no_words_after))]
pub(crate) fn number_after(keyword: &[u8], line: &[u8]) -> Option<u64>
    ensures { MatchOption result (LacksWords keyword.now (NumberKind ∷ []) line.now)
        (λ number. SpellsWords line.now keyword.now (Number number ∷ [])) }
{
    let word = after(keyword, line)?;
    read_number(word)
}

/// Returns a count of nodes after the keyword.
#[tactic(auto, using(crate::proofs::LineLemmas::no_words_after))]
pub(crate) fn count_after(keyword: &[u8], line: &[u8]) -> Option<NodeCount>
    ensures { MatchOption result (LacksWords keyword.now (CountKind ∷ []) line.now)
        (λ count. SpellsWords line.now keyword.now (Count count ∷ [])) }
{
    let word = after(keyword, line)?;
    read_count(word)
}

/// Returns a time after the keyword.
#[tactic(auto, using(crate::proofs::LineLemmas::no_words_after))]
pub(crate) fn moment_after(keyword: &[u8], line: &[u8]) -> Option<Moment>
    ensures { MatchOption result (LacksWords keyword.now (TimeKind ∷ []) line.now)
        (λ moment. SpellsWords line.now keyword.now (Time moment ∷ [])) }
{
    let word = after(keyword, line)?;
    read_moment(word)
}

/// Returns a node and two numbers after the keyword.
#[tactic(auto, using(crate::proofs::LineLemmas::several_after))]
pub(crate) fn node_and_numbers_after(keyword: &[u8], line: &[u8]) -> Option<(NodeIndex, u64, u64)>
    ensures { MatchOption result (LacksWords keyword.now (NodeKind ∷ NumberKind ∷ NumberKind ∷ []) line.now)
        (λ read. SpellsWords line.now keyword.now (Node read.0 ∷ Number read.1 ∷ Number read.2 ∷ [])) }
{
    let text = after(keyword, line)?;
    node_and_numbers(text)
}

/// Returns a number, a node and a number after the keyword.
#[tactic(auto, using(crate::proofs::LineLemmas::several_after))]
pub(crate) fn node_within_numbers_after(
    keyword: &[u8],
    line: &[u8],
) -> Option<(u64, NodeIndex, u64)>
    ensures { MatchOption result (LacksWords keyword.now (NumberKind ∷ NodeKind ∷ NumberKind ∷ []) line.now)
        (λ read. SpellsWords line.now keyword.now (Number read.0 ∷ Node read.1 ∷ Number read.2 ∷ [])) }
{
    let text = after(keyword, line)?;
    node_within_numbers(text)
}

/// Returns a node and two numbers.
#[tactic(auto, using(crate::proofs::OperandLemmas::first_and_others))]
fn node_and_numbers(text: &[u8]) -> Option<(NodeIndex, u64, u64)>
    ensures { MatchOption result (LacksOperands (NodeKind ∷ NumberKind ∷ NumberKind ∷ []) text.now)
        (λ read. SpellsOperands text.now (Node read.0 ∷ Number read.1 ∷ Number read.2 ∷ [])) }
{
    let (word, rest) = cut_word(text)?;
    let node = read_node(word)?;
    let (first, second) = two_numbers(rest)?;
    Some((node, first, second))
}

/// Returns a number, a node and a number.
#[tactic(auto, using(crate::proofs::OperandLemmas::first_and_others))]
fn node_within_numbers(text: &[u8]) -> Option<(u64, NodeIndex, u64)>
    ensures { MatchOption result (LacksOperands (NumberKind ∷ NodeKind ∷ NumberKind ∷ []) text.now)
        (λ read. SpellsOperands text.now (Number read.0 ∷ Node read.1 ∷ Number read.2 ∷ [])) }
{
    let (word, rest) = cut_word(text)?;
    let first = read_number(word)?;
    let (node, second) = node_and_number(rest)?;
    Some((first, node, second))
}

/// Two numbers.
#[tactic(auto, using(crate::proofs::OperandLemmas::first_and_others))]
fn two_numbers(text: &[u8]) -> Option<(u64, u64)>
    ensures { MatchOption result (LacksOperands (NumberKind ∷ NumberKind ∷ []) text.now)
        (λ read. SpellsOperands text.now (Number read.0 ∷ Number read.1 ∷ [])) }
{
    let (word, rest) = cut_word(text)?;
    let first = read_number(word)?;
    let second = read_number(rest)?;
    Some((first, second))
}

/// Returns a node and a number.
#[tactic(auto, using(crate::proofs::OperandLemmas::first_and_others))]
fn node_and_number(text: &[u8]) -> Option<(NodeIndex, u64)>
    ensures { MatchOption result (LacksOperands (NodeKind ∷ NumberKind ∷ []) text.now)
        (λ read. SpellsOperands text.now (Node read.0 ∷ Number read.1 ∷ [])) }
{
    let (word, rest) = cut_word(text)?;
    let node = read_node(word)?;
    let number = read_number(rest)?;
    Some((node, number))
}
