//! Lines of a script.
ghost use Rattle.std.specs.Prelude.{◌≡◌, ◌↔◌, [], ◌∷◌, codes, IfOk, IsTrue, MatchOption};
ghost use Rattle.relay_script.specs.Line.{IsSkipped, Spells, SpellsEvent, SpellsNoLine, SpellsWords};
ghost use Rattle.relay_script.specs.Line.Operand.{Number, Text};
ghost use Rattle.relay_script.specs.Reading.{LacksOperands, LacksWords, SpellsNoEvent, SpellsNoQuestion};
ghost use Rattle.relay_script.specs.Reading.{SpellsNoWithdrawal, SpellsOperands};
ghost use Rattle.relay_script.specs.Reading.Kind.{NumberKind, TextKind};

use crate::event::{Event, ScriptLine};
use crate::operands::{
    count_after, moment_after, node_after, node_and_numbers_after, node_within_numbers_after,
    number_after,
};
use crate::text::read_text;
use crate::word::{after, cut_word, read_number};
use relay_octets::Octets;
use std::alloc::{AllocError, Global};

/// Returns what a line says, which comes without its LF, or `None` where it is no line of a script. Fails if memory
/// runs out, which only the text of a `send` takes.
pub fn script_line(alloc: Global, line: &[u8]) -> Result<Option<ScriptLine>, AllocError>
    ensures { IfOk result (λ read. MatchOption read (SpellsNoLine line.now) (λ said. Spells line.now said)) }
{
    if is_skipped(line) {
        return Ok(Some(ScriptLine::Skipped));
    }
    if let Some(count) = count_after(b"nodes", line) {
        return Ok(Some(ScriptLine::Nodes { count }));
    }
    if let Some(question) = read_question(line) {
        return Ok(Some(question));
    }
    if let Some(event) = read_event(line) {
        return Ok(Some(ScriptLine::Event(event)));
    }
    match read_send(alloc, line)? {
        Some((link, text)) => Ok(Some(ScriptLine::Event(Event::Send { link, text }))),
        None => Ok(None),
    }
}

/// Returns whether a line is empty or a remark.
fn is_skipped(line: &[u8]) -> bool
    ensures { IsTrue result ↔ IsSkipped line.now }
{
    match line.first() {
        Some(octet) => *octet == b'#',
        None => true,
    }
}

/// Returns what a line asks for.
fn read_question(line: &[u8]) -> Option<ScriptLine>
    ensures { MatchOption result (SpellsNoQuestion line.now) (λ question. Spells line.now question) }
{
    if is_keyword(line, b"ledger") {
        return Some(ScriptLine::Ledger);
    }
    if is_keyword(line, b"marks") {
        return Some(ScriptLine::Marks);
    }
    if let Some((node, number, place)) = node_and_numbers_after(b"copies", line) {
        return Some(ScriptLine::Copies {
            node,
            number,
            place,
        });
    }
    let (node, number, place) = node_and_numbers_after(b"lost", line)?;
    Some(ScriptLine::Lost {
        node,
        number,
        place,
    })
}

/// Returns whether a line is that keyword alone.
fn is_keyword(line: &[u8], keyword: &[u8]) -> bool
    ensures { IsTrue result ↔ (line.now ≡ keyword.now) }
{
    line == keyword
}

/// Returns the event of a line, but for octets that are written on a link.
fn read_event(line: &[u8]) -> Option<Event>
    ensures { MatchOption result (SpellsNoEvent line.now) (λ event. SpellsEvent line.now event) }
{
    if let Some(node) = node_after(b"connect", line) {
        return Some(Event::Connect { node });
    }
    if let Some((link, node, count)) = node_within_numbers_after(b"carry", line) {
        return Some(Event::Carry { link, node, count });
    }
    if let Some(link) = number_after(b"break", line) {
        return Some(Event::Break { link });
    }
    if let Some(moment) = moment_after(b"tick", line) {
        return Some(Event::Tick { moment });
    }
    if let Some(node) = node_after(b"give", line) {
        return Some(Event::Give { node });
    }
    if let Some(node) = node_after(b"compact", line) {
        return Some(Event::Compact { node });
    }
    if let Some((node, calls, pick)) = node_and_numbers_after(b"stop", line) {
        return Some(Event::Stop { node, calls, pick });
    }
    read_withdrawal(line)
}

/// Returns the places that the postmaster withdraws in a line.
fn read_withdrawal(line: &[u8]) -> Option<Event>
    ensures { MatchOption result (SpellsNoWithdrawal line.now) (λ event. SpellsEvent line.now event) }
{
    if let Some((node, number, place)) = node_and_numbers_after(b"return", line) {
        return Some(Event::Return {
            node,
            number,
            place,
        });
    }
    let (node, number, place) = node_and_numbers_after(b"discard", line)?;
    Some(Event::Discard {
        node,
        number,
        place,
    })
}

/// Returns the link of a `send`, and the octets that are written on it.
#[tactic(auto, using(crate::proofs::LineLemmas::several_after))]
fn read_send(alloc: Global, line: &[u8]) -> Result<Option<(u64, Octets)>, AllocError>
    ensures { IfOk result (λ read. MatchOption read (LacksWords (codes "send") (NumberKind ∷ TextKind ∷ []) line.now)
        (λ send. SpellsWords line.now (codes "send") (Number send.0 ∷ Text send.1 ∷ []))) }
{
    match after(b"send", line) {
        Some(operands) => number_and_text(alloc, operands),
        None => Ok(None),
    }
}

/// Returns a number and a text.
#[tactic(auto, using(crate::proofs::OperandLemmas::first_and_others))]
fn number_and_text(alloc: Global, operands: &[u8]) -> Result<Option<(u64, Octets)>, AllocError>
    ensures { IfOk result (λ read. MatchOption read (LacksOperands (NumberKind ∷ TextKind ∷ []) operands.now)
        (λ send. SpellsOperands operands.now (Number send.0 ∷ Text send.1 ∷ []))) }
{
    let Some((word, text)) = cut_word(operands) else {
        return Ok(None);
    };
    let Some(number) = read_number(word) else {
        return Ok(None);
    };
    match read_text(alloc, text)? {
        Some(octets) => Ok(Some((number, octets))),
        None => Ok(None),
    }
}
