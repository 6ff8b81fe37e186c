//! The outline of a change: its text is replaced by its length.
ghost use Rattle.std.specs.Prelude.{◌≡◌, [], IfOk};
ghost use Rattle.relay_book.specs.Outline.{outline_accept, outline_change, outline_message, outline_outcome};
ghost use Rattle.relay_book.specs.FirstOutline.{outline_of_length};
ghost use Rattle.relay_book.specs.Outline.{length_in, outline_text};

use crate::change::{Accept, Change, Outcome};
use crate::message::Message;
use relay_octets::Octets;
use std::alloc::{AllocError, Global};

/// Returns the length that stands in for a text in an outline. Allocates nothing.
pub fn length_in(octets: &[u8]) -> u64
    ensures { result ≡ length_in octets.now }
{
    match octets {
        [a, b, c, d, e, f, g, h] => u64::from_be_bytes([*a, *b, *c, *d, *e, *f, *g, *h]),
        _ => 0,
    }
}

/// Returns what stands in for a text: its length in eight octets, and nothing for an empty text.
#[tactic(auto, using(crate::proofs::OutlineLemmas::outline_by_length))]
fn outline_text(alloc: Global, text: &[u8]) -> Result<Octets, AllocError>
    ensures { IfOk result (λ outline. outline ≡ outline_text text.now) }
{
    outline_of_length(alloc, text.len() as u64)
}

/// Returns the same for a text of this length.
#[tactic(auto, unfolding(crate::specs::Record::octets_8))]
pub(crate) fn outline_of_length(alloc: Global, length: u64) -> Result<Octets, AllocError>
    ensures { IfOk result (λ outline. outline ≡ outline_of_length length) }
{
    if length == 0 {
        return Ok(Octets::new(Vec::new(alloc)));
    }
    Octets::from_slice(alloc, &length.to_be_bytes())
}

/// Outlines the text of an accept.
fn outline_accept(alloc: Global, accept: Accept) -> Result<Accept, AllocError>
    ensures { IfOk result (λ outline. outline ≡ outline_accept accept) }
{
    let mut accept = accept;
    accept.stored_text = outline_text(alloc, accept.stored_text.as_slice())?;
    Ok(accept)
}

/// Outlines the report of an outcome.
fn outline_outcome(alloc: Global, outcome: Outcome) -> Result<Outcome, AllocError>
    ensures { IfOk result (λ outline. outline ≡ outline_outcome outcome) }
{
    let mut outcome = outcome;
    outcome.report = outline_text(alloc, outcome.report.as_slice())?;
    Ok(outcome)
}

/// Outlines the text of a message. The memory of the text is freed.
pub(crate) fn outline_message(alloc: Global, message: Message) -> Result<Message, AllocError>
    ensures { IfOk result (λ outline. outline ≡ outline_message message) }
{
    let mut message = message;
    message.accept.stored_text = outline_text(alloc, message.accept.stored_text.as_slice())?;
    Ok(message)
}

/// Outlines the text of a change. The memory of the text is freed.
pub(crate) fn outline_change(alloc: Global, change: Change) -> Result<Change, AllocError>
    ensures { IfOk result (λ outline. outline ≡ outline_change change) }
{
    match change {
        Change::Accept(accept) => {
            let outline = outline_accept(alloc, accept)?;
            Ok(Change::Accept(outline))
        }
        Change::Outcome(outcome) => {
            let outline = outline_outcome(alloc, outcome)?;
            Ok(Change::Outcome(outline))
        }
    }
}
