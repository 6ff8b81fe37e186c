//! The note of the last append that was begun.
ghost use Rattle.std.specs.Prelude.{◌≡◌, IfOk};
ghost use Rattle.relay_records.specs.Note.{NotesNext, accepted_by, queues_report};

use relay_book::{Book, Change, PlaceStep};
use relay_octets::Octets;
use std::alloc::{AllocError, Global};

/// The last change whose append was begun, also where a stop left it open.
#[derive(Debug)]
pub struct Noted {
    /// Its number.
    pub number: u64,
    /// Its record.
    pub octets: Octets,
    /// How many octets of its piece the call had used when the append began.
    pub used: usize,
    /// The recipients of an accept; 0 for an outcome.
    pub accepted: usize,
    /// Each place that left by it or that it reported as delayed, which stays held, in order, and which of both.
    pub left: Vec<(u8, PlaceStep)>,
    /// Whether it queued a report.
    pub report: bool,
}

// Written out, so that the proof of a caller that drops a note stops at this function.
impl Drop for Noted {
    fn drop(self) {
        let Noted {
            number: _,
            octets: _octets,
            used: _,
            accepted: _,
            left: _left,
            report: _,
        } = self;
    }
}

/// Returns how many recipients a change accepts.
fn accepted_by(change: &Change) -> usize
    ensures { result ≡ accepted_by change.now }
{
    match change {
        Change::Accept(accept) => accept.envelope.recipients.as_slice().len(),
        Change::Outcome(_) => 0,
    }
}

/// Returns whether a change queues a report.
fn queues_report(change: &Change) -> bool
    ensures { result ≡ queues_report change.now }
{
    match change {
        Change::Accept(_) => false,
        Change::Outcome(outcome) => match outcome.report.as_slice() {
            [] => false,
            [_, ..] => true,
        },
    }
}

/// Returns the note of the next change, of which these octets are the record. Fails if memory runs out.
pub(crate) fn note_of(
    alloc: Global,
    book: &Book,
    change: &Change,
    octets: Octets,
    used: usize,
) -> Result<Noted, AllocError>
    ensures { IfOk result (NotesNext book.now.queue change.now octets used) }
{
    let left = book.place_steps(alloc, change)?;
    Ok(Noted {
        number: book.next_number(),
        octets,
        used,
        accepted: accepted_by(change),
        left,
        report: queues_report(change),
    })
}
