//! The messages that a change queues.
ghost use Rattle.std.specs.Prelude.{◌≡◌, ◌≤◌, ◌++◌, ◌∷◌, List, [], Some, codes, false, length, map, IfOk};
ghost use Rattle.relay_book.specs.declared.change.Change.{Change};
ghost use Rattle.relay_book.specs.Queue.{accepted, held_place, message_after, report_envelope, reported};
ghost use Rattle.relay_book.specs.Ready.{change_of, entry_of, message_in};

use crate::change::{Accept, Outcome};
use crate::message::{Message, Place, Places};
use crate::ready::Made;
use relay_envelope::{Envelope, Path, PathBuf, Recipient, Recipients};
use relay_octets::Octets;
use std::alloc::{AllocError, Global};
use std::mem;

/// The places of a message as it is accepted.
fn start_places(alloc: Global, accept: &Accept) -> Result<Places, AllocError>
    requires { length accept.now.envelope.recipients ≤ 100 }
    ensures { IfOk result (λ places.
        places ≡ map (λ recipient. held_place 0 false accept.now.at) accept.now.envelope.recipients) }
{
    let mut items = Vec::with_capacity(alloc, accept.envelope.recipients.len())?;
    for _ in accept.envelope.recipients.as_slice() {
        items.push(Place {
            held: true,
            laters: 0,
            delayed: false,
            due: accept.at.seconds(),
        })?;
    }
    Ok(Places::new(items))
}

/// A message as it is accepted.
pub(super) fn accepted(alloc: Global, number: u64, accept: Accept) -> Result<Message, AllocError>
    requires { length accept.envelope.recipients ≤ 100 }
    ensures { IfOk result (λ message. message ≡ accepted number accept) }
{
    let places = start_places(alloc, &accept)?;
    Ok(Message {
        number,
        accept,
        places,
    })
}

/// Returns the envelope of a report: from the null reverse path to the one of the message reported, without parameters.
fn report_envelope(alloc: Global, path: &PathBuf) -> Result<Envelope, AllocError>
    ensures { IfOk result (λ envelope. envelope ≡ report_envelope path.now) }
{
    let mut recipients = Recipients::with_capacity(alloc, 1)?;
    recipients.push(Recipient {
        path: path.copy(alloc)?,
        notify: None,
        orcpt: None,
    })?;
    Ok(Envelope {
        reverse_path: PathBuf::new(alloc, Path::Null)?,
        ret: None,
        envid: None,
        recipients,
    })
}

/// Returns what an outcome for a message queues; the report's text is moved, not copied.
#[tactic(auto, using(crate::proofs::ReadyLemmas::none_reported, crate::proofs::ReadyLemmas::one_reported))]
pub(super) fn made_of(
    alloc: Global,
    number: u64,
    message: &Message,
    mut outcome: Outcome,
) -> Result<Made, AllocError>
    ensures change { IfOk result (λ made. change_of made ≡ Change.Outcome outcome) }
    ensures message { IfOk result (λ made.
        entry_of number (message_in made) ≡ reported number outcome outcome.report (Some message.now)) }
{
    if outcome.report.is_empty() {
        return Ok(Made::Ruled(outcome));
    }
    let envelope = report_envelope(alloc, &message.accept.envelope.reverse_path)?;
    let stored_text = mem::replace(&mut outcome.report, Octets::new(Vec::new(alloc)));
    let accept = Accept {
        at: outcome.at,
        envelope,
        stored_text,
    };
    let report = accepted(alloc, number, accept)?;
    Ok(Made::Reported(outcome, report))
}

/// Returns the places of a message after an outcome.
pub(super) fn places_after(
    alloc: Global,
    message: &Message,
    outcome: &Outcome,
) -> Result<Places, AllocError>
    ensures { IfOk result (λ places. places ≡ (message_after outcome.now message.now).places) }
{
    let mut places = message.places.copy(alloc)?;
    places.rule(&message.accept, outcome);
    Ok(places)
}

/// Returns when places are due.
pub(super) fn moments_of(alloc: Global, places: &Places) -> Result<Vec<u64>, AllocError> {
    let mut moments = Vec::new(alloc);
    for place in places.as_slice() {
        if place.held {
            moments.push(place.due)?;
        }
    }
    Ok(moments)
}
