//! The hops of a message's places.
ghost use Rattle.std.specs.Prelude.{◌≡◌, ◌≤◌, IfOk, length};
ghost use Rattle.std.specs.Option.{option_copied};
ghost use Rattle.relay_book.specs.Queue.{is_due_at};
ghost use Rattle.relay_attempts.specs.Hops.{due_places_in, goes_to, hop_name, hop_of_place, is_any, is_due_for};
ghost use Rattle.relay_attempts.specs.Hops.{is_stranded, stranded_places};

use relay_book::{Message, Place};
use relay_envelope::{PathBuf, Recipients};
use relay_routes::{HostName, Table};
use relay_trace::Moment;
use std::alloc::{AllocError, Global};

/// Returns the name of the next hop of a path.
#[tactic(auto, unfolding(crate::specs::Hops::hop_name))]
fn hop_name<'a>(table: &'a Table, path: &PathBuf) -> Option<&'a HostName>
    ensures { option_copied result ≡ hop_name table.now path.now }
{
    match table.hop_at(path) {
        Some(hop) => Some(&hop.name),
        None => None,
    }
}

/// Returns the name of the hop of this place.
pub(crate) fn hop_of_place<'a>(
    table: &'a Table,
    recipients: &Recipients,
    place: usize,
) -> Option<&'a HostName>
    ensures { option_copied result ≡ hop_of_place table.now recipients.now place }
{
    match recipients.as_slice().get(place) {
        Some(recipient) => hop_name(table, &recipient.path),
        None => None,
    }
}

/// Returns whether a place goes to the hop of this name.
pub(crate) fn goes_to(table: &Table, recipients: &Recipients, hop: &HostName, place: usize) -> bool
    ensures { result ≡ goes_to table.now recipients.now hop.now place }
{
    match hop_of_place(table, recipients, place) {
        Some(name) => name.as_slice() == hop.as_slice(),
        None => false,
    }
}

/// Returns whether a held place has no hop.
pub(crate) fn is_stranded(
    table: &Table,
    recipients: &Recipients,
    index: usize,
    place: Place,
) -> bool
    ensures { result ≡ is_stranded table.now recipients.now index place }
{
    place.held && hop_of_place(table, recipients, index).is_none()
}

/// Returns whether a held place is due and goes to this hop.
pub(crate) fn is_due_for(
    table: &Table,
    recipients: &Recipients,
    hop: &HostName,
    now: Moment,
    index: usize,
    place: Place,
) -> bool
    ensures { result ≡ is_due_for table.now recipients.now hop.now now index place }
{
    is_due(place, now) && goes_to(table, recipients, hop, index)
}

/// Returns whether a held place is due.
pub(crate) fn is_due(place: Place, now: Moment) -> bool
    ensures { result ≡ is_due_at now place }
{
    place.held && place.due <= now.seconds()
}

/// Returns whether a held place of a message has no hop.
pub(crate) fn has_stranded(table: &Table, message: &Message) -> bool
    ensures stranded { result ≡ is_any (stranded_places table.now message.now) }
    ensures within { length message.now.places ≤ 100 }
{
    let recipients = &message.accept.envelope.recipients;
    for (index, place) in message.places.as_slice().iter().enumerate() {
        if is_stranded(table, recipients, index, *place) {
            return true;
        }
    }
    false
}

/// Returns whether a place of a message is due and goes to this hop.
pub(crate) fn has_due(table: &Table, message: &Message, hop: &HostName, now: Moment) -> bool
    ensures { result ≡ is_any (due_places_in table.now hop.now now message.now) }
{
    let recipients = &message.accept.envelope.recipients;
    for (index, place) in message.places.as_slice().iter().enumerate() {
        if is_due_for(table, recipients, hop, now, index, *place) {
            return true;
        }
    }
    false
}

/// Returns the places of a message that are due and go to this hop, in order. Fails if memory runs out.
pub(crate) fn due_places(
    alloc: Global,
    table: &Table,
    message: &Message,
    hop: &HostName,
    now: Moment,
) -> Result<Vec<u8>, AllocError>
    ensures { IfOk result (λ places. places.items ≡ due_places_in table.now hop.now now message.now) }
{
    let recipients = &message.accept.envelope.recipients;
    let mut places = Vec::new(alloc);
    for (index, place) in message.places.as_slice().iter().enumerate() {
        if is_due_for(table, recipients, hop, now, index, *place) {
            places.push(index as u8)?;
        }
    }
    Ok(places)
}

/// Returns the held places of a message that have no hop, in order. Fails if memory runs out.
pub(crate) fn stranded_places(
    alloc: Global,
    table: &Table,
    message: &Message,
) -> Result<Vec<u8>, AllocError>
    ensures { IfOk result (λ places. places.items ≡ stranded_places table.now message.now) }
{
    let recipients = &message.accept.envelope.recipients;
    let mut places = Vec::new(alloc);
    for (index, place) in message.places.as_slice().iter().enumerate() {
        if is_stranded(table, recipients, index, *place) {
            places.push(index as u8)?;
        }
    }
    Ok(places)
}
