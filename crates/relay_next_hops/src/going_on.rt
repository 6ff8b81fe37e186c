//! What an attempt leaves of a message at its next hop, since it has a bounded number of recipients: the next attempt
//! there is for that.
ghost use Rattle.std.specs.Prelude.{◌≡◌, false, true};
ghost use Rattle.relay_attempts.specs.Hops.{due_places_in, goes_to, is_any, is_due_for};
ghost use Rattle.relay_next_hops.specs.GoingOn.{GoesOnWith, is_due_there};
ghost use Rattle.relay_next_hops.specs.Lanes.{KeepsCounts};

use crate::delivery::Delivery;
use crate::lanes::Lanes;
use crate::sorting::hop_of_place;
use relay_book::{Message, Place};
use relay_connections::Now;
use relay_disk::Disk;
use relay_envelope::Recipient;
use relay_loop::Relay;
use relay_routes::{HostName, Table};

/// Puts the message of a delivery whose attempt has ended before the others of its lane, if more of it is due there.
pub(crate) fn go_on<D: Disk>(relay: &Relay<D>, lanes: &mut Lanes, delivery: Delivery, now: &Now)
    ensures more { is_due_there relay.now delivery.message delivery.name now.now.moment ≡ true
        → GoesOnWith delivery lanes.old lanes.new }
    ensures none { is_due_there relay.now delivery.message delivery.name now.now.moment ≡ false
        → lanes.new ≡ lanes.old }
    ensures counts { KeepsCounts lanes.old lanes.new }
{
    if !is_due_there(relay, delivery.message, &delivery.name, now) {
        return;
    }
    let lane = delivery.aim.lane;
    lanes.put_back(lane, delivery.into_rest());
}

/// Returns whether a place of a message is due that goes to this next hop.
fn is_due_there<D: Disk>(relay: &Relay<D>, message: u64, name: &HostName, now: &Now) -> bool
    ensures { result ≡ is_due_there relay.now message name.now now.now.moment }
{
    match relay.node().message(message) {
        Some(message) => has_due(&relay.node().config().routes, message, name, now),
        None => false,
    }
}

/// Returns whether one of the places of a message is due and goes to this next hop.
fn has_due(routes: &Table, message: &Message, name: &HostName, now: &Now) -> bool
    ensures { result ≡ is_any (due_places_in routes.now name.now now.now.moment message.now) }
{
    let recipients = message.accept.envelope.recipients.as_slice();
    for (index, place) in message.places.as_slice().iter().enumerate() {
        if is_due_for(routes, recipients, name, index, *place, now) {
            return true;
        }
    }
    false
}

/// Returns whether a held place is due and goes to this next hop.
fn is_due_for(
    routes: &Table,
    recipients: &[Recipient],
    name: &HostName,
    index: usize,
    place: Place,
    now: &Now,
) -> bool
    ensures { result ≡ is_due_for routes.now recipients.now name.now now.now.moment index place }
{
    place.held && place.due <= now.moment.seconds() && goes_to(routes, recipients, name, index)
}

/// Returns whether a place goes to this next hop.
#[tactic(auto, using(crate::proofs::GoingOnLemmas::name_of))]
fn goes_to(routes: &Table, recipients: &[Recipient], name: &HostName, index: usize) -> bool
    ensures { result ≡ goes_to routes.now recipients.now name.now index }
{
    match hop_of_place(routes, recipients, index) {
        Some(hop) => hop.name.as_slice() == name.as_slice(),
        None => false,
    }
}
