//! Held mail whose time is over: it expires as other mail does, by a loss that is recorded without a connection.
ghost use Rattle.std.specs.Prelude.{◌≡◌, IfOk, MatchOption, Ok, OnOk, Some, drop, false, if◌then◌else◌, length};
ghost use Rattle.std.specs.Prelude.{option_copied, true};
ghost use Rattle.relay_connections.specs.Served.{LeavesClients};
ghost use Rattle.relay_next_hops.specs.Expiry.{GoesOver, IsOver, NoneIsOver, is_kept_over, is_over};
ghost use Rattle.relay_next_hops.specs.Lanes.{KeepsCounts};
ghost use Rattle.relay_next_hops.specs.Listing.{route_of};
ghost use Rattle.relay_next_hops.specs.Losses.{IsRecordedIf};

use crate::delivery::{Aim, Delivery};
use crate::ending::lose_held;
use crate::lanes::Lanes;
use crate::sorting::hop_of_place;
use crate::starting::delivery_of;
use relay_book::{Accept, Message, PATIENCE, Place};
use relay_connections::Now;
use relay_disk::Disk;
use relay_files::Fault;
use relay_lanes::Task;
use relay_log::Log;
use relay_loop::Relay;
use relay_routes::{Hop, Table};
use relay_trace::Moment;
use std::alloc::AllocError;

/// Records the loss of held mail that is over: of the first message that is to be given up. Returns whether it is
/// recorded. That message stays the first then, since other mail of it may be over; else the others follow.
pub(crate) fn expire<D: Disk>(
    relay: &mut Relay<D>,
    lanes: &mut Lanes,
    delivery: Delivery,
    now: &Now,
    log: &mut Log<'_, Vec<u8>>,
) -> Result<bool, Fault>
    ensures lost { IfOk result (IsRecordedIf D.words now.now.moment delivery relay.old relay.new) }
    ensures left { IfOk result (λ ended. lanes.new.unroutable.items
        ≡ (if ended then lanes.old.unroutable.items else drop 1 lanes.old.unroutable.items)) }
    ensures counts { KeepsCounts lanes.old lanes.new }
    ensures tasks { (lanes.new.lanes ≡ lanes.old.lanes) × (lanes.new.is_open ≡ lanes.old.is_open) }
    ensures config { relay.new.node.config ≡ relay.old.node.config }
    ensures leaves { OnOk result (LeavesClients D.honest D.words relay.old relay.new) }
{
    if lose_held(relay, delivery, None, now, log)? {
        return Ok(true);
    }
    let _ = lanes.next_unroutable();
    Ok(false)
}

/// Returns a delivery without an attempt, for mail of a message that a postmaster holds and whose time is over, if there
/// is some. Fails if memory runs out.
pub(crate) fn over_delivery<D: Disk>(
    relay: &Relay<D>,
    lanes: &Lanes,
    number: u64,
    now: &Now,
) -> Result<Option<Delivery>, AllocError>
    ensures { IfOk result (IsOver now.now.moment lanes.now.held relay.now.node number) }
{
    let Some(message) = relay.node().message(number) else {
        return Ok(None);
    };
    let Some(hop) = over_hop(lanes, &relay.node().config().routes, number, message, now) else {
        return Ok(None);
    };
    let task = Task {
        message: number,
        hop: hop.name.copy(lanes.alloc)?,
        early: false,
    };
    // It counts in no lane.
    let aim = Aim {
        lane: 0,
        at: hop.at,
        beside: false,
        accepted: Some(message.accept.at),
        early: false,
    };
    Ok(Some(delivery_of(task, aim)))
}

/// Returns the next hop of the first place of a message whose time is over and that a postmaster holds.
fn over_hop<'a>(
    lanes: &Lanes,
    routes: &'a Table,
    number: u64,
    message: &Message,
    now: &Now,
) -> Option<&'a Hop>
    ensures { MatchOption (option_copied result)
        (NoneIsOver now.now.moment lanes.now.held routes.now number message.now.accept message.now.places
        (length message.now.places))
        (GoesOver now.now.moment lanes.now.held routes.now number message.now.accept message.now.places) }
{
    for (index, place) in message.places.as_slice().iter().enumerate() {
        if let Some(hop) = over_hop_of(lanes, routes, number, &message.accept, index, *place, now) {
            return Some(hop);
        }
    }
    None
}

/// Returns the next hop of a place of a message, if its time is over and a postmaster holds it.
fn over_hop_of<'a>(
    lanes: &Lanes,
    routes: &'a Table,
    number: u64,
    accept: &Accept,
    index: usize,
    place: Place,
    now: &Now,
) -> Option<&'a Hop>
    ensures { MatchOption (option_copied result)
        (is_kept_over now.now.moment lanes.now.held routes.now number accept.now index place ≡ false)
        (λ hop. (is_kept_over now.now.moment lanes.now.held routes.now number accept.now index place ≡ true)
        × (route_of routes.now accept.now.envelope.recipients index ≡ Some hop)) }
{
    if !is_over(accept.at, place, now) {
        return None;
    }
    match hop_of_place(routes, accept.envelope.recipients.as_slice(), index) {
        Some(hop) if lanes.is_kept(&hop.name, number) => Some(hop),
        Some(_) | None => None,
    }
}

/// Returns whether the time of a place is over: it is due, and its message was accepted five days ago, or before.
fn is_over(accepted: Moment, place: Place, now: &Now) -> bool
    ensures { result ≡ is_over now.now.moment accepted place }
{
    let seconds = now.moment.seconds();
    place.held && place.due <= seconds && accepted.seconds() + PATIENCE <= seconds
}
