//! Where the due mail of a message is listed: in the lane of each next hop's address, or among what is to be given up.
ghost use Rattle.std.specs.Prelude.{◌≡◌, ◌+◌, ◌-◌, ◌<◌, ◌≤◌, ℕ, IfSome, MatchOption, Some, false, length, max};
ghost use Rattle.std.specs.Prelude.{option_copied, slice_get, true};
ghost use Rattle.relay_book.specs.DueReport.{patience};
ghost use Rattle.relay_book.specs.Queue.{message_of};
ghost use Rattle.relay_connections.specs.Renewal.{tick_after};
ghost use Rattle.relay_next_hops.specs.Known.{KeepsNumbers};
ghost use Rattle.relay_next_hops.specs.Lanes.{HoldsNoMore, IsListedUnroutable, KeepsCounts, ListsMore, OpensForMore};
ghost use Rattle.relay_next_hops.specs.Lanes.{tasks_at};
ghost use Rattle.relay_next_hops.specs.Listing.{ArePlacesListed, HasEarlyTurn, HasTurn, IsDueListed, IsListed};
ghost use Rattle.relay_next_hops.specs.Listing.{IsListedFor, IsPlaceListed, KeepsListed, route_of};

use crate::hops::Hops;
use crate::lanes::Lanes;
use relay_book::{Accept, PATIENCE, Place};
use relay_connections::{Now, Stream};
use relay_disk::Disk;
use relay_envelope::Recipient;
use relay_lanes::{Lane, Task};
use relay_loop::Relay;
use relay_routes::{Hop, HostName, Table};
use relay_trace::Moment;
use std::net::SocketAddrV4;

impl Lanes {
    /// Lists the due mail of a message, except what a postmaster holds, and where a connection for it exists. Returns
    /// whether the message exists. A message with a queued place that has no hop, or that a postmaster holds and whose
    /// time is over, is listed among those to be given up. If memory runs out, all due mail is listed again.
    pub(crate) fn add<S: Stream + Drop, D: Disk>(
        &mut self,
        relay: &Relay<D>,
        hops: &Hops<S>,
        number: u64,
        now: &Now,
    ) -> bool
        ensures more { ListsMore self.old self.new }
        ensures kept { KeepsListed self.old self.new }
        ensures listed { IsListed hops.now.hops now.now.moment relay.now.node number self.new }
        ensures walk { (self.new.queued ≡ self.old.queued) × (self.new.is_listing ≡ self.old.is_listing) }
        ensures numbers { KeepsNumbers self.old self.new }
        ensures opens { OpensForMore self.old self.new }
        ensures found { MatchOption (message_of relay.now.node.records.queue.messages number) (result ≡ false)
            (λ message. result ≡ true) }
    {
        let Some(message) = relay.node().message(number) else {
            return false;
        };
        let routes = &relay.node().config().routes;
        let places = message.places.as_slice();
        self.add_places(hops, number, routes, &message.accept, places, now);
        true
    }

    /// Lists the due ones of these places of a message.
    fn add_places<S: Stream + Drop>(
        &mut self,
        hops: &Hops<S>,
        number: u64,
        routes: &Table,
        accept: &Accept,
        places: &[Place],
        now: &Now,
    )
        ensures more { ListsMore self.old self.new }
        ensures kept { KeepsListed self.old self.new }
        ensures listed { ArePlacesListed hops.now.hops now.now.moment routes.now number accept.now places.now
            (length places.now) self.new }
        ensures walk { (self.new.queued ≡ self.old.queued) × (self.new.is_listing ≡ self.old.is_listing) }
        ensures numbers { KeepsNumbers self.old self.new }
        ensures opens { OpensForMore self.old self.new }
    {
        for (index, place) in places.iter().enumerate() {
            self.add_place(hops, number, routes, accept, index, *place, now);
        }
    }

    /// Lists a queued place of a message for its next hop, as [`Lanes::add_for`] does; or lists the message among those
    /// to be given up, if the place has no hop.
    fn add_place<S: Stream + Drop>(
        &mut self,
        hops: &Hops<S>,
        number: u64,
        routes: &Table,
        accept: &Accept,
        index: usize,
        place: Place,
        now: &Now,
    )
        ensures more { ListsMore self.old self.new }
        ensures kept { KeepsListed self.old self.new }
        ensures listed { IsPlaceListed hops.now.hops now.now.moment routes.now number accept.now index place
            self.new }
        ensures walk { (self.new.queued ≡ self.old.queued) × (self.new.is_listing ≡ self.old.is_listing) }
        ensures numbers { KeepsNumbers self.old self.new }
        ensures opens { OpensForMore self.old self.new }
    {
        if !place.held {
            return;
        }
        match hop_of_place(routes, accept.envelope.recipients.as_slice(), index) {
            Some(hop) => self.add_for(hops, number, accept.at, hop, place.due, now),
            None => self.push_unroutable(number),
        }
    }

    /// Lists mail of a message for its next hop, if it is due and no postmaster holds it. If one does, the mail waits as
    /// [`Lanes::add_kept`] says.
    fn add_for<S: Stream + Drop>(
        &mut self,
        hops: &Hops<S>,
        number: u64,
        accepted: Moment,
        hop: &Hop,
        due: u64,
        now: &Now,
    )
        ensures more { ListsMore self.old self.new }
        ensures kept { KeepsListed self.old self.new }
        ensures listed { due ≤ now.now.moment
            → IsDueListed hops.now.hops now.now.moment number accepted hop.now self.new }
        ensures walk { (self.new.queued ≡ self.old.queued) × (self.new.is_listing ≡ self.old.is_listing) }
        ensures numbers { KeepsNumbers self.old self.new }
        ensures opens { OpensForMore self.old self.new }
    {
        if self.is_kept(&hop.name, number) {
            self.add_kept(number, accepted, due, now);
        } else if due <= now.moment.seconds() {
            self.push(hops, number, hop.at, &hop.name);
        }
    }

    /// Lists a message with mail that a postmaster holds among those to be given up, if the time of that mail is over:
    /// it is due, and was accepted five days ago, or before. If it isn't over, all due mail is listed when it is.
    fn add_kept(&mut self, number: u64, accepted: Moment, due: u64, now: &Now)
        ensures more { ListsMore self.old self.new }
        ensures kept { KeepsListed self.old self.new }
        ensures over { max due (accepted + patience) ≤ now.now.moment → IsListedUnroutable number self.new }
        ensures wakes { now.now.moment < max due (accepted + patience) → self.new.next_due
            ≤ tick_after now.now.tick (max due (accepted + patience) - now.now.moment) }
        ensures walk { (self.new.queued ≡ self.old.queued) × (self.new.is_listing ≡ self.old.is_listing) }
        ensures numbers { KeepsNumbers self.old self.new }
        ensures opens { OpensForMore self.old self.new }
    {
        self.keeps = true;
        let over = due.max(accepted.seconds() + PATIENCE);
        let seconds = now.moment.seconds();
        if over <= seconds {
            self.push_unroutable(number);
        } else {
            self.next_due = self.next_due.min(now.after(over - seconds));
        }
    }

    /// Lists a message for a next hop, after all others, unless a connection for it exists. If memory runs out, all due
    /// mail is listed again.
    fn push<S: Stream + Drop>(
        &mut self,
        hops: &Hops<S>,
        message: u64,
        at: SocketAddrV4,
        name: &HostName,
    )
        ensures more { ListsMore self.old self.new }
        ensures kept { KeepsListed self.old self.new }
        ensures listed { IsListedFor hops.now.hops message name.now at self.new }
        ensures walk { (self.new.queued ≡ self.old.queued) × (self.new.is_listing ≡ self.old.is_listing) }
        ensures numbers { KeepsNumbers self.old self.new }
        ensures opens { OpensForMore self.old self.new }
    {
        if !self.sort_in(hops, message, at, name, false) {
            self.is_stale = true;
        }
    }

    /// Puts a message into the lane of its next hop's address, before all that isn't asked for early if it is `early`,
    /// unless it is there already or a connection for it exists. Returns whether there was memory for it.
    pub(crate) fn sort_in<S: Stream + Drop>(
        &mut self,
        hops: &Hops<S>,
        message: u64,
        at: SocketAddrV4,
        name: &HostName,
        early: bool,
    ) -> bool
        ensures more { ListsMore self.old self.new }
        ensures kept { KeepsListed self.old self.new }
        ensures turn { early ≡ false → result ≡ true → HasTurn hops.now.hops message name.now at self.new }
        ensures early { early ≡ true → result ≡ true → HasEarlyTurn hops.now.hops message name.now at self.new }
        ensures walk { (self.new.queued ≡ self.old.queued) × (self.new.is_listing ≡ self.old.is_listing) }
        ensures numbers { KeepsNumbers self.old self.new }
        ensures opens { OpensForMore self.old self.new }
        ensures holds { HoldsNoMore self.old self.new }
    {
        let Some(number) = self.number_of(at) else {
            return false;
        };
        let Some(lane) = self.lanes.get_mut(number) else {
            return false;
        };
        if lane.has_last(message, name, early) {
            return true;
        }
        if hops.is_tried(message, number, name) {
            return true;
        }
        let Ok(hop) = name.copy(self.alloc) else {
            return false;
        };
        self.is_open = true;
        lane.push(Task {
            message,
            hop,
            early,
        })
    }

    /// Lists a message among those to be given up. If memory runs out, all due mail is listed again.
    fn push_unroutable(&mut self, message: u64)
        ensures listed { IsListedUnroutable message self.new }
        ensures kept { KeepsListed self.old self.new }
        ensures more { ListsMore self.old self.new }
        ensures walk { (self.new.queued ≡ self.old.queued) × (self.new.is_listing ≡ self.old.is_listing) }
        ensures numbers { KeepsNumbers self.old self.new }
        ensures tasks { (self.new.is_open ≡ self.old.is_open) × (self.new.lanes ≡ self.old.lanes) }
    {
        match self.unroutable.back() {
            Some(last) if *last == message => {}
            _ => {
                if self.unroutable.push_back(message).is_err() {
                    self.is_stale = true;
                }
            }
        }
    }

    /// Returns the number of the lane of an address, which is added if there is none. Returns `None` if memory runs
    /// out.
    pub(crate) fn number_of(&mut self, at: SocketAddrV4) -> Option<usize>
        ensures place { IfSome result (λ number. slice_get self.new.places number ≡ Some at) }
        ensures more { ListsMore self.old self.new }
        ensures kept { KeepsListed self.old self.new }
        ensures walk { (self.new.queued ≡ self.old.queued) × (self.new.is_listing ≡ self.old.is_listing) }
        ensures numbers { KeepsNumbers self.old self.new }
        ensures tasks { (lane : ℕ) → tasks_at self.new lane ≡ tasks_at self.old lane }
        ensures open { self.new.is_open ≡ self.old.is_open }
        ensures holds { HoldsNoMore self.old self.new }
    {
        let number = self.places.number_of(at)?;
        let count = number.checked_add(1)?;
        if self.grow(count) { Some(number) } else { None }
    }

    /// Adds lanes up to this many, and returns whether there was memory for them.
    fn grow(&mut self, count: usize) -> bool
        ensures counts { KeepsCounts self.old self.new }
        ensures tasks { (lane : ℕ) → tasks_at self.new lane ≡ tasks_at self.old lane }
        ensures rest { (self.new.unroutable ≡ self.old.unroutable) × (self.new.is_stale ≡ self.old.is_stale)
            × (self.new.queued ≡ self.old.queued) × (self.new.is_listing ≡ self.old.is_listing) }
        ensures numbers { KeepsNumbers self.old self.new }
        ensures open { self.new.is_open ≡ self.old.is_open }
        ensures holds { HoldsNoMore self.old self.new }
    {
        if self.paces.grow(count).is_err() {
            return false;
        }
        for _ in self.lanes.len()..count {
            if self.lanes.push(Lane::new(self.alloc)).is_err() {
                return false;
            }
        }
        true
    }
}

/// Returns the next hop of a message's place, if it has one. A place without a recipient has none.
pub(crate) fn hop_of_place<'a>(
    routes: &'a Table,
    recipients: &[Recipient],
    place: usize,
) -> Option<&'a Hop>
    ensures { option_copied result ≡ route_of routes.now recipients.now place }
{
    match recipients.get(place) {
        Some(recipient) => routes.hop_at(&recipient.path),
        None => None,
    }
}
