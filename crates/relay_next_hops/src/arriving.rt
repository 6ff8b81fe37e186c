//! Messages that have arrived: each is listed at once, after all others.
ghost use Rattle.std.specs.Prelude.{◌≡◌, ◌<◌, false, true};
ghost use Rattle.relay_book.specs.Queue.{message_of};
ghost use Rattle.relay_lanes.specs.Numbers.{with_newer};
ghost use Rattle.relay_next_hops.specs.Known.{AreKnown, NotesNumber};
ghost use Rattle.relay_next_hops.specs.Lanes.{ListsMore, OpensForMore};
ghost use Rattle.relay_next_hops.specs.Listing.{AreListedFrom, IsListed, KeepsListed};

use crate::hops::Hops;
use crate::lanes::Lanes;
use relay_connections::{Now, Stream};
use relay_disk::Disk;
use relay_loop::Relay;

impl Lanes {
    /// Lists the due mail of the messages that have arrived, reports included. Returns whether there was a change.
    pub(crate) fn take_new<S: Stream + Drop, D: Disk>(
        &mut self,
        relay: &Relay<D>,
        hops: &Hops<S>,
        now: &Now,
    ) -> bool
        ensures more { ListsMore self.old self.new }
        ensures kept { KeepsListed self.old self.new }
        ensures listed { 0 < self.old.next_number → AreListedFrom hops.now.hops now.now.moment relay.now.node
            self.old.next_number relay.now.node.records.queue.next self.new }
        ensures walk { (self.new.queued.left ≡ self.old.queued.left) × (self.new.is_listing ≡ self.old.is_listing) }
        ensures opens { OpensForMore self.old self.new }
        ensures next { self.new.next_number ≡ relay.now.node.records.queue.next }
        ensures known { 0 < self.old.next_number → AreKnown relay.now.node self.old.next_number self.old
            → AreKnown relay.now.node self.new.next_number self.new }
        ensures all { self.old.knows_all ≡ false → self.new.knows_all ≡ false }
        ensures unsure { self.old.is_unsure ≡ true → self.new.is_unsure ≡ true }
    {
        let next_number = relay.node().next_number();
        if self.next_number == next_number {
            return false;
        }
        self.take_up_to(relay, hops, next_number, now);
        self.next_number = next_number;
        self.is_unsure = true;
        true
    }

    /// Lists the due mail of the messages that have arrived, before this number.
    fn take_up_to<S: Stream + Drop, D: Disk>(
        &mut self,
        relay: &Relay<D>,
        hops: &Hops<S>,
        next_number: u64,
        now: &Now,
    )
        ensures more { ListsMore self.old self.new }
        ensures kept { KeepsListed self.old self.new }
        ensures listed { 0 < self.old.next_number → AreListedFrom hops.now.hops now.now.moment relay.now.node
            self.old.next_number next_number self.new }
        ensures walk { (self.new.queued.left ≡ self.old.queued.left) × (self.new.is_listing ≡ self.old.is_listing) }
        ensures opens { OpensForMore self.old self.new }
        ensures next { self.new.next_number ≡ self.old.next_number }
        ensures known { 0 < self.old.next_number → AreKnown relay.now.node self.old.next_number self.old
            → AreKnown relay.now.node next_number self.new }
        ensures all { self.old.knows_all ≡ false → self.new.knows_all ≡ false }
    {
        // The messages from before the start are listed as a whole.
        if self.next_number == 0 {
            return;
        }
        for number in self.next_number..next_number {
            self.take_one(relay, hops, number, now);
        }
    }

    /// Lists the due mail of a message that has arrived. If there is no memory for its number, the next listing asks
    /// the node.
    fn take_one<S: Stream + Drop, D: Disk>(
        &mut self,
        relay: &Relay<D>,
        hops: &Hops<S>,
        number: u64,
        now: &Now,
    )
        ensures more { ListsMore self.old self.new }
        ensures kept { KeepsListed self.old self.new }
        ensures listed { IsListed hops.now.hops now.now.moment relay.now.node number self.new }
        ensures walk { (self.new.queued.left ≡ self.old.queued.left) × (self.new.is_listing ≡ self.old.is_listing) }
        ensures opens { OpensForMore self.old self.new }
        ensures next { self.new.next_number ≡ self.old.next_number }
        ensures noted { NotesNumber (with_newer number) (message_of relay.now.node.records.queue.messages number)
            self.old self.new }
    {
        if !self.add(relay, hops, number, now) {
            return;
        }
        if self.queued.push(number).is_err() {
            self.knows_all = false;
        }
    }
}
