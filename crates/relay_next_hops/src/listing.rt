//! When due mail is listed. A complete listing walks the whole queue, so it begins only when the node says that mail is
//! due that isn't listed, and once a minute while tasks wait; and it goes on in parts, one per turn, so that nobody
//! waits for it. A message that has just been accepted is listed at once, after the others.
//!
//! Between two parts, messages arrive, leave and are deferred. The lanes are emptied when the walk begins, and each
//! message that was queued then is looked at once, when the walk comes to it. It is listed as it is at that time,
//! except for next hops to which a connection for it exists. Before that nothing of it is listed: a task that a next
//! hop turns away isn't put back. Messages that arrive later are listed when they arrive, and the walk skips them.
ghost use Rattle.std.specs.Prelude.{◌≡◌, ◌<◌, ℕ, [], IfOk, OnOk, false, if◌then◌else◌, true};
ghost use Rattle.relay_book.specs.Queue.{message_of};
ghost use Rattle.relay_lanes.specs.Numbers.{with_passed};
ghost use Rattle.relay_next_hops.specs.Known.{AreKnown, IsUnderWay, KeepsNumbers, KnowsQueue, LearnsQueue};
ghost use Rattle.relay_next_hops.specs.Known.{NotesNumber, gathered};
ghost use Rattle.relay_next_hops.specs.Lanes.{KeepsCounts, ListsMore, OpensForMore};
ghost use Rattle.relay_next_hops.specs.Listing.{AreListedFrom, IsListed, KeepsListed, ListsPart};
ghost use Rattle.relay_next_hops.specs.Waking.{NotesNextDue};

use crate::hops::Hops;
use crate::lanes::Lanes;
use crate::waking::LISTING_SECONDS;
use relay_connections::{Now, Stream, tick_of};
use relay_disk::Disk;
use relay_files::Fault;
use relay_lanes::Numbers;
use relay_loop::Relay;
use relay_node::NodeFault;
use std::rt::Clock;

/// The least number of milliseconds between two listings.
const LISTING_PAUSE: u64 = 1_000;

/// The pause between two listings, as a multiple of what the last one took.
const LISTING_SHARE: u64 = 10;

/// How many messages are looked at in one part.
const PART_SIZE: usize = 512;

impl Lanes {
    /// Lists the messages that have arrived. Also lists a part of all due mail, if a listing is in progress, or if mail
    /// is due that isn't listed and the pause is over. If memory runs out, the next call tries again.
    pub(crate) fn refresh<C: Clock, S: Stream + Drop, D: Disk>(
        &mut self,
        clock: &C,
        relay: &Relay<D>,
        hops: &Hops<S>,
        now: &Now,
    ) -> Result<(), Fault>
        ensures more { ListsMore self.old self.new }
        ensures part { self.old.is_listing ≡ true
            → OnOk result (ListsPart hops.now.hops now.now.moment relay.now.node self.old self.new) }
        ensures next { self.new.next_number ≡ relay.now.node.records.queue.next }
        ensures known { 0 < relay.now.node.records.queue.next → KnowsQueue relay.now.node self.old
            → OnOk result (KnowsQueue relay.now.node self.new) }
    {
        self.take_new(relay, hops, now);
        self.note_time(hops, now);
        if !self.is_listing && (!self.is_stale || now.tick < self.next_listing) {
            return Ok(());
        }
        let begun = tick_of(clock);
        self.list_more(relay, hops, now)?;
        self.end_part(begun, tick_of(clock));
        Ok(())
    }

    /// Lists a part of all due mail, which may be the first. If memory runs out, the next call tries again.
    fn list_more<S: Stream + Drop, D: Disk>(
        &mut self,
        relay: &Relay<D>,
        hops: &Hops<S>,
        now: &Now,
    ) -> Result<(), Fault>
        ensures more { ListsMore self.old self.new }
        ensures part { self.old.is_listing ≡ true
            → OnOk result (ListsPart hops.now.hops now.now.moment relay.now.node self.old self.new) }
        ensures next { self.new.next_number ≡ self.old.next_number }
        ensures goes_on { IsUnderWay self.old → OnOk result (IsUnderWay self.new) }
        ensures known { (next : ℕ) → IsUnderWay self.old → AreKnown relay.now.node next self.old
            → OnOk result (AreKnown relay.now.node next self.new) }
    {
        if self.is_listing {
            self.list_part(relay, hops, now);
            return Ok(());
        }
        if !self.begin_listing(relay, now)? {
            return Ok(());
        }
        self.list_part(relay, hops, now);
        Ok(())
    }

    /// Lists the messages that have arrived, and asks the node when mail is next due. Doesn't ask while tasks wait,
    /// because the node would only say that these are due.
    pub(crate) fn look_ahead<S: Stream + Drop, D: Disk>(
        &mut self,
        relay: &Relay<D>,
        hops: &Hops<S>,
        now: &Now,
    ) -> Result<(), Fault>
        ensures more { ListsMore self.old self.new }
        ensures kept { KeepsListed self.old self.new }
        ensures listed { 0 < self.old.next_number → AreListedFrom hops.now.hops now.now.moment relay.now.node
            self.old.next_number relay.now.node.records.queue.next self.new }
        ensures opens { OpensForMore self.old self.new }
        ensures next { self.new.next_number ≡ relay.now.node.records.queue.next }
        ensures known { 0 < relay.now.node.records.queue.next → KnowsQueue relay.now.node self.old
            → KnowsQueue relay.now.node self.new }
        ensures due { self.old.is_unsure ≡ true → OnOk result (self.new.is_unsure ≡ false
            → NotesNextDue now.now relay.now.node self.new) }
    {
        self.is_fresh = self.take_new(relay, hops, now);
        if self.is_listing || self.is_stale || !self.is_unsure || self.has_waiting(hops) {
            return Ok(());
        }
        match relay.node().next_due(now.moment) {
            Ok(next) => {
                self.is_unsure = false;
                self.note_next(next, now);
                Ok(())
            }
            Err(_) => Err(Fault::Device),
        }
    }

    /// Begins to list all due mail, with nothing listed, and returns whether there was memory for that.
    fn begin_listing<D: Disk>(&mut self, relay: &Relay<D>, now: &Now) -> Result<bool, Fault>
        ensures counts { KeepsCounts self.old self.new }
        ensures next { self.new.next_number ≡ self.old.next_number }
        ensures begins { IfOk result (λ begun. begun ≡ true → self.new.is_listing ≡ true) }
        ensures idle { self.old.queued.left ≡ [] → IfOk result (λ begun. begun ≡ false → self.new.queued.left ≡ []) }
        ensures known { (next : ℕ) → self.old.queued.left ≡ [] → AreKnown relay.now.node next self.old
            → OnOk result (AreKnown relay.now.node next self.new) }
    {
        if !self.learn_queue(relay)? {
            return Ok(false);
        }
        if self.queued.begin().is_err() {
            return Ok(false);
        }
        self.unroutable.clear();
        self.keeps = false;
        for lane in self.lanes.as_mut_slice() {
            lane.clear();
        }
        self.next_minute = now.after(LISTING_SECONDS);
        self.next_due = u64::MAX;
        self.is_stale = false;
        self.is_unsure = true;
        self.is_open = true;
        self.is_listing = true;
        Ok(true)
    }

    /// Asks the node which messages are queued; those that arrive later are listed when they arrive. If memory runs
    /// out, the first listing asks.
    pub(crate) fn prepare<D: Disk>(&mut self, relay: &Relay<D>) -> Result<(), Fault>
        ensures counts { KeepsCounts self.old self.new }
        ensures due { self.new.next_due ≡ self.old.next_due }
        ensures learns { OnOk result (LearnsQueue relay.now.node.records.queue self.old self.new) }
    {
        if !self.gather(relay)? {
            return Ok(());
        }
        self.next_number = relay.node().next_number();
        Ok(())
    }

    /// Asks the node which messages are queued, unless all are known. Returns whether all are known then: if not,
    /// memory ran out.
    fn learn_queue<D: Disk>(&mut self, relay: &Relay<D>) -> Result<bool, Fault>
        ensures counts { KeepsCounts self.old self.new }
        ensures rest { (self.new.next_number ≡ self.old.next_number) × (self.new.is_listing ≡ self.old.is_listing) }
        ensures left { self.old.queued.left ≡ [] → OnOk result (self.new.queued.left ≡ []) }
        ensures all { IfOk result (λ knows. knows ≡ true → self.new.knows_all ≡ true) }
        ensures known { (next : ℕ) → AreKnown relay.now.node next self.old
            → OnOk result (AreKnown relay.now.node next self.new) }
    {
        if self.knows_all {
            return Ok(true);
        }
        self.gather(relay)
    }

    /// Asks the node which messages are queued, and returns whether there was memory for that.
    fn gather<D: Disk>(&mut self, relay: &Relay<D>) -> Result<bool, Fault>
        ensures counts { KeepsCounts self.old self.new }
        ensures due { self.new.next_due ≡ self.old.next_due }
        ensures gathers { IfOk result (λ knows. self.new
            ≡ (if knows then gathered relay.now.node.records.queue self.old else self.old)) }
        ensures rest { (self.new.next_number ≡ self.old.next_number) × (self.new.is_listing ≡ self.old.is_listing) }
    {
        let places = match relay.node().marks(self.alloc) {
            Ok(places) => places,
            Err(NodeFault::Stopped) => return Err(Fault::Device),
            Err(_) => return Ok(false),
        };
        match Numbers::of_places(self.alloc, places.as_slice()) {
            Ok(numbers) => {
                self.queued = numbers;
                self.knows_all = true;
                Ok(true)
            }
            Err(_) => Ok(false),
        }
    }

    /// Lists the due mail of the next messages, and drops as many old tasks.
    fn list_part<S: Stream + Drop, D: Disk>(&mut self, relay: &Relay<D>, hops: &Hops<S>, now: &Now)
        ensures more { ListsMore self.old self.new }
        ensures part { ListsPart hops.now.hops now.now.moment relay.now.node self.old self.new }
        ensures next { self.new.next_number ≡ self.old.next_number }
        ensures listing { self.new.is_listing ≡ self.old.is_listing }
        ensures known { (next : ℕ) → AreKnown relay.now.node next self.old → AreKnown relay.now.node next self.new }
    {
        self.let_go();
        self.list_next(relay, hops, now);
    }

    /// Drops as many old tasks.
    fn let_go(&mut self)
        ensures counts { KeepsCounts self.old self.new }
        ensures kept { KeepsListed self.old self.new }
        ensures walk { self.new.queued ≡ self.old.queued }
        ensures numbers { KeepsNumbers self.old self.new }
        ensures listing { self.new.is_listing ≡ self.old.is_listing }
    {
        for number in 0..self.lanes.len() {
            self.let_go_of(number);
        }
    }

    fn let_go_of(&mut self, number: usize)
        ensures counts { KeepsCounts self.old self.new }
        ensures kept { KeepsListed self.old self.new }
        ensures walk { self.new.queued ≡ self.old.queued }
        ensures numbers { KeepsNumbers self.old self.new }
        ensures listing { self.new.is_listing ≡ self.old.is_listing }
    {
        if let Some(lane) = self.lanes.get_mut(number) {
            lane.let_go(PART_SIZE);
        }
    }

    /// Lists the due mail of the next messages.
    fn list_next<S: Stream + Drop, D: Disk>(&mut self, relay: &Relay<D>, hops: &Hops<S>, now: &Now)
        ensures more { ListsMore self.old self.new }
        ensures part { ListsPart hops.now.hops now.now.moment relay.now.node self.old self.new }
        ensures next { self.new.next_number ≡ self.old.next_number }
        ensures listing { self.new.is_listing ≡ self.old.is_listing }
        ensures known { (next : ℕ) → AreKnown relay.now.node next self.old → AreKnown relay.now.node next self.new }
    {
        for _ in 0..PART_SIZE {
            let Some(number) = self.queued.next() else {
                return;
            };
            self.look_at(relay, hops, number, now);
        }
    }

    /// Lists the due mail of a message that the walk has come to. If there is no memory for its number, the next
    /// listing asks the node.
    fn look_at<S: Stream + Drop, D: Disk>(
        &mut self,
        relay: &Relay<D>,
        hops: &Hops<S>,
        number: u64,
        now: &Now,
    )
        ensures more { ListsMore self.old self.new }
        ensures kept { KeepsListed self.old self.new }
        ensures listed { IsListed hops.now.hops now.now.moment relay.now.node number self.new }
        ensures walk { self.new.queued.left ≡ self.old.queued.left }
        ensures opens { OpensForMore self.old self.new }
        ensures next { self.new.next_number ≡ self.old.next_number }
        ensures noted { NotesNumber (with_passed number) (message_of relay.now.node.records.queue.messages number)
            self.old self.new }
        ensures listing { self.new.is_listing ≡ self.old.is_listing }
    {
        if !self.add(relay, hops, number, now) {
            return;
        }
        if self.queued.pass(number).is_err() {
            self.knows_all = false;
        }
    }

    /// Notes how long a part has taken, between two ticks, and whether it was the last.
    fn end_part(&mut self, begun: u64, ended: u64)
        ensures counts { KeepsCounts self.old self.new }
        ensures kept { KeepsListed self.old self.new }
        ensures walk { self.new.queued ≡ self.old.queued }
        ensures numbers { KeepsNumbers self.old self.new }
        ensures goes_on { IsUnderWay self.old → IsUnderWay self.new }
    {
        self.took = self.took.saturating_add(ended.saturating_sub(begun));
        if self.queued.is_over() {
            let pause = self.took.saturating_mul(LISTING_SHARE).max(LISTING_PAUSE);
            self.next_listing = ended.saturating_add(pause);
            self.is_listing = false;
            self.took = 0;
        }
    }
}
