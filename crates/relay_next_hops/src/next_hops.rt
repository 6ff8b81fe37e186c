ghost use Rattle.std.specs.Prelude.{◌≡◌, ◌<◌, ◌≤◌, ◌∷◌, ℕ, IfOk, IfSome, List, OnOk, false, map, true};
ghost use Rattle.relay_routes.specs.Routes.{Route};
ghost use Rattle.relay_slots.specs.Slots.{AreFree};
ghost use Rattle.relay_control.specs.Held.{HoldsNothing};
ghost use Rattle.relay_connections.specs.Table.{count_of};
ghost use Rattle.relay_connections.specs.Served.{LeavesClients};
ghost use Rattle.relay_next_hops.specs.Counts.{RecountsLeaving};
ghost use Rattle.relay_next_hops.specs.Expiry.{HasEndedFirst};
ghost use Rattle.relay_next_hops.specs.Hearing.{AnswersEach, order_of, replies_of, told_of};
ghost use Rattle.relay_next_hops.specs.Known.{KnowsQueue, LearnsQueue};
ghost use Rattle.relay_next_hops.specs.Lanes.{IsNew, OpensForMore, next_due_of};
ghost use Rattle.relay_next_hops.specs.Listing.{AreListedFrom, KeepsListed, ListsPart};
ghost use Rattle.relay_lanes.specs.Portions.{fresh};
ghost use Rattle.relay_next_hops.specs.Readiness.{IsLeftHop, hops_of};
ghost use Rattle.relay_next_hops.specs.Starting.{OpensUnheld, PausesAtMost};
ghost use Rattle.relay_next_hops.specs.Tables.{TablesMatch};
ghost use Rattle.relay_next_hops.specs.Tasks.{DropsNone, KeepsConnections};
ghost use Rattle.relay_next_hops.specs.Turns.{BeginsAll};
ghost use Rattle.relay_next_hops.specs.Waking.{NotesNextDue};

use crate::dial::Dial;
use crate::giving_up::give_up_next;
use crate::hops::{FIRST_TOKEN, Hops};
use crate::lanes::Lanes;
use crate::starting::Starts;
use crate::turning::start_tasks;
use mio::net::TcpStream;
use relay_connections::{Leaving, Now, Readiness, Replied, Stream, Turn};
use relay_disk::Disk;
use relay_files::Fault;
use relay_limits::Limits;
use relay_log::{LastReplies, Log};
use relay_loop::{Relay, ReplyPiece};
use std::alloc::{AllocError, Global};
use std::rt::Clock;

/// The connections to next hops, at most 64, and the mail that is due for them.
pub struct NextHops<S = TcpStream> {
    pub(crate) hops: Hops<S>,
    pub(crate) lanes: Lanes,
    starts: Starts,
}

// Written out, so that the proof of a caller that drops them stops at this function.
impl<S: Drop> Drop for NextHops<S> {
    fn drop(self) {
        let NextHops {
            hops: _hops,
            lanes: _lanes,
            starts: _,
        } = self;
    }
}

impl NextHops {
    /// The token of the first connection; the others' follow in the order of their numbers.
    pub const FIRST_TOKEN: usize = FIRST_TOKEN;
}

impl<S: Stream + Drop> NextHops<S> {
    /// Returns an empty table without listed or held mail, with these limits. Fails if memory runs out.
    #[tactic(auto, using(crate::proofs::SlotLemmas::free_aimed, crate::proofs::SlotLemmas::free_counts))]
    pub fn new(alloc: Global, limits: &Limits) -> Result<Self, AllocError>
        ensures free { IfOk result (λ next_hops. AreFree (hops_of next_hops)) }
        ensures matches { IfOk result (λ next_hops. (routes : List Route) → TablesMatch routes next_hops) }
        ensures portions { IfOk result (λ next_hops. next_hops.hops.portions
            ≡ fresh limits.now.recipients_per_attempt) }
        ensures held { IfOk result (λ next_hops. HoldsNothing next_hops.lanes.held) }
        ensures lanes { IfOk result (λ next_hops. IsNew limits.now.attempts_per_hop next_hops.lanes) }
    {
        Ok(NextHops {
            hops: Hops::new(alloc, usize::from(limits.recipients_per_attempt))?,
            lanes: Lanes::new(alloc, usize::from(limits.attempts_per_hop)),
            starts: Starts::new(),
        })
    }

    /// Returns the same without connections and without listed mail, for a relay that was opened again. The same mail
    /// is held.
    #[tactic(auto, using(crate::proofs::SlotLemmas::free_aimed, crate::proofs::SlotLemmas::free_counts))]
    pub fn renewed(self) -> Self
        ensures free { AreFree (hops_of result) }
        ensures lanes { IsNew self.lanes.most result.lanes }
        ensures held { result.lanes.held ≡ self.lanes.held }
        ensures matches { (routes : List Route) → TablesMatch routes result }
    {
        let NextHops {
            hops,
            lanes,
            starts,
        } = self;
        let mut hops = hops;
        hops.clear();
        NextHops {
            hops,
            lanes: lanes.renewed(),
            starts,
        }
    }

    /// Returns how many connections there are, each for one attempt, at most 64.
    pub fn running(&self) -> usize
        ensures { result ≡ count_of (hops_of self.now) }
    {
        self.hops.count()
    }

    /// Returns the last reply of each next hop.
    pub fn last_replies(&self) -> &LastReplies
        ensures { result.now ≡ self.now.lanes.last_replies }
    {
        &self.lanes.last_replies
    }

    /// Asks the node which messages are queued, before clients wait for turns: it takes some milliseconds for 100,000
    /// messages. If memory runs out, the first listing asks. Fails only if the device has failed.
    pub fn prepare<D: Disk>(&mut self, relay: &Relay<D>) -> Result<(), Fault>
        ensures matches { (routes : List Route) → TablesMatch routes self.old → TablesMatch routes self.new }
        ensures due { next_due_of self.new ≡ next_due_of self.old }
        ensures learns { OnOk result (LearnsQueue relay.now.node.records.queue self.old.lanes self.new.lanes) }
    {
        self.lanes.prepare(relay)
    }

    /// Notes what the connection of a number may be ready for, as the system reports it.
    pub fn note(&mut self, number: usize, ready: Readiness)
        ensures { (routes : List Route) → TablesMatch routes self.old → TablesMatch routes self.new }
    {
        self.hops.note(number, ready);
    }

    /// Serves each connection once, beginning with another one each time: connects, writes, or reads a block that its
    /// attempt may hear then. After a few losses leaves the rest to the next turn, so that clients have theirs. Returns
    /// whether a connection was closed. Fails only if the device has failed.
    pub fn attend<D: Disk>(
        &mut self,
        registry: &S::Registry,
        relay: &mut Relay<D>,
        leaving: &mut Leaving<S>,
        now: &Now,
        log: &mut Log<'_, Vec<u8>>,
    ) -> Result<bool, Fault>
        ensures matches { (routes : List Route) → TablesMatch routes self.old
            → OnOk result (TablesMatch routes self.new) }
        ensures leaves { OnOk result (LeavesClients D.honest D.words relay.old relay.new) }
    {
        let turn = Turn { registry, now };
        self.hops.attend(turn, relay, &mut self.lanes, leaving, log)
    }

    /// Returns what was read from each next hop whose attempt may hear it. Fails if memory runs out.
    pub fn replies(&self) -> Result<Vec<ReplyPiece<'_>>, AllocError>
        ensures { IfOk result (λ replies. map told_of replies.items ≡ replies_of self.now.hops) }
    {
        self.hops.replies()
    }

    /// Takes the results of these replies, in their order, and writes the commands that follow. If there was no memory
    /// to hear them, the first one is lost. Returns whether a connection was closed. Fails only if the device has
    /// failed.
    pub fn answer<D: Disk>(
        &mut self,
        replied: Option<Replied>,
        registry: &S::Registry,
        relay: &mut Relay<D>,
        leaving: &mut Leaving<S>,
        now: &Now,
        log: &mut Log<'_, Vec<u8>>,
    ) -> Result<bool, Fault>
        ensures heard { IfSome replied (λ replied. OnOk result
            (AnswersEach now.now.tick (order_of self.old.hops) replied.answered.items (hops_of self.old)
            (hops_of self.new))) }
        ensures matches { (routes : List Route) → TablesMatch routes self.old
            → OnOk result (TablesMatch routes self.new) }
        ensures leaves { OnOk result (LeavesClients D.honest D.words relay.old relay.new) }
    {
        let turn = Turn { registry, now };
        self.hops
            .answer(replied, turn, relay, &mut self.lanes, leaving, log)
    }

    /// Notes that leaving connections were closed: a next hop at its limit may accept another one.
    pub fn note_leaving(&mut self, leaving: &Leaving<S>)
        ensures matches { (routes : List Route) → TablesMatch routes self.old → TablesMatch routes self.new }
        ensures recounts { RecountsLeaving leaving.now self.old.lanes self.new.lanes }
        ensures hops { self.new.hops ≡ self.old.hops }
    {
        self.lanes.note_leaving(leaving);
    }

    /// Lists the messages that have arrived, and a part of all due mail, if a listing is in progress or has to begin.
    /// If memory runs out, the next call tries again. Fails only if the device has failed.
    pub fn list<C: Clock, D: Disk>(
        &mut self,
        clock: &C,
        relay: &Relay<D>,
        now: &Now,
    ) -> Result<(), Fault>
        ensures part { self.old.lanes.is_listing ≡ true → OnOk result (ListsPart (hops_of self.old) now.now.moment
            relay.now.node self.old.lanes self.new.lanes) }
        ensures hops { hops_of self.new ≡ hops_of self.old }
        ensures matches { (routes : List Route) → TablesMatch routes self.old → TablesMatch routes self.new }
        ensures held { self.new.lanes.held ≡ self.old.lanes.held }
        ensures next { self.new.lanes.next_number ≡ relay.now.node.records.queue.next }
        ensures known { 0 < relay.now.node.records.queue.next → KnowsQueue relay.now.node self.old.lanes
            → OnOk result (KnowsQueue relay.now.node self.new.lanes) }
    {
        self.lanes.refresh(clock, relay, &self.hops, now)
    }

    /// Lists the messages that have arrived since the last listing, and asks the node when mail is next due. Fails only
    /// if the device has failed.
    pub fn look_ahead<D: Disk>(&mut self, relay: &Relay<D>, now: &Now) -> Result<(), Fault>
        ensures listed { 0 < self.old.lanes.next_number → AreListedFrom (hops_of self.old) now.now.moment
            relay.now.node self.old.lanes.next_number relay.now.node.records.queue.next self.new.lanes }
        ensures kept { KeepsListed self.old.lanes self.new.lanes }
        ensures hops { hops_of self.new ≡ hops_of self.old }
        ensures matches { (routes : List Route) → TablesMatch routes self.old → TablesMatch routes self.new }
        ensures held { self.new.lanes.held ≡ self.old.lanes.held }
        ensures next { self.new.lanes.next_number ≡ relay.now.node.records.queue.next }
        ensures known { 0 < relay.now.node.records.queue.next → KnowsQueue relay.now.node self.old.lanes
            → KnowsQueue relay.now.node self.new.lanes }
        ensures opens { OpensForMore self.old.lanes self.new.lanes }
        ensures due { self.old.lanes.is_unsure ≡ true → OnOk result (self.new.lanes.is_unsure ≡ false
            → NotesNextDue now.now relay.now.node self.new.lanes) }
    {
        self.lanes.look_ahead(relay, &self.hops, now)
    }

    /// Begins listed attempts, as far as they may begin, with the spare file descriptors, but opens no connection for
    /// mail that is held; and gives up the places of one message that have no next hop, or that a postmaster holds and
    /// whose time is over. Drops no task that was listed. Returns whether it gave any up. Fails only if the device has
    /// failed.
    pub fn begin<N: Dial<Stream = S>, D: Disk>(
        &mut self,
        dial: &mut N,
        registry: &S::Registry,
        relay: &mut Relay<D>,
        now: &Now,
        log: &mut Log<'_, Vec<u8>>,
    ) -> Result<bool, Fault>
        ensures begins { self.old.lanes.is_open ≡ true → OnOk result (BeginsAll now.now.tick
            self.old.starts.paused_until (N.spares dial.old) (N.spares dial.new) self.old.lanes self.new.lanes
            (hops_of self.new)) }
        ensures tasks { OnOk result (DropsNone D.honest D.words now.now.moment (hops_of self.new) self.old.lanes
            self.new.lanes relay.old relay.new) }
        ensures stand { OnOk result (KeepsConnections (hops_of self.old) (hops_of self.new)) }
        ensures unroutable { (message : ℕ) (rest : List ℕ) → self.old.lanes.unroutable.items ≡ message ∷ rest
            → IfOk result (HasEndedFirst D.honest D.words now.now.moment message rest self.old.lanes.held relay.old
            relay.new self.new.lanes) }
        ensures matches { TablesMatch relay.old.node.config.routes.routes self.old
            → OnOk result (TablesMatch relay.old.node.config.routes.routes self.new) }
        ensures unheld { OnOk result (OpensUnheld self.old.lanes.held (hops_of self.old) (hops_of self.new)) }
        ensures held { self.new.lanes.held ≡ self.old.lanes.held }
        ensures config { relay.new.node.config ≡ relay.old.node.config }
        ensures leaves { OnOk result (LeavesClients D.honest D.words relay.old relay.new) }
        ensures paused { PausesAtMost now.now.tick self.old.starts.paused_until self.new.starts.paused_until }
    {
        let gave_up = give_up_next(relay, &mut self.lanes, now, log)?;
        start_tasks(
            dial,
            Turn { registry, now },
            relay,
            &mut self.hops,
            &mut self.lanes,
            &mut self.starts,
            log,
        )?;
        Ok(gave_up)
    }

    /// Returns whether something can be done at once; `may_begin` says whether due mail counts.
    pub fn is_ready<D: Disk>(&self, relay: &Relay<D>, may_begin: bool) -> bool
        ensures { (number : ℕ) → IsLeftHop (hops_of self.now) relay.now number → result ≡ true }
    {
        if self.hops.is_ready(relay) {
            return true;
        }
        may_begin && self.lanes.is_ready()
    }

    /// Returns the tick at which something is to be done, or `otherwise` if that is earlier. It is never later than the
    /// tick at which the node's next work is due, unless `may_begin` is false.
    pub fn next_deadline(&self, may_begin: bool, otherwise: u64) -> u64
        ensures otherwise { result ≤ otherwise }
        ensures due { may_begin ≡ true → result ≤ next_due_of self.now }
    {
        let next = self.hops.next_deadline(otherwise);
        if !may_begin {
            return next;
        }
        let next = self.starts.next_deadline(&self.hops, &self.lanes, next);
        self.lanes.next_deadline(next)
    }
}
