ghost use Rattle.std.specs.Prelude.{◌≡◌, ◌≢◌, ◌<◌, ◌≤◌, ◌+◌, ℕ, IfErr, IfOk, IfSome, List, MatchOption, None};
ghost use Rattle.std.specs.Prelude.{OnOk, Some, false, length, min, true};
ghost use Rattle.relay_routes.specs.Routes.{Route};
ghost use Rattle.relay_slots.specs.Slots.{AreFree, IsFull, IsLeastFree, OthersStay, slot_at};
ghost use Rattle.relay_connections.specs.Channel.{IsUnder};
ghost use Rattle.relay_connections.specs.Table.{count_of, is_such};
ghost use Rattle.relay_connections.specs.Served.{LeavesClients};
ghost use Rattle.relay_limits.specs.declared.pace.Pace.{Pace};
ghost use Rattle.relay_next_hops.specs.Counts.{CountsMatch, CountsMatchWith, is_unanswered, unanswered_of};
ghost use Rattle.relay_next_hops.specs.Deliveries.{AreAimed, IsAimed, IsOpenedTo, PutsFor, StartsFor};
ghost use Rattle.relay_next_hops.specs.Deliveries.{closes, left_of, portions_after};
ghost use Rattle.relay_next_hops.specs.Listing.{HasConnection};
ghost use Rattle.relay_lanes.specs.Portions.{fresh, portion_of};
ghost use Rattle.relay_next_hops.specs.Losses.{LosesRunning};
ghost use Rattle.relay_next_hops.specs.Readiness.{IsLeftHop, IsNoted};
ghost use Rattle.relay_next_hops.specs.Waiting.{HearsOrIsInTime};
ghost use Rattle.relay_slots.specs.declared.slots.TheConstants.{SLOT_COUNT};
ghost use Rattle.relay_next_hops.specs.declared.hops.TheConstants.{FIRST_TOKEN};

use crate::delivery::{Aim, Course};
use crate::dial::Dial;
use crate::ending::conclude;
use crate::hop::Hop;
use crate::lanes::Lanes;
use crate::spoken::note_spoken;
use relay_connections::{Channel, Leaving, Now, Readiness, Stream, Table, Turn, holds, turned};
use relay_disk::Disk;
use relay_files::Fault;
use relay_lanes::{Portions, Task};
use relay_log::{Log, Loss};
use relay_loop::Relay;
use relay_routes::HostName;
use relay_slots::SLOT_COUNT;
use std::alloc::{AllocError, Global};
use std::io;
use std::net::SocketAddrV4;

/// The most connections that are lost in one turn. Each takes two syncs, for which clients wait.
const MOST_LOSSES: usize = 4;

/// The token of the first connection.
pub(crate) const FIRST_TOKEN: usize = SLOT_COUNT;

/// The connections to next hops, at most 64.
pub(crate) struct Hops<S> {
    pub(crate) alloc: Global,
    pub(crate) hops: Table<Hop<S>>,
    /// The number of the connection that is served first in the next turn.
    pub(crate) first: usize,
    /// How many recipients of a message their attempts have at most.
    pub(crate) portions: Portions,
    /// How many attempts may still hear a reply in a call of their own in this turn.
    pub(crate) alone: usize,
}

// Written out, so that the proof of a caller that drops them stops at this function.
impl<S: Drop> Drop for Hops<S> {
    fn drop(self) {
        let Hops {
            alloc: _,
            hops: _hops,
            first: _,
            portions: _portions,
            alone: _,
        } = self;
    }
}

/// A connection that was attended to, and what becomes of it.
pub(crate) struct Attended<S> {
    pub(crate) hop: Hop<S>,
    pub(crate) course: Course,
}

impl<S: Stream + Drop> Hops<S> {
    /// None, whose attempts will have this many recipients at most. Fails if memory runs out.
    pub(crate) fn new(alloc: Global, recipients: usize) -> Result<Self, AllocError>
        ensures free { IfOk result (λ hops. AreFree hops.hops) }
        ensures portions { IfOk result (λ hops. hops.portions ≡ fresh recipients) }
    {
        Ok(Hops {
            alloc,
            hops: Table::new(alloc)?,
            first: 0,
            portions: Portions::new(alloc, recipients)?,
            alone: 0,
        })
    }

    /// Returns the number of the next connection, if there is room for one. There are at most 64.
    pub(crate) fn free(&self) -> Option<usize>
        ensures least { MatchOption result (IsFull self.now.hops) (IsLeastFree self.now.hops) }
        ensures within { MatchOption result (Unit {0}) (λ number. number < length self.now.hops) }
        ensures few { count_of self.now.hops ≤ 64 }
    {
        prove!(self.hops.standing().len() <= SLOT_COUNT);
        self.hops.free()
    }

    /// Returns how many connections there are, at most 64.
    pub(crate) fn count(&self) -> usize
        ensures { result ≡ count_of self.now.hops }
    {
        self.hops.count()
    }

    /// Returns whether there is a connection for this message and next hop, in this lane.
    pub(crate) fn is_tried(&self, message: u64, lane: usize, name: &HostName) -> bool
        ensures tried { result ≡ true → HasConnection self.now.hops message name.now lane }
        ensures other { result ≡ false → ¬ HasConnection self.now.hops message name.now lane }
    {
        for slot in self.hops.standing() {
            if let Some(hop) = slot {
                if hop.is_for(message, lane, name) {
                    return true;
                }
            }
        }
        false
    }

    /// Returns whether a connection is being opened.
    pub(crate) fn is_any_connecting(&self) -> bool {
        for slot in self.hops.standing() {
            if let Some(hop) = slot {
                if hop.attempt.is_none() {
                    return true;
                }
            }
        }
        false
    }

    /// Returns how many connections lead to next hops that haven't answered yet.
    pub(crate) fn count_unanswered(&self, lanes: &Lanes) -> usize
        ensures { result ≡ unanswered_of self.now.hops lanes.now.paces }
    {
        let standing = self.hops.standing();
        let mut count = 0;
        for number in 0..standing.len() {
            if is_unanswered(&standing[number], lanes) {
                count += 1;
            }
        }
        count
    }

    /// Closes all connections.
    pub(crate) fn clear(&mut self)
        ensures { AreFree self.new.hops }
    {
        let count = self.hops.standing().len();
        for number in 0..count {
            let _hop = self.hops.take(number);
        }
    }

    /// Begins to open a connection under this number, which is free.
    pub(crate) fn connect<N: Dial<Stream = S>>(
        &mut self,
        dial: &mut N,
        registry: &S::Registry,
        number: usize,
        task: Task,
        aim: &Aim,
        tells: bool,
        now: &Now,
    ) -> Result<(), (Task, io::Error)>
        ensures made { number < length self.old.hops
            → OnOk result (PutsFor (IsOpenedTo N.leads_to S.remaining S.contents) aim.now task.message task.hop
            number self.old.hops self.new.hops) }
        ensures under { number < SLOT_COUNT → OnOk result (IfSome (slot_at self.new.hops number)
            (λ hop. IsUnder (FIRST_TOKEN + number) (S.registered hop.channel.stream))) }
        ensures failed { IfErr result (λ refused. (refused.0 ≡ task) × (self.new ≡ self.old)) }
        ensures kept { N.spares dial.new ≡ N.spares dial.old }
    {
        let token = FIRST_TOKEN.saturating_add(number);
        match connecting(self.alloc, dial, registry, token, aim.at) {
            Ok(channel) => {
                let (message, name) = task.into_parts();
                let hop = Hop::new(self.alloc, channel, *aim, message, name, tells, now);
                self.hops.put(number, hop);
                Ok(())
            }
            Err(error) => Err((task, error)),
        }
    }

    /// Notes what the connection of a number may be ready for, as the system reports it.
    pub(crate) fn note(&mut self, number: usize, ready: Readiness)
        ensures counts { (paces : List Pace) → CountsMatch self.old.hops paces → CountsMatch self.new.hops paces }
        ensures aimed { (routes : List Route) → AreAimed routes self.old.hops → AreAimed routes self.new.hops }
        ensures noted { IsNoted ready (slot_at self.old.hops number) (slot_at self.new.hops number) }
        ensures others { OthersStay self.old.hops self.new.hops number }
    {
        if let Some(taken) = self.hops.take(number) {
            let mut hop = taken;
            hop.channel.note(ready);
            self.hops.put(number, hop);
        }
    }

    /// Serves each connection once, beginning with another one each time, until `MOST_LOSSES` are lost, so that clients
    /// have their turn; the next turn goes on after these. Returns whether a connection was closed.
    pub(crate) fn attend<D: Disk>(
        &mut self,
        turn: Turn<'_, S::Registry>,
        relay: &mut Relay<D>,
        lanes: &mut Lanes,
        leaving: &mut Leaving<S>,
        log: &mut Log<'_, Vec<u8>>,
    ) -> Result<bool, Fault>
        ensures counts { CountsMatch self.old.hops lanes.old.paces
            → OnOk result (CountsMatch self.new.hops lanes.new.paces) }
        ensures aimed { (routes : List Route) → AreAimed routes self.old.hops → AreAimed routes self.new.hops }
        ensures leaves { OnOk result (LeavesClients D.honest D.words relay.old relay.new) }
    {
        let mut closed: usize = 0;
        let count = self.hops.standing().len();
        for step in 0..count {
            let number = turned(self.first, step, count);
            if !holds(self.hops.standing(), number) {
                continue;
            }
            if !self.attend_one(number, turn, relay, lanes, leaving, log)? {
                closed = closed.saturating_add(1);
            }
            if closed == MOST_LOSSES {
                self.first = number.saturating_add(1);
                return Ok(true);
            }
        }
        self.first = turned(self.first, 1, SLOT_COUNT);
        Ok(0 < closed)
    }

    /// Serves the connection of a number. Returns whether it stays.
    fn attend_one<D: Disk>(
        &mut self,
        number: usize,
        turn: Turn<'_, S::Registry>,
        relay: &mut Relay<D>,
        lanes: &mut Lanes,
        leaving: &mut Leaving<S>,
        log: &mut Log<'_, Vec<u8>>,
    ) -> Result<bool, Fault>
        ensures counts { CountsMatch self.old.hops lanes.old.paces
            → OnOk result (CountsMatch self.new.hops lanes.new.paces) }
        ensures aimed { (routes : List Route) → AreAimed routes self.old.hops → AreAimed routes self.new.hops }
        ensures starts { OnOk result ((old new : Hop S) → slot_at self.old.hops number ≡ Some old
            → slot_at self.new.hops number ≡ Some new → old.attempt ≡ None → new.attempt ≢ None
            → StartsFor old.aim.early turn.entry.now.now.moment (portion_of self.old.portions old.message) old.message
            old.name new.attempt relay.old relay.new) }
        ensures idle { OnOk result ((old new : Hop S) → slot_at self.old.hops number ≡ Some old
            → slot_at self.new.hops number ≡ Some new → old.attempt ≡ None → new.attempt ≡ None
            → relay.new ≡ relay.old) }
        ensures in_time { OnOk result (HearsOrIsInTime turn.entry.now.now.tick self.new.hops number) }
        ensures leaves { OnOk result (LeavesClients D.honest D.words relay.old relay.new) }
    {
        let Some(taken) = self.hops.take(number) else {
            return Ok(false);
        };
        let mut hop = taken;
        let had_spoken = hop.has_spoken;
        let is_shared = lanes.is_shared(&hop.aim);
        let most = self.portions.most_of(hop.message);
        let course = hop.attend(relay, most, is_shared, turn.now)?;
        note_spoken(&hop, had_spoken, lanes, turn.now, log);
        let attended = Attended { hop, course };
        self.settle(number, attended, turn, relay, lanes, leaving, log)
    }

    /// Puts a connection back, or does what follows its end. Returns whether it stays.
    pub(crate) fn settle<D: Disk>(
        &mut self,
        number: usize,
        attended: Attended<S>,
        turn: Turn<'_, S::Registry>,
        relay: &mut Relay<D>,
        lanes: &mut Lanes,
        leaving: &mut Leaving<S>,
        log: &mut Log<'_, Vec<u8>>,
    ) -> Result<bool, Fault>
        ensures own { slot_at self.old.hops number ≡ None → number < length self.old.hops
            → slot_at self.new.hops number ≡ left_of attended.course attended.hop }
        ensures others { OthersStay self.old.hops self.new.hops number }
        ensures first { self.new.first ≡ self.old.first }
        ensures portions { self.new.portions
            ≡ portions_after attended.course attended.hop.attempt (closes attended.hop) attended.hop.message
            self.old.portions }
        ensures lost { (loss : Loss) (attempt : ℕ) → attended.course ≡ Course.Lost loss
            → attended.hop.attempt ≡ Some attempt
            → OnOk result (LosesRunning D.words turn.entry.now.now.moment attempt relay.old relay.new) }
        ensures same { ((loss : Loss) → attended.course ≢ Course.Lost loss) → relay.new ≡ relay.old }
        ensures counts { CountsMatchWith attended.hop self.old.hops lanes.old.paces
            → slot_at self.old.hops number ≡ None → number < length self.old.hops
            → OnOk result (CountsMatch self.new.hops lanes.new.paces) }
        ensures aimed { (routes : List Route) → IsAimed routes attended.hop → AreAimed routes self.old.hops
            → AreAimed routes self.new.hops }
        ensures leaves { OnOk result (LeavesClients D.honest D.words relay.old relay.new) }
    {
        let Attended { hop, course } = attended;
        match course {
            Course::Stays => {
                self.hops.put(number, hop);
                Ok(true)
            }
            course => {
                let ended = hop.into_parts();
                conclude(
                    turn,
                    relay,
                    lanes,
                    &mut self.portions,
                    leaving,
                    ended,
                    course,
                    log,
                )?;
                Ok(false)
            }
        }
    }

    /// Returns whether something can be done for one of them at once.
    pub(crate) fn is_ready<D: Disk>(&self, relay: &Relay<D>) -> bool
        ensures { (number : ℕ) → IsLeftHop self.now.hops relay.now number → result ≡ true }
    {
        for slot in self.hops.standing() {
            if let Some(hop) = slot {
                if hop.is_ready(relay) {
                    return true;
                }
            }
        }
        false
    }

    /// Returns the tick at which the next of them is lost, or `otherwise` if that is earlier.
    pub(crate) fn next_deadline(&self, otherwise: u64) -> u64
        ensures otherwise { result ≤ otherwise }
        ensures each { (number : ℕ) (hop : Hop S) → slot_at self.now.hops number ≡ Some hop
            → result ≤ min hop.idle_deadline hop.answer_deadline }
    {
        let mut next = otherwise;
        for slot in self.hops.standing() {
            if let Some(hop) = slot {
                next = next.min(hop.deadline());
            }
        }
        next
    }
}

/// Returns a connection that is being opened to this address, registered with the poll under this token.
fn connecting<S: Stream + Drop, N: Dial<Stream = S>>(
    alloc: Global,
    dial: &mut N,
    registry: &S::Registry,
    token: usize,
    at: SocketAddrV4,
) -> io::Result<Channel<S>>
    ensures opened { IfOk result (IsOpenedTo N.leads_to S.remaining S.contents at) }
    ensures under { IfOk result (λ channel. IsUnder token (S.registered channel.stream)) }
    ensures kept { N.spares dial.new ≡ N.spares dial.old }
{
    let mut stream = dial.connect(at)?;
    // What belongs together is written by one call.
    stream.set_nodelay();
    let mut channel = Channel::new(alloc, stream);
    channel.awaits_writing();
    channel.register(registry, token)?;
    Ok(channel)
}

/// Returns whether the connection in a slot leads to a next hop that hasn't answered yet.
fn is_unanswered<S>(slot: &Option<Hop<S>>, lanes: &Lanes) -> bool
    ensures { result ≡ is_such (is_unanswered lanes.now.paces) slot.now }
{
    match slot {
        Some(hop) => !lanes.has_answered(hop.aim.lane),
        None => false,
    }
}
