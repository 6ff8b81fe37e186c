//! In which order lanes have their turn, and how far a turn goes.
ghost use Rattle.std.specs.Prelude.{◌≡◌, ◌≢◌, ◌⊎◌, ◌+◌, ◌<◌, ◌≤◌, ℕ, OnOk, false, length, min, true};
ghost use Rattle.relay_connections.specs.Served.{LeavesClients};
ghost use Rattle.relay_next_hops.specs.Counts.{CountsMatch};
ghost use Rattle.relay_next_hops.specs.Deliveries.{AreAimed};
ghost use Rattle.relay_next_hops.specs.Lanes.{IsNth, KeepsCounts, OnlyLane, tasks_at, turned_to};
ghost use Rattle.relay_next_hops.specs.Starting.{IsDone, IsStoppedBy, OpensUnheld, PausesAtMost};
ghost use Rattle.relay_next_hops.specs.Tasks.{DropsNone, KeepsConnections, SettlesAll};
ghost use Rattle.relay_next_hops.specs.Turns.{BeginsAll};

use crate::dial::Dial;
use crate::hops::Hops;
use crate::lanes::Lanes;
use crate::overdue::lose_overdue;
use crate::starting::{Begun, Starts, start_lane};
use relay_connections::{Now, Stream, Turn};
use relay_disk::Disk;
use relay_files::Fault;
use relay_log::Log;
use relay_loop::Relay;

/// How many tasks are checked for being overdue in one turn.
const MOST_CHECKS: usize = 512;

impl Lanes {
    /// Returns the lane that is looked at first.
    pub(crate) fn first(&self) -> usize
        ensures { result ≡ self.now.first }
    {
        self.first
    }

    /// Returns the lane that gets the next free connection among those to next hops that haven't answered, if one waits
    /// for it.
    pub(crate) fn waiting(&self) -> Option<usize> {
        self.waiting
    }

    /// Lets the next turn begin with the next lane, and reserves the next free connection for a waiting lane.
    pub(crate) fn turn(&mut self, waiting: Option<usize>)
        ensures counts { KeepsCounts self.old self.new }
        ensures rest { self.new ≡ turned_to self.new.first waiting self.old }
    {
        self.waiting = waiting;
        self.first = self.first.saturating_add(1);
        if self.lanes.len() <= self.first {
            self.first = 0;
        }
    }
}

/// Returns the lane `step` places after the first, of `count` lanes in a circle.
fn nth(first: usize, step: usize, count: usize) -> usize
    ensures place { IsNth (min first count) count step result }
    ensures within { step < count → result < count }
{
    let left = count.saturating_sub(first);
    if step < left {
        first + step
    } else {
        step - left
    }
}

/// Returns which of two lanes comes first from a third one on, of `count` lanes in a circle.
pub(crate) fn nearer(from: usize, count: usize, one: Option<usize>, other: usize) -> Option<usize> {
    match one {
        Some(one) if after(from, count, one) <= after(from, count, other) => Some(one),
        _ => Some(other),
    }
}

/// Returns how many places a lane comes after another, of `count` lanes in a circle.
fn after(from: usize, count: usize, lane: usize) -> usize {
    match lane.checked_sub(from) {
        Some(places) => places,
        None => lane.saturating_add(count.saturating_sub(from)),
    }
}

/// Returns the lane that has its turn at a step: first the one that waits for a connection, then each lane, from the
/// first on.
pub(crate) fn visited(first: usize, count: usize, waiting: Option<usize>, step: usize) -> usize
    ensures { (past : ℕ) → step ≡ past + 1 → past < count
        → IsNth (min first count) count past result × (result < count) }
{
    match step.checked_sub(1) {
        Some(past) => nth(first, past, count),
        None => waiting.unwrap_or(first),
    }
}

/// Begins due tasks, lane by lane, beginning with another lane each time. Next hops that haven't answered yet share a
/// limited number of connections, one each. If that limit is reached, the next free connection goes to the first
/// waiting lane after the one that got the last, so that each waits until the others have had one, and no longer. Goes
/// over every lane, unless it is paused, there is no room at all, or no spare descriptor is left. The lanes are closed
/// only if none of them has more that may begin. Opens no connection for mail that a postmaster holds.
pub(crate) fn start_tasks<S: Stream + Drop, N: Dial<Stream = S>, D: Disk>(
    dial: &mut N,
    turn: Turn<'_, S::Registry>,
    relay: &mut Relay<D>,
    hops: &mut Hops<S>,
    lanes: &mut Lanes,
    starts: &mut Starts,
    log: &mut Log<'_, Vec<u8>>,
) -> Result<(), Fault>
    ensures counts { CountsMatch hops.old.hops lanes.old.paces
        → OnOk result (CountsMatch hops.new.hops lanes.new.paces) }
    ensures aimed { AreAimed relay.old.node.config.routes.routes hops.old.hops
        → OnOk result (AreAimed relay.old.node.config.routes.routes hops.new.hops) }
    ensures whole { lanes.old.is_open ≡ true → OnOk result (BeginsAll turn.entry.now.now.tick starts.old.paused_until
        (N.spares dial.old) (N.spares dial.new) lanes.old lanes.new hops.new.hops) }
    ensures closes { lanes.old.is_open ≡ true → OnOk result ((lanes.new.is_open ≡ true)
        ⊎ ((lane : ℕ) → lane < length lanes.old.lanes.items
        → IsDone turn.entry.now.now.tick hops.new.hops lanes.new lane)) }
    ensures tasks { OnOk result (DropsNone D.honest D.words turn.entry.now.now.moment hops.new.hops lanes.old lanes.new
        relay.old relay.new) }
    ensures stand { OnOk result (KeepsConnections hops.old.hops hops.new.hops) }
    ensures unroutable { OnOk result (lanes.new.unroutable ≡ lanes.old.unroutable) }
    ensures stale { lanes.old.is_stale ≡ true → OnOk result (lanes.new.is_stale ≡ true) }
    ensures unheld { OnOk result (OpensUnheld lanes.old.held hops.old.hops hops.new.hops) }
    ensures held { lanes.new.held ≡ lanes.old.held }
    ensures config { relay.new.node.config ≡ relay.old.node.config }
    ensures leaves { OnOk result (LeavesClients D.honest D.words relay.old relay.new) }
    ensures paused { PausesAtMost turn.entry.now.now.tick starts.old.paused_until starts.new.paused_until }
{
    if !lanes.is_open() || turn.now.tick < starts.paused_until {
        return Ok(());
    }
    let mut checks = MOST_CHECKS;
    let (mut has_lost, mut has_more) = (false, false);
    let (first, count, waiting) = (lanes.first(), lanes.len(), lanes.waiting());
    let mut crowded = None;
    for step in 0..count.saturating_add(1) {
        let lane = visited(first, count, waiting, step);
        has_lost = lose_once(has_lost, relay, lanes, lane, &mut checks, turn.now, log)?;
        let begun = start_lane(dial, turn, relay, hops, lanes, lane, log)?;
        if stops(begun) {
            // The next end of a connection opens the lanes again.
            lanes.turn(if step == 0 { waiting } else { crowded });
            starts.pause(begun, turn.now);
            return Ok(());
        }
        has_more = is_more(has_more, begun);
        if begun == Begun::Crowded {
            crowded = nearer(waiting.unwrap_or(first), count, crowded, lane);
        }
    }
    lanes.turn(crowded);
    // After one loss, or after the last check, the other connections have their turn.
    if has_lost || has_more || checks == 0 {
        return Ok(());
    }
    lanes.close();
    Ok(())
}

/// Records the loss of an overdue task of a lane, as [`lose_overdue`] does, unless there was a loss already. Returns
/// whether there was one.
fn lose_once<D: Disk>(
    has_lost: bool,
    relay: &mut Relay<D>,
    lanes: &mut Lanes,
    lane: usize,
    checks: &mut usize,
    now: &Now,
    log: &mut Log<'_, Vec<u8>>,
) -> Result<bool, Fault>
    ensures counts { KeepsCounts lanes.old lanes.new }
    ensures only { OnlyLane lane lanes.old lanes.new }
    ensures fewer { length (tasks_at lanes.new lane) ≤ length (tasks_at lanes.old lane) }
    ensures tasks { OnOk result (SettlesAll D.honest D.words now.now.moment lanes.old lanes.new relay.old relay.new) }
    ensures config { relay.new.node.config ≡ relay.old.node.config }
    ensures leaves { OnOk result (LeavesClients D.honest D.words relay.old relay.new) }
{
    if has_lost {
        return Ok(true);
    }
    lose_overdue(relay, lanes, lane, checks, now, log)
}

/// Returns whether no lane can go on.
fn stops(begun: Begun) -> bool
    ensures { IsStoppedBy begun result }
{
    match begun {
        Begun::AllDone | Begun::Crowded | Begun::HasMore => false,
        Begun::Full | Begun::Wanting => true,
    }
}

/// Returns whether a lane has more that this turn didn't come to: an earlier one, or this one.
fn is_more(has_more: bool, begun: Begun) -> bool
    ensures { result ≡ false → (has_more ≡ false) × (begun ≢ Begun.HasMore) }
{
    match begun {
        Begun::HasMore => true,
        Begun::AllDone | Begun::Crowded | Begun::Full | Begun::Wanting => has_more,
    }
}
