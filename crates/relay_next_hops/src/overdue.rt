//! Overdue mail at a next hop that is on hold: after four hours an attempt counts as lost there without a connection.
//! Otherwise one message among many would be given up, or reported as delayed, days late. Between two listings each
//! task of such a lane is checked once, whatever comes before it; a bounded number in each turn.
ghost use Rattle.std.specs.Prelude.{◌≡◌, ◌⊎◌, ◌≤◌, ◌++◌, [], IfOk, IfSome, None, Ok, Some, drop, false};
ghost use Rattle.std.specs.Prelude.{OnOk, length, option_to_list, true};
ghost use Rattle.std.specs.List.{list_any};
ghost use Rattle.std.specs.declared.net.socket_addr.SocketAddrV4.{SocketAddrV4};
ghost use Rattle.relay_book.specs.Queue.{message_of};
ghost use Rattle.relay_control.specs.Held.{holds};
ghost use Rattle.relay_routes.specs.Routes.{place_of};
ghost use Rattle.relay_slots.specs.Slots.{IsFull};
ghost use Rattle.relay_connections.specs.Served.{LeavesClients};
ghost use Rattle.relay_lanes.specs.declared.lane.Task.{Task};
ghost use Rattle.relay_next_hops.specs.Lanes.{KeepsCounts, OnlyLane, tasks_at};
ghost use Rattle.relay_lanes.specs.Lane.{first_message};
ghost use Rattle.relay_next_hops.specs.Overdue.{Checks, LosesTask, TakesOut, checked_at, is_late, is_overdue};
ghost use Rattle.relay_next_hops.specs.Overdue.{overdue_at, unchecked_at};
ghost use Rattle.relay_next_hops.specs.Tasks.{SettlesAll};
ghost use Rattle.relay_lanes.specs.Paces.{IsHeldAt};

use crate::ending::lose_held;
use crate::lanes::Lanes;
use crate::starting::{aim_of, delivery_of};
use relay_book::Place;
use relay_connections::Now;
use relay_disk::Disk;
use relay_files::Fault;
use relay_lanes::Task;
use relay_log::{Log, Loss};
use relay_loop::Relay;

/// How many seconds a message may be due at a next hop on hold before an attempt counts as lost without a connection.
const OVERDUE_SECONDS: u64 = 4 * 60 * 60;

/// Records the loss of the first overdue task of a lane on hold, among the next unchecked ones, unless a postmaster
/// holds it. Returns whether there was one. Checks at most `checks` tasks, and subtracts what it has checked.
pub(crate) fn lose_overdue<D: Disk>(
    relay: &mut Relay<D>,
    lanes: &mut Lanes,
    lane: usize,
    checks: &mut usize,
    now: &Now,
    log: &mut Log<'_, Vec<u8>>,
) -> Result<bool, Fault>
    ensures overdue { (task : Task) (place : SocketAddrV4)
        → overdue_at now.now.moment relay.old.node.records.queue.messages lanes.old lane checks.old ≡ Some task
        → IsHeldAt now.now.tick lanes.old.paces lane → ¬ IsFull relay.old.node.attempts
        → place_of relay.old.node.config.routes.routes task.hop ≡ Some place
        → holds task.hop task.message lanes.old.held ≡ false
        → IfOk result (λ lost. (lost ≡ true) × LosesTask D.words now.now.moment task relay.old relay.new) }
    ensures kept { (task : Task)
        → overdue_at now.now.moment relay.old.node.records.queue.messages lanes.old lane checks.old ≡ Some task
        → holds task.hop task.message lanes.old.held ≡ true → (result ≡ Ok false) × (relay.new ≡ relay.old) }
    ensures timely { overdue_at now.now.moment relay.old.node.records.queue.messages lanes.old lane checks.old ≡ None
        → IsHeldAt now.now.tick lanes.old.paces lane → ¬ IsFull relay.old.node.attempts
        → (result ≡ Ok false) × Checks lane checks.old lanes.old lanes.new × (relay.new ≡ relay.old) }
    ensures elsewhere { ¬ IsHeldAt now.now.tick lanes.old.paces lane
        → (result ≡ Ok false) × (lanes.new ≡ lanes.old) × (relay.new ≡ relay.old) }
    ensures counts { KeepsCounts lanes.old lanes.new }
    ensures only { OnlyLane lane lanes.old lanes.new }
    ensures fewer { length (tasks_at lanes.new lane) ≤ length (tasks_at lanes.old lane) }
    ensures tasks { OnOk result (SettlesAll D.honest D.words now.now.moment lanes.old lanes.new relay.old relay.new) }
    ensures config { relay.new.node.config ≡ relay.old.node.config }
    ensures leaves { OnOk result (LeavesClients D.honest D.words relay.old relay.new) }
{
    // While 64 attempts are running, no loss can be recorded.
    if !lanes.is_held(lane, now) || relay.node().is_full_of_attempts() {
        return Ok(false);
    }
    let Some(task) = next_overdue(relay, lanes, lane, checks, now) else {
        return Ok(false);
    };
    if lanes.is_kept(&task.hop, task.message) {
        // A postmaster has held it since it was listed.
        return Ok(false);
    }
    let Some(aim) = aim_of(relay, lanes, &task, lane) else {
        return Ok(false);
    };
    let delivery = delivery_of(task, aim);
    lose_held(relay, delivery, Some(Loss::Unreachable), now, log)?;
    Ok(true)
}

/// Takes the first overdue task of a lane out, among the next unchecked ones. Checks at most `checks` tasks, and
/// subtracts what it has checked.
fn next_overdue<D: Disk>(
    relay: &Relay<D>,
    lanes: &mut Lanes,
    lane: usize,
    checks: &mut usize,
    now: &Now,
) -> Option<Task>
    ensures first { result
        ≡ overdue_at now.now.moment relay.now.node.records.queue.messages lanes.old lane checks.old }
    ensures taken { IfSome result (λ task. TakesOut lane task lanes.old lanes.new) }
    ensures none { result ≡ None → Checks lane checks.old lanes.old lanes.new }
    ensures stops { result ≡ None → (checks.new ≡ 0) ⊎ (unchecked_at lanes.new lane ≡ []) }
    ensures counts { KeepsCounts lanes.old lanes.new }
    ensures only { OnlyLane lane lanes.old lanes.new }
    ensures fewer { length (tasks_at lanes.new lane) ≤ length (tasks_at lanes.old lane) }
{
    while 0 < *checks {
        let Some(message) = lanes.next_unchecked(lane) else {
            return None;
        };
        *checks -= 1;
        if is_overdue(relay, message, now) {
            return lanes.take_unchecked(lane);
        }
        lanes.check(lane);
    }
    None
}

impl Lanes {
    /// Returns the message of the first unchecked task of a lane.
    fn next_unchecked(&self, number: usize) -> Option<u64>
        ensures { result ≡ first_message (unchecked_at self.now number) }
    {
        match self.lanes.get(number) {
            Some(lane) => lane.next_unchecked(),
            None => None,
        }
    }

    /// Marks the first unchecked task of a lane as checked.
    fn check(&mut self, number: usize)
        ensures tasks { tasks_at self.new number ≡ tasks_at self.old number }
        ensures unchecked { unchecked_at self.new number ≡ drop 1 (unchecked_at self.old number) }
        ensures counts { KeepsCounts self.old self.new }
        ensures only { OnlyLane number self.old self.new }
    {
        if let Some(lane) = self.lanes.get_mut(number) {
            lane.check();
        }
    }

    /// Takes the first unchecked task of a lane out.
    fn take_unchecked(&mut self, number: usize) -> Option<Task>
        ensures unchecked { unchecked_at self.old number ≡ option_to_list result ++ unchecked_at self.new number }
        ensures checked { checked_at self.new number ≡ checked_at self.old number }
        ensures none { result ≡ None → unchecked_at self.old number ≡ [] }
        ensures counts { KeepsCounts self.old self.new }
        ensures only { OnlyLane number self.old self.new }
    {
        match self.lanes.get_mut(number) {
            Some(lane) => lane.take_unchecked(),
            None => None,
        }
    }
}

/// Returns whether a place of a message has been due for too long without an attempt.
fn is_overdue<D: Disk>(relay: &Relay<D>, message: u64, now: &Now) -> bool
    ensures { result ≡ is_overdue now.now.moment (message_of relay.now.node.records.queue.messages message) }
{
    match relay.node().message(message) {
        Some(message) => has_late(message.places.as_slice(), now),
        None => false,
    }
}

/// Returns whether one of these places has been due for too long.
fn has_late(places: &[Place], now: &Now) -> bool
    ensures { result ≡ list_any (is_late now.now.moment) places.now }
{
    for place in places {
        if is_late(place, now) {
            return true;
        }
    }
    false
}

/// Returns whether a place is held, and has been due for too long.
fn is_late(place: &Place, now: &Now) -> bool
    ensures { result ≡ is_late now.now.moment place.now }
{
    place.held && place.due.saturating_add(OVERDUE_SECONDS) < now.moment.seconds()
}
