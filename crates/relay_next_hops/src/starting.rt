//! Beginning attempts.
ghost use Rattle.std.specs.Prelude.{◌≡◌, ◌+◌, ◌<◌, ◌≤◌, IfOk, MatchOption, None, Ok, OnOk, Some, length, option_map};
ghost use Rattle.relay_book.specs.Queue.{message_of};
ghost use Rattle.relay_routes.specs.Routes.{place_of};
ghost use Rattle.relay_connections.specs.Served.{LeavesClients};
ghost use Rattle.relay_next_hops.specs.Counts.{CountsMatch, unanswered_of};
ghost use Rattle.relay_next_hops.specs.Deliveries.{AreAimed, IsOpenedTo};
ghost use Rattle.relay_next_hops.specs.Lanes.{OnlyLane, tasks_at};
ghost use Rattle.relay_lanes.specs.Paces.{HasLane};
ghost use Rattle.relay_next_hops.specs.Starting.{IsBegun, IsEndOf, IsStep};
ghost use Rattle.relay_next_hops.specs.Starting.{IsTried, OpensUnheld, back_of, paused_after, step_after};
ghost use Rattle.relay_next_hops.specs.Tasks.{DropsNone, KeepsConnections, KeepsTasks};

use crate::delivery::{Aim, Delivery};
use crate::dial::Dial;
use crate::ending::lose;
use crate::hops::Hops;
use crate::lanes::Lanes;
use relay_connections::{Now, Stream, Turn};
use relay_disk::Disk;
use relay_files::{Fault, is_want_of_sockets};
use relay_lanes::Task;
use relay_log::{Log, Loss};
use relay_loop::Relay;
use relay_slots::SLOT_COUNT;
use relay_trace::Moment;

/// How many milliseconds no connection is begun after the system had no file descriptor or no memory for one.
const WANT_PAUSE: u64 = 1_000;

/// The most connections to next hops that haven't answered yet, so that there is always room for those that answer.
const MOST_UNANSWERED: usize = 48;

/// When connections may begin.
#[derive(Clone, Copy)]
pub(crate) struct Starts {
    /// The tick before which none begins.
    pub(crate) paused_until: u64,
}

impl Starts {
    /// Returns a state in which they may begin at once.
    pub(crate) fn new() -> Self
        ensures { result.paused_until ≡ 0 }
    {
        Starts { paused_until: 0 }
    }

    /// None is begun for a while, where the system has no descriptor or no memory for another.
    pub(crate) fn pause(&mut self, begun: Begun, now: &Now)
        ensures { self.new.paused_until ≡ paused_after begun now.now.tick self.old.paused_until }
    {
        if begun == Begun::Wanting {
            self.paused_until = now.tick.saturating_add(WANT_PAUSE);
        }
    }

    /// Returns the tick at which connections may be begun again that couldn't, or the given one where that is earlier.
    pub(crate) fn next_deadline<S: Stream + Drop>(
        &self,
        hops: &Hops<S>,
        lanes: &Lanes,
        otherwise: u64,
    ) -> u64
        ensures { result ≤ otherwise }
    {
        if lanes.is_open() && hops.free().is_some() {
            otherwise.min(self.paused_until)
        } else {
            otherwise
        }
    }
}

/// A connection to be opened for a task of a lane, under a number that is free.
pub(crate) struct Opening {
    pub(crate) lane: usize,
    pub(crate) number: usize,
    pub(crate) task: Task,
}

/// How far a lane has come in a turn.
#[derive(Clone, Copy, PartialEq, Eq)]
pub(crate) enum Begun {
    /// No more of it may begin now.
    AllDone,
    /// Its next hop hasn't answered yet, and no more connections to such next hops may begin.
    Crowded,
    /// It has had its share of this turn, and has more.
    HasMore,
    /// There is no room for another connection.
    Full,
    /// The system has no file descriptor or no memory for another.
    Wanting,
}

/// The result for the next task of a lane.
#[derive(Clone, Copy, PartialEq, Eq)]
pub(crate) enum Step {
    /// It has left the lane: a connection is being opened for it, none could be, or a postmaster holds it.
    Left,
    /// The system has no file descriptor or no memory for a connection: the task is in front of the lane again.
    Back,
    /// None may begin now, or there is none.
    Over,
    /// The lane's next hop hasn't answered yet, and no more connections to such next hops may begin.
    NoRoom,
    /// There is no room for another connection.
    NoSlot,
}

/// The result of beginning a connection for a task.
#[derive(Clone, Copy, PartialEq, Eq)]
pub(crate) enum Tried {
    /// A connection is being opened for it.
    Connects,
    /// The system has no file descriptor or no memory for one: the task is in front of the lane again.
    Wants,
    /// It failed at once, and counts as lost.
    Fails,
    /// The routes give no address for its next hop.
    HasNoPlace,
}

/// Begins what may be begun of a lane, and nothing that a postmaster holds. If the system has no descriptor for a
/// connection, one is given up that was kept for that.
pub(crate) fn start_lane<S: Stream + Drop, N: Dial<Stream = S>, D: Disk>(
    dial: &mut N,
    turn: Turn<'_, S::Registry>,
    relay: &mut Relay<D>,
    hops: &mut Hops<S>,
    lanes: &mut Lanes,
    lane: usize,
    log: &mut Log<'_, Vec<u8>>,
) -> Result<Begun, Fault>
    ensures counts { CountsMatch hops.old.hops lanes.old.paces
        → OnOk result (CountsMatch hops.new.hops lanes.new.paces) }
    ensures aimed { AreAimed relay.old.node.config.routes.routes hops.old.hops
        → OnOk result (AreAimed relay.old.node.config.routes.routes hops.new.hops) }
    ensures only { OnlyLane lane lanes.old lanes.new }
    ensures more { OnOk result (unanswered_of hops.old.hops lanes.old.paces
        ≤ unanswered_of hops.new.hops lanes.new.paces) }
    ensures fewer { OnOk result (length (tasks_at lanes.new lane) ≤ length (tasks_at lanes.old lane)) }
    ensures kept { N.spares dial.new ≤ N.spares dial.old }
    ensures unheld { OnOk result (OpensUnheld lanes.old.held hops.old.hops hops.new.hops) }
    ensures tasks { OnOk result (DropsNone D.honest D.words turn.entry.now.now.moment hops.new.hops lanes.old lanes.new
        relay.old relay.new) }
    ensures stand { OnOk result (KeepsConnections hops.old.hops hops.new.hops) }
    ensures begun { IfOk result (IsBegun turn.entry.now.now.tick (N.spares dial.old) lanes.old hops.new.hops lanes.new
        (N.spares dial.new) lane) }
    ensures config { relay.new.node.config ≡ relay.old.node.config }
    ensures leaves { OnOk result (LeavesClients D.honest D.words relay.old relay.new) }
{
    for _ in 0..SLOT_COUNT {
        let step = start_next(dial, turn, relay, hops, lanes, lane, log)?;
        if let Some(begun) = end_of(step, dial) {
            return Ok(begun);
        }
    }
    Ok(Begun::HasMore)
}

/// Returns how far it has come with a lane, where this was its last step. A task that was put back takes one of the
/// descriptors that are kept.
fn end_of<N: Dial>(step: Step, dial: &mut N) -> Option<Begun>
    ensures { IsEndOf step (N.spares dial.old) (N.spares dial.new) result }
{
    match step {
        Step::Left => None,
        Step::Back => {
            if dial.give_spare() {
                None
            } else {
                Some(Begun::Wanting)
            }
        }
        Step::Over => Some(Begun::AllDone),
        Step::NoRoom => Some(Begun::Crowded),
        Step::NoSlot => Some(Begun::Full),
    }
}

/// Begins the next task of a lane, if one may be begun and no postmaster holds it.
fn start_next<S: Stream + Drop, N: Dial<Stream = S>, D: Disk>(
    dial: &mut N,
    turn: Turn<'_, S::Registry>,
    relay: &mut Relay<D>,
    hops: &mut Hops<S>,
    lanes: &mut Lanes,
    lane: usize,
    log: &mut Log<'_, Vec<u8>>,
) -> Result<Step, Fault>
    ensures counts { CountsMatch hops.old.hops lanes.old.paces
        → OnOk result (CountsMatch hops.new.hops lanes.new.paces) }
    ensures aimed { AreAimed relay.old.node.config.routes.routes hops.old.hops
        → OnOk result (AreAimed relay.old.node.config.routes.routes hops.new.hops) }
    ensures only { OnlyLane lane lanes.old lanes.new }
    ensures more { OnOk result (unanswered_of hops.old.hops lanes.old.paces
        ≤ unanswered_of hops.new.hops lanes.new.paces) }
    ensures fewer { OnOk result (length (tasks_at lanes.new lane) ≤ length (tasks_at lanes.old lane)) }
    ensures kept { N.spares dial.new ≡ N.spares dial.old }
    ensures unheld { OnOk result (OpensUnheld lanes.old.held hops.old.hops hops.new.hops) }
    ensures tasks { OnOk result (DropsNone D.honest D.words turn.entry.now.now.moment hops.new.hops lanes.old lanes.new
        relay.old relay.new) }
    ensures stand { OnOk result (KeepsConnections hops.old.hops hops.new.hops) }
    ensures came { IfOk result (IsStep D.words (IsOpenedTo N.leads_to S.remaining S.contents) turn.entry.now.now lane
        hops.old.hops hops.new.hops lanes.old lanes.new relay.old relay.new) }
    ensures config { relay.new.node.config ≡ relay.old.node.config }
    ensures leaves { OnOk result (LeavesClients D.honest D.words relay.old relay.new) }
{
    let Some(number) = hops.free() else {
        return Ok(Step::NoSlot);
    };
    if !lanes.may_begin(lane, turn.now) {
        return Ok(Step::Over);
    }
    if !lanes.has_answered(lane) && MOST_UNANSWERED <= hops.count_unanswered(lanes) {
        return Ok(Step::NoRoom);
    }
    let Some(task) = lanes.next(lane, turn.now) else {
        return Ok(Step::Over);
    };
    if lanes.is_kept(&task.hop, task.message) {
        // A postmaster has held it since it was listed. When it is released, it is listed again.
        return Ok(Step::Left);
    }
    let opening = Opening { lane, number, task };
    let tried = start_task(dial, turn, relay, hops, lanes, opening, log)?;
    Ok(step_after(tried))
}

fn step_after(tried: Tried) -> Step
    ensures { result ≡ step_after tried }
{
    match tried {
        Tried::Connects | Tried::Fails | Tried::HasNoPlace => Step::Left,
        Tried::Wants => Step::Back,
    }
}

/// Begins a connection for a task of a lane, under a number that is free.
fn start_task<S: Stream + Drop, N: Dial<Stream = S>, D: Disk>(
    dial: &mut N,
    turn: Turn<'_, S::Registry>,
    relay: &mut Relay<D>,
    hops: &mut Hops<S>,
    lanes: &mut Lanes,
    opening: Opening,
    log: &mut Log<'_, Vec<u8>>,
) -> Result<Tried, Fault>
    ensures kept { N.spares dial.new ≡ N.spares dial.old }
    ensures tried { opening.number < length hops.old.hops → HasLane lanes.old.paces opening.lane
        → IfOk result (IsTried D.words (IsOpenedTo N.leads_to S.remaining S.contents) turn.entry.now.now opening.lane
        opening.number opening.task hops.old.hops hops.new.hops lanes.old lanes.new relay.old relay.new) }
    ensures only { OnlyLane opening.lane lanes.old lanes.new }
    ensures tasks { OnOk result (KeepsTasks opening.lane lanes.old lanes.new) }
    ensures fewer { IfOk result (λ tried. length (tasks_at lanes.new opening.lane)
        ≤ length (tasks_at lanes.old opening.lane) + back_of tried) }
    ensures config { relay.new.node.config ≡ relay.old.node.config }
    ensures leaves { OnOk result (LeavesClients D.honest D.words relay.old relay.new) }
{
    let Opening { lane, number, task } = opening;
    let Some(aim) = aim_of(relay, lanes, &task, lane) else {
        return Ok(Tried::HasNoPlace);
    };
    match hops.connect(
        dial,
        turn.registry,
        number,
        task,
        &aim,
        log.speaks(),
        turn.now,
    ) {
        Ok(()) => {
            lanes.began(lane);
            Ok(Tried::Connects)
        }
        Err((task, error)) if is_want_of_sockets(&error) => {
            lanes.put_back(lane, task);
            Ok(Tried::Wants)
        }
        Err((task, error)) => {
            let loss = Loss::of_connecting(&error);
            lose(relay, lanes, &delivery_of(task, aim), loss, turn.now, log)?;
            Ok(Tried::Fails)
        }
    }
}

/// Returns where a connection for a task goes: to the place that the routes give for its next hop.
pub(crate) fn aim_of<D: Disk>(
    relay: &Relay<D>,
    lanes: &Lanes,
    task: &Task,
    lane: usize,
) -> Option<Aim>
    ensures { MatchOption result
        (place_of relay.now.node.config.routes.routes task.now.hop ≡ None)
        (λ aim. (aim.lane ≡ lane)
        × (place_of relay.now.node.config.routes.routes task.now.hop ≡ Some aim.at)
        × (aim.early ≡ task.now.early)) }
{
    let routes = &relay.node().config().routes;
    match routes.place_of(task.hop.as_slice()) {
        Some(at) => Some(Aim {
            lane,
            at,
            beside: 0 < lanes.standing(lane),
            accepted: accepted_at(relay, task.message),
            early: task.early,
        }),
        None => None,
    }
}

/// Returns when a message was accepted, if it is queued.
pub(crate) fn accepted_at<D: Disk>(relay: &Relay<D>, message: u64) -> Option<Moment>
    ensures { result ≡ option_map (λ message. message.accept.at)
        (message_of relay.now.node.records.queue.messages message) }
{
    match relay.node().message(message) {
        Some(message) => Some(message.accept.at),
        None => None,
    }
}

/// Returns the delivery of a task for which no connection was made.
pub(crate) fn delivery_of(task: Task, aim: Aim) -> Delivery
    ensures { (result.aim ≡ aim) × (result.message ≡ task.message) × (result.name ≡ task.hop)
        × (result.attempt ≡ None) }
{
    let (message, name) = task.into_parts();
    Delivery {
        aim,
        message,
        name,
        attempt: None,
        has_spoken: false,
        is_welcome: false,
        is_closed: false,
        talk: None,
    }
}
