//! What is left to be done where the connection to a next hop has ended.
ghost use Rattle.std.specs.Prelude.{◌≡◌, ◌≢◌, ℕ, IfOk, None, Ok, OnOk, Option, Some, false, true};
ghost use Rattle.relay_loop.specs.declared.outbox.Outbox.{Outbox};
ghost use Rattle.relay_records.specs.declared.noted.Noted.{Noted};
ghost use Rattle.relay_connections.specs.Served.{LeavesClients};
ghost use Rattle.relay_next_hops.specs.Deliveries.{MayLeave, portions_after};
ghost use Rattle.relay_next_hops.specs.GoingOn.{ComesNext};
ghost use Rattle.relay_next_hops.specs.Holds.{HoldsFrom, HoldsIfSilent};
ghost use Rattle.relay_next_hops.specs.Lanes.{KeepsCounts, KeepsPlaces, OnlyLane};
ghost use Rattle.relay_next_hops.specs.Losses.{EndsLost, EndsLostOrTurnedAway, IsRecordedIf, IsRecordedOrRefused};
ghost use Rattle.relay_next_hops.specs.Losses.{Loses};
ghost use Rattle.relay_next_hops.specs.Losses.{LosesAttempt, LosesNot, LosesRunning, RefusesLoss, StartsAndLoses};
ghost use Rattle.relay_next_hops.specs.Losses.{StartsNothing};
ghost use Rattle.relay_lanes.specs.Paces.{RunsOneLess};

use crate::delivery::{Course, Delivery};
use crate::going_on::go_on;
use crate::lanes::Lanes;
use relay_connections::{Channel, Leaving, Now, Stream, Turn};
use relay_disk::Disk;
use relay_files::Fault;
use relay_lanes::Portions;
use relay_log::{Answer, Attempt, Log, Loss, Talk};
use relay_loop::{Outbox, Relay};
use relay_node::{NodeFault, Noted};
use relay_routes::HostName;

/// Does what follows after a delivery has ended.
#[tactic(auto, using(relay_lanes::proofs::PaceLemmas::less_then_same))]
pub(crate) fn conclude<S: Stream + Drop, D: Disk>(
    turn: Turn<'_, S::Registry>,
    relay: &mut Relay<D>,
    lanes: &mut Lanes,
    portions: &mut Portions,
    leaving: &mut Leaving<S>,
    ended: (Channel<S>, Delivery),
    course: Course,
    log: &mut Log<'_, Vec<u8>>,
) -> Result<(), Fault>
    ensures runs { RunsOneLess ended.1.aim.lane lanes.old.paces lanes.new.paces }
    ensures places { KeepsPlaces lanes.old lanes.new }
    ensures portions { portions.new
        ≡ portions_after course ended.1.attempt ended.1.is_closed ended.1.message portions.old }
    ensures next { (outbox : Outbox) (noted : Option Noted) → course ≡ Course.Ended outbox noted
        → ComesNext turn.entry.now.now.moment ended.1 relay.new lanes.new }
    ensures handed { (outbox : Outbox) (noted : Option Noted) → course ≡ Course.Ended outbox noted
        → MayLeave S.remaining S.contents ended.0 outbox ended.1.aim.lane leaving.old leaving.new }
    ensures lost { (loss : Loss) (attempt : ℕ) → course ≡ Course.Lost loss → ended.1.attempt ≡ Some attempt
        → OnOk result (LosesRunning D.words turn.entry.now.now.moment attempt relay.old relay.new) }
    ensures same { ((loss : Loss) → course ≢ Course.Lost loss) → relay.new ≡ relay.old }
    ensures leaves { OnOk result (LeavesClients D.honest D.words relay.old relay.new) }
{
    let is_shared = lanes.is_shared(&ended.1.aim);
    lanes.ended(ended.1.aim.lane);
    note_cut(portions, &ended.1, &course);
    finish(turn, relay, lanes, leaving, ended, is_shared, course, log)
}

/// Takes note of an attempt that was cut off, or whose mail transaction the next hop has ended by 421: the next ones
/// for its message have half as many recipients.
fn note_cut(portions: &mut Portions, delivery: &Delivery, course: &Course)
    ensures { portions.new ≡ portions_after course.now delivery.now.attempt delivery.now.is_closed
        delivery.now.message portions.old }
{
    let is_cut = match course {
        Course::Lost(Loss::Cut) => delivery.attempt.is_some(),
        Course::Ended(_, _) => delivery.is_closed,
        Course::Lost(Loss::Refused | Loss::Unreachable | Loss::Silent)
        | Course::Stays
        | Course::TurnedAway
        | Course::Void => false,
    };
    if is_cut {
        portions.halve(delivery.message);
    }
}

/// Does what is left to be done for a delivery that counts no more among its lane's.
fn finish<S: Stream + Drop, D: Disk>(
    turn: Turn<'_, S::Registry>,
    relay: &mut Relay<D>,
    lanes: &mut Lanes,
    leaving: &mut Leaving<S>,
    ended: (Channel<S>, Delivery),
    is_shared: bool,
    course: Course,
    log: &mut Log<'_, Vec<u8>>,
) -> Result<(), Fault>
    ensures counts { KeepsCounts lanes.old lanes.new }
    ensures next { (outbox : Outbox) (noted : Option Noted) → course ≡ Course.Ended outbox noted
        → ComesNext turn.entry.now.now.moment ended.1 relay.new lanes.new }
    ensures handed { (outbox : Outbox) (noted : Option Noted) → course ≡ Course.Ended outbox noted
        → MayLeave S.remaining S.contents ended.0 outbox ended.1.aim.lane leaving.old leaving.new }
    ensures lost { (loss : Loss) → course ≡ Course.Lost loss → OnOk result
        (EndsLostOrTurnedAway D.words turn.entry.now.now ended.1 is_shared lanes.old.paces relay.old relay.new) }
    ensures same { ((loss : Loss) → course ≢ Course.Lost loss) → relay.new ≡ relay.old }
    ensures leaves { OnOk result (LeavesClients D.honest D.words relay.old relay.new) }
{
    let (channel, delivery) = ended;
    let lane = delivery.aim.lane;
    match course {
        Course::Stays => Ok(()),
        Course::Ended(outbox, noted) => {
            end_well(turn, lanes, leaving, channel, &delivery, outbox, noted, log);
            go_on(relay, lanes, delivery, turn.now);
            Ok(())
        }
        Course::TurnedAway => {
            lanes.turn_away(lane, delivery.into_task());
            Ok(())
        }
        // It was refused, or closed without a greeting, while others are open: the next hop accepts no more of them.
        Course::Lost(Loss::Refused | Loss::Cut) if is_shared && delivery.attempt.is_none() => {
            lanes.turn_away(lane, delivery.into_task());
            Ok(())
        }
        Course::Lost(loss) => end_badly(relay, lanes, delivery, loss, turn.now, log),
        Course::Void => {
            tell_void(&delivery, turn.now, log);
            Ok(())
        }
    }
}

/// Hands over a connection whose attempt has ended with an outcome, so that its last octets are written.
fn end_well<S: Stream + Drop>(
    turn: Turn<'_, S::Registry>,
    lanes: &mut Lanes,
    leaving: &mut Leaving<S>,
    channel: Channel<S>,
    delivery: &Delivery,
    outbox: Outbox,
    noted: Option<Noted>,
    log: &mut Log<'_, Vec<u8>>,
)
    ensures handed { MayLeave S.remaining S.contents channel outbox delivery.now.aim.lane leaving.old leaving.new }
    ensures counts { KeepsCounts lanes.old lanes.new }
{
    let lane = delivery.aim.lane;
    if delivery.is_welcome {
        lanes.ended_well(lane);
    }
    tell_outcome(delivery, noted, turn.now, log);
    leaving.take(turn.registry, channel, outbox, Some(lane), turn.now);
    lanes.note_leaving_of(lane, leaving);
}

/// Records that the attempt of a delivery is lost. Once that is recorded, an attempt for the recipients that it left is
/// the next of its lane; otherwise these wait with those of the lost one.
fn end_badly<D: Disk>(
    relay: &mut Relay<D>,
    lanes: &mut Lanes,
    delivery: Delivery,
    loss: Loss,
    now: &Now,
    log: &mut Log<'_, Vec<u8>>,
) -> Result<(), Fault>
    ensures lost { OnOk result (EndsLost D.words now.now delivery lanes.old.paces relay.old relay.new) }
    ensures counts { KeepsCounts lanes.old lanes.new }
    ensures leaves { OnOk result (LeavesClients D.honest D.words relay.old relay.new) }
{
    let is_recorded = lose(relay, lanes, &delivery, loss, now, log)?;
    if is_recorded && delivery.attempt.is_some() {
        go_on(relay, lanes, delivery, now);
    }
    Ok(())
}

/// Records that the attempt of a delivery is lost. A next hop that has said nothing is on hold then; and where it is
/// already, an attempt that hasn't begun is none. Returns whether it is recorded.
pub(crate) fn lose<D: Disk>(
    relay: &mut Relay<D>,
    lanes: &mut Lanes,
    delivery: &Delivery,
    loss: Loss,
    now: &Now,
    log: &mut Log<'_, Vec<u8>>,
) -> Result<bool, Fault>
    ensures lost { OnOk result (EndsLost D.words now.now delivery.now lanes.old.paces relay.old relay.new) }
    ensures held { OnOk result (HoldsIfSilent now.now.tick delivery.now lanes.old.paces lanes.new.paces) }
    ensures counts { KeepsCounts lanes.old lanes.new }
    ensures only { OnlyLane delivery.now.aim.lane lanes.old lanes.new }
    ensures tasks { lanes.new.lanes ≡ lanes.old.lanes }
    ensures config { relay.new.node.config ≡ relay.old.node.config }
    ensures leaves { OnOk result (LeavesClients D.honest D.words relay.old relay.new) }
{
    if delivery.attempt.is_none() && lanes.is_held(delivery.aim.lane, now) {
        return Ok(false);
    }
    let unheard = log.talk_of(relay.node().message(delivery.message));
    let (is_recorded, noted) = record_and_note(relay, delivery, now)?;
    let talk = talk_of(delivery, &unheard);
    tell(delivery, Some(loss), noted, talk, now, log);
    // If memory runs out, the one before stays.
    let _ = lanes
        .last_replies
        .note(delivery.name.as_slice(), Answer::Failed(loss, now.moment));
    if !delivery.has_spoken {
        hold(lanes, delivery, loss, log, now);
    }
    Ok(is_recorded)
}

/// Records that a delivery is lost without a connection, for a reason if there is one for the log: its next hop is on
/// hold, or a postmaster holds it and its time is over. Returns whether it is recorded.
pub(crate) fn lose_held<D: Disk>(
    relay: &mut Relay<D>,
    delivery: Delivery,
    loss: Option<Loss>,
    now: &Now,
    log: &mut Log<'_, Vec<u8>>,
) -> Result<bool, Fault>
    ensures lost { OnOk result (IsRecordedOrRefused D.words now.now.moment delivery relay.old relay.new) }
    ensures recorded { IfOk result (IsRecordedIf D.words now.now.moment delivery relay.old relay.new) }
    ensures config { relay.new.node.config ≡ relay.old.node.config }
    ensures leaves { OnOk result (LeavesClients D.honest D.words relay.old relay.new) }
{
    let talk = log.talk_of(relay.node().message(delivery.message));
    let (is_recorded, noted) = record_and_note(relay, &delivery, now)?;
    if is_recorded {
        tell(&delivery, loss, noted, &talk, now, log);
    }
    Ok(is_recorded)
}

/// Ends an attempt as lost, as [`record_loss`] does, and takes its note.
fn record_and_note<D: Disk>(
    relay: &mut Relay<D>,
    delivery: &Delivery,
    now: &Now,
) -> Result<(bool, Option<Noted>), Fault>
    ensures lost { OnOk result (IsRecordedOrRefused D.words now.now.moment delivery.now relay.old relay.new) }
    ensures recorded { IfOk result (λ told. IsRecordedIf D.words now.now.moment delivery.now relay.old relay.new
        told.0) }
    ensures config { relay.new.node.config ≡ relay.old.node.config }
    ensures leaves { OnOk result (LeavesClients D.honest D.words relay.old relay.new) }
{
    match record_loss(relay, delivery, now) {
        Ok(true) => Ok((true, relay.take_noted())),
        Ok(false) => Ok((false, None)),
        Err(fault) => Err(fault),
    }
}

/// Puts the next hop of a delivery's lane on hold, because its connection has failed for this reason.
fn hold(lanes: &mut Lanes, delivery: &Delivery, loss: Loss, log: &mut Log<'_, Vec<u8>>, now: &Now)
    ensures held { HoldsFrom now.now.tick delivery.now.aim.lane lanes.old.paces lanes.new.paces }
    ensures counts { KeepsCounts lanes.old lanes.new }
    ensures only { OnlyLane delivery.now.aim.lane lanes.old lanes.new }
    ensures tasks { lanes.new.lanes ≡ lanes.old.lanes }
{
    if let Some(seconds) = lanes.hold(delivery.aim.lane, now) {
        if let Some(at) = lanes.place_of(delivery.aim.lane) {
            log.held_off(delivery.name.as_slice(), at, seconds, loss);
        }
    }
}

/// Ends an attempt as lost; if it hasn't begun, begins it first. Returns whether that is recorded: it isn't if there is
/// too little memory or no number for it, or the message isn't due there any more.
fn record_loss<D: Disk>(relay: &mut Relay<D>, delivery: &Delivery, now: &Now) -> Result<bool, Fault>
    ensures lost { result ≡ Ok true
        → Loses D.words now.now.moment delivery.now relay.old relay.new delivery.now.attempt }
    ensures refused { result ≡ Ok false
        → LosesNot D.words now.now.moment delivery.now relay.old relay.new delivery.now.attempt }
    ensures config { relay.new.node.config ≡ relay.old.node.config }
    ensures leaves { OnOk result (LeavesClients D.honest D.words relay.old relay.new) }
{
    match delivery.attempt {
        Some(attempt) => lose_attempt(relay, attempt, now),
        None => lose_at_once(relay, delivery.message, &delivery.name, now),
    }
}

/// Begins an attempt for a message, and ends it as lost.
fn lose_at_once<D: Disk>(
    relay: &mut Relay<D>,
    message: u64,
    name: &HostName,
    now: &Now,
) -> Result<bool, Fault>
    ensures lost { result ≡ Ok true → StartsAndLoses D.words now.now.moment message name.now relay.old relay.new }
    ensures refused { result ≡ Ok false → StartsNothing D.words now.now.moment message name.now relay.old relay.new }
    ensures config { relay.new.node.config ≡ relay.old.node.config }
    ensures leaves { OnOk result (LeavesClients D.honest D.words relay.old relay.new) }
{
    match relay.start(message, name, now.moment) {
        Ok(started) => lose_attempt(relay, started.attempt, now),
        Err(NodeFault::Stopped) => Err(Fault::Device),
        Err(_) => Ok(false),
    }
}

/// Ends a running attempt as lost.
fn lose_attempt<D: Disk>(relay: &mut Relay<D>, attempt: usize, now: &Now) -> Result<bool, Fault>
    ensures lost { result ≡ Ok true → LosesAttempt D.words now.now.moment relay.old relay.new attempt }
    ensures refused { result ≡ Ok false → RefusesLoss D.words now.now.moment relay.old relay.new attempt }
    ensures config { relay.new.node.config ≡ relay.old.node.config }
    ensures leaves { OnOk result (LeavesClients D.honest D.words relay.old relay.new) }
{
    match relay.lose(attempt, now.moment) {
        Ok(_) => Ok(true),
        Err(fault) => match fault {
            NodeFault::Stopped => Err(Fault::Device),
            _ => Ok(false),
        },
    }
}

/// Returns what is known of an attempt for the log: what its next hop replied, if it has begun; else this.
fn talk_of<'a>(delivery: &'a Delivery, unheard: &'a Talk) -> &'a Talk {
    match &delivery.talk {
        Some(talk) if delivery.attempt.is_some() => talk,
        _ => unheard,
    }
}

/// Logs the outcome of an attempt, with what its next hop replied.
fn tell_outcome(delivery: &Delivery, noted: Option<Noted>, now: &Now, log: &mut Log<'_, Vec<u8>>) {
    match &delivery.talk {
        Some(talk) => tell(delivery, None, noted, talk, now, log),
        None => tell_void(delivery, now, log),
    }
}

/// Logs that nothing was recorded of an attempt.
fn tell_void(delivery: &Delivery, now: &Now, log: &mut Log<'_, Vec<u8>>) {
    let talk = log.talk_of(None);
    tell(delivery, None, None, &talk, now, log);
}

/// Logs the outcome of an attempt; `loss` is why its connection has failed, if it has.
fn tell(
    delivery: &Delivery,
    loss: Option<Loss>,
    noted: Option<Noted>,
    talk: &Talk,
    now: &Now,
    log: &mut Log<'_, Vec<u8>>,
) {
    let attempt = Attempt {
        number: delivery.message,
        hop: Some(delivery.name.as_slice()),
        at: Some(delivery.aim.at),
        age: delivery.aim.age(now),
        loss,
        noted,
    };
    log.attempt(&attempt, talk);
}
