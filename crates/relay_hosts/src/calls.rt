//! The calls of a node that may add a change, each with the note of the change.
ghost use Rattle.std.specs.Prelude.{◌≡◌, ◌<◌, ◌≤◌, ◌+◌, true, vec_capacity, vec_len};
ghost use Rattle.std.specs.Option.{is_some};
ghost use Rattle.relay_hosts.specs.Call.{HearsOrNot, IsToldLoss, KnowsAttempt, KnowsSession, ReadsOrNot, TakesNote};
ghost use Rattle.relay_hosts.specs.Call.{is_stop};
ghost use Rattle.relay_hosts.specs.Host.{OwesWithin, host_of, notes_of};

use crate::recorded::Recorded;
use relay_disk::Disk;
use relay_node::{Node, NodeFault, Received, Replied};
use relay_octets::Octets;
use relay_trace::Moment;
use std::mem;

/// The result of reporting a lost connection to the node of an attempt.
pub enum ToldLoss {
    /// The attempt has an outcome: the change of this number.
    Ended(u64, Recorded),
    /// The attempt is gone without an outcome: too little memory or room.
    Gone(NodeFault),
    /// The node has stopped.
    Stopped,
}

/// The result of handing replies to a node.
pub enum Read {
    /// They were read; a change was added or not.
    Done(Replied, Option<Recorded>),
    /// The attempt is gone: too little memory or room.
    Gone(NodeFault),
    /// The node has stopped.
    Stopped,
}

/// The result of handing octets of a client to a node.
pub enum Heard {
    /// They were heard; a change was added or not.
    Done(Received, Option<Recorded>),
    /// The session is gone: too little memory or room.
    Gone(NodeFault),
    /// The node has stopped.
    Stopped,
    /// There was no room to record a change. The node wasn't called.
    NoRoom,
}

/// Returns whether this fault means that the node has stopped.
pub(crate) fn is_stop(fault: NodeFault) -> bool
    ensures { result ≡ is_stop fault }
{
    match fault {
        NodeFault::NoMemory => false,
        NodeFault::Stopped => true,
        NodeFault::Unknown => false,
        NodeFault::TooMany => false,
        NodeFault::NotDue => false,
        NodeFault::Busy => false,
        NodeFault::Open(_) => false,
        NodeFault::Full => false,
        NodeFault::NoSecond => false,
    }
}

/// Takes the note of a node, and appends its record to the earlier ones, for which there is room.
pub(crate) fn take_note<D: Disk>(node: &mut Node<D>, records: &mut Vec<Octets>) -> Recorded
    requires noted { is_some node.old.records.noted ≡ true }
    requires room { vec_len records.old < vec_capacity records.old }
    ensures takes { TakesNote node.old node.new records.old.items records.new.items result }
    ensures len { vec_len records.new ≡ vec_len records.old + 1 }
    ensures capacity { vec_capacity records.old ≤ vec_capacity records.new }
{
    let Some(noted) = node.take_noted() else {
        unreachable!()
    };
    let mut noted = noted;
    let alloc = *records.allocator();
    let octets = mem::replace(&mut noted.octets, Octets::new(Vec::new(alloc)));
    records.push(octets).unwrap();
    let left = mem::replace(&mut noted.left, Vec::new(alloc));
    Recorded {
        accepted: noted.accepted,
        left,
        report: noted.report,
    }
}

/// Reports to a node that the connection of a running attempt is lost.
pub(crate) fn lose_at<D: Disk>(
    node: &mut Node<D>,
    records: &mut Vec<Octets>,
    owed: &mut usize,
    slot: usize,
    now: Moment,
) -> ToldLoss
    requires attempt { KnowsAttempt D.honest D.words node.old slot }
    requires room { OwesWithin (notes_of node.old) (vec_len records.old) (vec_capacity records.old) owed.old }
    ensures told { IsToldLoss D.honest D.words now (host_of node.old records.old.items)
        (host_of node.new records.new.items) slot result }
    ensures room { OwesWithin (notes_of node.new) (vec_len records.new) (vec_capacity records.new) owed.new }
{
    let number = match node.lost(slot, now) {
        Ok(number) => number,
        Err(fault) => {
            if is_stop(fault) {
                return ToldLoss::Stopped;
            }
            return ToldLoss::Gone(fault);
        }
    };
    let recorded = take_note(node, records);
    *owed -= 1;
    ToldLoss::Ended(number, recorded)
}

/// Hands replies to a node for a running attempt.
pub(crate) fn read_at<D: Disk>(
    node: &mut Node<D>,
    records: &mut Vec<Octets>,
    owed: &mut usize,
    slot: usize,
    piece: &[u8],
    now: Moment,
) -> Read
    requires attempt { KnowsAttempt D.honest D.words node.old slot }
    requires room { OwesWithin (notes_of node.old) (vec_len records.old) (vec_capacity records.old) owed.old }
    ensures told { ReadsOrNot D.honest D.words now (host_of node.old records.old.items)
        (host_of node.new records.new.items) slot piece.now result }
    ensures room { OwesWithin (notes_of node.new) (vec_len records.new) (vec_capacity records.new) owed.new }
{
    let replied = match node.reply(slot, piece, now) {
        Ok(replied) => replied,
        Err(fault) => {
            if is_stop(fault) {
                return Read::Stopped;
            }
            return Read::Gone(fault);
        }
    };
    if replied.change.is_none() {
        return Read::Done(replied, None);
    }
    let recorded = take_note(node, records);
    *owed -= 1;
    Read::Done(replied, Some(recorded))
}

/// Hands octets of a client to a node for a running session.
pub(crate) fn hear_at<D: Disk>(
    node: &mut Node<D>,
    records: &mut Vec<Octets>,
    owed: &mut usize,
    session: usize,
    piece: &[u8],
    now: Moment,
) -> Heard
    requires session { KnowsSession D.honest D.words node.old session }
    requires room { OwesWithin (notes_of node.old) (vec_len records.old) (vec_capacity records.old) owed.old }
    ensures told { HearsOrNot D.honest D.words now (host_of node.old records.old.items)
        (host_of node.new records.new.items) session piece.now result }
    ensures room { OwesWithin (notes_of node.new) (vec_len records.new) (vec_capacity records.new) owed.new }
{
    let Some(more) = owed.checked_add(1) else {
        return Heard::NoRoom;
    };
    let Ok(()) = records.reserve(more) else {
        return Heard::NoRoom;
    };
    let received = match node.receive(session, piece, now) {
        Ok(received) => received,
        Err(fault) => {
            if is_stop(fault) {
                *owed = more;
                return Heard::Stopped;
            }
            return Heard::Gone(fault);
        }
    };
    if received.change.is_none() {
        return Heard::Done(received, None);
    }
    let recorded = take_note(node, records);
    Heard::Done(received, Some(recorded))
}
