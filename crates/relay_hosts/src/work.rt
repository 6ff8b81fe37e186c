//! What a node begins of itself: sessions, attempts, and the end of places without an attempt, since they have no hop
//! or since the postmaster withdraws them.
ghost use Rattle.std.specs.Prelude.{◌≡◌, ◌↔◌, IfErr, IfOk, IsTrue, slice_get, vec_capacity, vec_len};
ghost use Rattle.relay_slots.specs.Slots.{IsFull};
ghost use Rattle.relay_world.specs.GivingUp.{NoHop, Postmaster};
ghost use Rattle.relay_hosts.specs.Host.{OwesWithin, host_of, notes_of};
ghost use Rattle.relay_hosts.specs.Work.{BeginsOrNot, BeginsUnlessFull, GivesUpOrNot, GivesUpUnlessFull, HasChanges};
ghost use Rattle.relay_hosts.specs.Work.{KnowsChanges, OpensOrRefuses, attempts_in, works_in};

use crate::calls::{is_stop, take_note};
use crate::host::{Host, HostState};
use crate::recorded::Recorded;
use relay_attempts::{Started, Work};
use relay_book::Withdrawal;
use relay_disk::Disk;
use relay_node::{Connected, Node, NodeFault};
use relay_octets::Octets;
use relay_routes::HostName;
use relay_trace::Moment;
use std::alloc::Global;

/// The result of having a node begin an attempt.
pub enum Begun {
    /// It has begun.
    Done(Started),
    /// The node has refused it.
    Refused(NodeFault),
    /// There was no room to record the outcome to come. The node wasn't called.
    NoRoom,
}

/// What became of places that a node was to give up without an attempt.
pub enum GivenUp {
    /// The node gave them up, by the change of this number.
    Done(u64, Recorded),
    /// The node has refused.
    Refused(NodeFault),
    /// The node has stopped.
    Stopped,
    /// There was no room to record a change. The node wasn't called.
    NoRoom,
}

/// Begins an attempt for a message and a hop. Room for the record of its outcome is reserved from then on.
fn start_at<D: Disk>(
    node: &mut Node<D>,
    records: &mut Vec<Octets>,
    owed: &mut usize,
    message: u64,
    hop: &HostName,
    now: Moment,
) -> Begun
    requires changes { KnowsChanges D.honest D.words node.old }
    requires room { OwesWithin (notes_of node.old) (vec_len records.old) (vec_capacity records.old) owed.old }
    ensures begun { BeginsOrNot D.honest D.words now (host_of node.old records.old.items)
        (host_of node.new records.new.items) message hop.now result }
    ensures room { OwesWithin (notes_of node.new) (vec_len records.new) (vec_capacity records.new) owed.new }
{
    let Some(more) = owed.checked_add(1) else {
        return Begun::NoRoom;
    };
    let Ok(()) = records.reserve(more) else {
        return Begun::NoRoom;
    };
    match node.start(message, hop, now) {
        Ok(started) => {
            *owed = more;
            Begun::Done(started)
        }
        Err(fault) => Begun::Refused(fault),
    }
}

/// Gives up the places of a message that have no hop.
fn give_up_at<D: Disk>(
    node: &mut Node<D>,
    records: &mut Vec<Octets>,
    owed: &mut usize,
    message: u64,
    now: Moment,
) -> GivenUp
    requires changes { KnowsChanges D.honest D.words node.old }
    requires room { OwesWithin (notes_of node.old) (vec_len records.old) (vec_capacity records.old) owed.old }
    ensures given { GivesUpOrNot D.honest D.words NoHop now (host_of node.old records.old.items)
        (host_of node.new records.new.items) message result }
    ensures room { OwesWithin (notes_of node.new) (vec_len records.new) (vec_capacity records.new) owed.new }
{
    let Some(more) = owed.checked_add(1) else {
        return GivenUp::NoRoom;
    };
    let Ok(()) = records.reserve(more) else {
        return GivenUp::NoRoom;
    };
    let number = match node.give_up_unroutable(message, now) {
        Ok(number) => number,
        Err(fault) => {
            if is_stop(fault) {
                *owed = more;
                return GivenUp::Stopped;
            }
            return GivenUp::Refused(fault);
        }
    };
    let recorded = take_note(node, records);
    GivenUp::Done(number, recorded)
}

/// A node withdraws places of a message, as the postmaster asks.
fn withdraw_at<D: Disk>(
    node: &mut Node<D>,
    records: &mut Vec<Octets>,
    owed: &mut usize,
    message: u64,
    places: &[u8],
    withdrawal: Withdrawal,
    now: Moment,
) -> GivenUp
    requires changes { KnowsChanges D.honest D.words node.old }
    requires room { OwesWithin (notes_of node.old) (vec_len records.old) (vec_capacity records.old) owed.old }
    ensures given { GivesUpOrNot D.honest D.words (Postmaster withdrawal places.now) now
        (host_of node.old records.old.items) (host_of node.new records.new.items) message result }
    ensures room { OwesWithin (notes_of node.new) (vec_len records.new) (vec_capacity records.new) owed.new }
{
    let Some(more) = owed.checked_add(1) else {
        return GivenUp::NoRoom;
    };
    let Ok(()) = records.reserve(more) else {
        return GivenUp::NoRoom;
    };
    let number = match node.withdraw(message, places, withdrawal, now) {
        Ok(number) => number,
        Err(fault) => {
            if is_stop(fault) {
                *owed = more;
                return GivenUp::Stopped;
            }
            return GivenUp::Refused(fault);
        }
    };
    let recorded = take_note(node, records);
    GivenUp::Done(number, recorded)
}

impl<D: Disk> Host<D> {
    /// Opens a session for a client at this IPv4 address.
    pub fn connect(&mut self, peer: [u8; 4]) -> Result<Connected, NodeFault>
        requires { HasChanges D.honest D.words self.old }
        ensures { OpensOrRefuses self.old self.new peer result }
    {
        let HostState::Up(node) = &mut self.state else {
            unreachable!()
        };
        node.connect(peer)
    }

    /// Returns the first work that the node has due, if any. Fails only if memory runs out.
    pub fn first_work(&self, alloc: Global, now: Moment) -> Result<Option<Work>, NodeFault>
        requires { HasChanges D.honest D.words self.now }
        ensures first { IfOk result (λ work. work ≡ slice_get (works_in now self.now.state) 0) }
        ensures fault { IfErr result (λ fault. fault ≡ NodeFault.NoMemory) }
    {
        let HostState::Up(node) = &self.state else {
            unreachable!()
        };
        let mut works = match node.due(alloc, now) {
            Ok(works) => works,
            Err(fault) => return Err(fault),
        };
        if works.is_empty() {
            return Ok(None);
        }
        Ok(Some(works.swap_remove(0)))
    }

    /// Returns whether 64 attempts of the node are running, which is the most it runs.
    pub fn is_full_of_attempts(&self) -> bool
        ensures { IsTrue result ↔ IsFull (attempts_in self.now.state) }
    {
        match &self.state {
            HostState::Up(node) => node.is_full_of_attempts(),
            HostState::Down(_) => false,
        }
    }

    /// Begins an attempt for a message and a hop.
    pub fn start(&mut self, message: u64, hop: &HostName, now: Moment) -> Begun
        requires { HasChanges D.honest D.words self.old }
        ensures begun { BeginsOrNot D.honest D.words now self.old self.new message hop.now result }
        ensures first { slice_get (works_in now self.old.state) 0 ≡ Some (Work.Try message hop.now)
            → BeginsUnlessFull self.old result }
    {
        let HostState::Up(node) = &mut self.state else {
            unreachable!()
        };
        start_at(node, &mut self.records, &mut self.owed, message, hop, now)
    }

    /// Gives up the places of a message that have no hop, in one call.
    pub fn give_up(&mut self, message: u64, now: Moment) -> GivenUp
        requires { HasChanges D.honest D.words self.old }
        ensures given { GivesUpOrNot D.honest D.words NoHop now self.old self.new message result }
        ensures first { slice_get (works_in now self.old.state) 0 ≡ Some (Work.NoRoute message)
            → GivesUpUnlessFull D.honest D.words now self.old message result }
    {
        let HostState::Up(node) = &mut self.state else {
            unreachable!()
        };
        give_up_at(node, &mut self.records, &mut self.owed, message, now)
    }

    /// The node withdraws places of a message by one call, as the postmaster asks.
    pub fn withdraw(
        &mut self,
        message: u64,
        places: &[u8],
        withdrawal: Withdrawal,
        now: Moment,
    ) -> GivenUp
        requires { HasChanges D.honest D.words self.old }
        ensures { GivesUpOrNot D.honest D.words (Postmaster withdrawal places.now) now self.old self.new message
            result }
    {
        let HostState::Up(node) = &mut self.state else {
            unreachable!()
        };
        withdraw_at(
            node,
            &mut self.records,
            &mut self.owed,
            message,
            places,
            withdrawal,
            now,
        )
    }
}
