ghost use Rattle.std.specs.Prelude.{◌≡◌, List, None, Err, IfErr, IfOk, MatchResult, OnOk, false, true};
ghost use Rattle.relay_report.specs.Report.{reporter_of};
ghost use Rattle.relay_attempts.specs.Outcomes.{AddsUnroutable, CutsUnroutable, EndsUnroutable, RefusesToGiveUp};
ghost use Rattle.relay_attempts.specs.Withdrawals.{AddsWithdrawal, CutsWithdrawal, EndsWithdrawal, RefusesToWithdraw};
ghost use Rattle.relay_book.specs.declared.change.Change.{Change};
ghost use Rattle.relay_book.specs.StandsFor.{StandsFor};
ghost use Rattle.relay_node.specs.Compaction.{RefusesToCompact};
ghost use Rattle.relay_records.specs.Records.{Compacts, Halted, IsStopped, Keeps};
ghost use Rattle.relay_slots.specs.Slots.{AreFree};
ghost use Rattle.relay_spool.specs.Pair.{HasBodies};
ghost use Rattle.relay_spool.specs.Spool.{AtEachMoment};
ghost use Rattle.relay_spool.specs.Trim.{IsTrimmed, trim_calls};

use crate::outboxes::Outboxes;
use relay_book::Withdrawal;
use relay_disk::Disk;
use relay_node::Node;
use relay_records::{NodeFault, Noted};
use relay_trace::Moment;
use std::alloc::Global;
use std::marker::Model;

/// A node with the connections of its sessions and attempts. A session's connection has the session's number, an
/// attempt's the attempt's. The relay has no sockets: the caller hands it the octets that were read, and writes those
/// that it returns. It uses no octet of a connection while octets for that connection are unwritten.
///
/// If the device fails, the node stops: drop all connections then, and open the disks again.
pub struct Relay<D: Disk> {
    pub(crate) alloc: Global,
    pub(crate) node: Node<D>,
    pub(crate) clients: Outboxes,
    pub(crate) hops: Outboxes,
}

// Written out, so that the proof of a caller that drops a relay stops at this function.
impl<D: Disk + Drop> Drop for Relay<D> {
    fn drop(self) {
        let Relay {
            alloc: _,
            node: _node,
            clients: _clients,
            hops: _hops,
        } = self;
    }
}

impl<D: Disk> Model for Relay<D> {
    ghost use Rattle.relay_loop.specs.Relay.{RelayState};

    ghost Value = { RelayState D };

    ghost view = { λ relay. record {
      node = relay.node;
      clients = relay.clients;
      hops = relay.hops;
    } };
}

impl<D: Disk> Relay<D> {
    /// Makes a relay of a node, without connections. Returns the node if memory runs out.
    pub fn new(alloc: Global, node: Node<D>) -> Result<Self, Node<D>>
        ensures { MatchResult result
            (λ relay. (relay.node ≡ node) × AreFree relay.clients × AreFree relay.hops)
            (λ refused. refused ≡ node) }
    {
        let Ok(clients) = Outboxes::new(alloc) else {
            return Err(node);
        };
        let Ok(hops) = Outboxes::new(alloc) else {
            return Err(node);
        };
        Ok(Relay {
            alloc,
            node,
            clients,
            hops,
        })
    }

    /// Returns the node.
    pub fn node(&self) -> &Node<D>
        ensures { result.now ≡ self.now.node }
    {
        &self.node
    }

    /// Returns the node, live or stopped, and drops all connections. Allocates nothing.
    pub fn into_node(self) -> Node<D>
        ensures { result ≡ self.node }
    {
        let Relay {
            alloc: _,
            node,
            clients: _clients,
            hops: _hops,
        } = self;
        node
    }

    /// Takes the note of the last change out, as [`Node::take_noted`].
    pub fn take_noted(&mut self) -> Option<Noted>
        ensures noted { result ≡ self.old.node.records.noted }
        ensures node { self.new.node
            ≡ record self.old.node { records = record self.old.node.records { noted = None } } }
        ensures connections { (self.new.clients ≡ self.old.clients) × (self.new.hops ≡ self.old.hops) }
    {
        self.node.take_noted()
    }

    /// Compacts the spool, as [`Node::compact`]. The connections are unchanged.
    pub fn compact(&mut self) -> Result<(usize, usize), NodeFault>
        ensures kept { (changes : List Change) → Keeps D.honest D.words self.old.node.records changes
            → OnOk result (Keeps D.honest D.words self.new.node.records changes) }
        ensures cut { (changes : List Change) → Keeps D.honest D.words self.old.node.records changes
            → result ≡ Err NodeFault.Stopped → Halted D.honest D.words self.new.node.records changes None }
        // A stop at any time of the call leaves the changes as they were.
        ensures stop { (changes : List Change) → Keeps D.honest D.words self.old.node.records changes → D.honest
            → AtEachMoment D.words self.old.node.records.spool.disk self.new.node.records.spool.disk
            (HasBodies (λ bodies. StandsFor bodies changes)) }
        ensures compacts { OnOk result (Compacts D.honest D.words self.old.node.records self.new.node.records) }
        ensures sizes { IfOk result (λ sizes. (sizes.0 ≡ self.old.node.records.spool.size)
            × (sizes.1 ≡ self.new.node.records.spool.size)) }
        ensures rest { (self.new.node.config ≡ self.old.node.config) × (self.new.node.seats ≡ self.old.node.seats)
            × (self.new.node.attempts ≡ self.old.node.attempts)
            × (self.new.node.records.queue ≡ self.old.node.records.queue)
            × (self.new.node.records.noted ≡ self.old.node.records.noted) }
        ensures connections { (self.new.clients ≡ self.old.clients) × (self.new.hops ≡ self.old.hops) }
        ensures refused { RefusesToCompact D.words self.old.node self.new.node result }
    {
        self.node.compact()
    }

    /// Shortens the spare disk of the spool, as [`Node::trim`]. The connections are unchanged.
    pub fn trim(&mut self, most: usize) -> Result<bool, NodeFault>
        ensures kept { (changes : List Change) → Keeps D.honest D.words self.old.node.records changes
            → OnOk result (Keeps D.honest D.words self.new.node.records changes) }
        ensures cut { (changes : List Change) → Keeps D.honest D.words self.old.node.records changes
            → result ≡ Err NodeFault.Stopped → Halted D.honest D.words self.new.node.records changes None }
        // A stop at any time of the call leaves the changes as they were.
        ensures stop { (changes : List Change) → Keeps D.honest D.words self.old.node.records changes → D.honest
            → AtEachMoment D.words self.old.node.records.spool.disk self.new.node.records.spool.disk
            (HasBodies (λ bodies. StandsFor bodies changes)) }
        ensures trimmed { IfOk result
            (IsTrimmed D.honest D.words most self.old.node.records.spool self.new.node.records.spool) }
        ensures rest { (self.new.node.config ≡ self.old.node.config) × (self.new.node.seats ≡ self.old.node.seats)
            × (self.new.node.attempts ≡ self.old.node.attempts)
            × (self.new.node.records.queue ≡ self.old.node.records.queue)
            × (self.new.node.records.noted ≡ self.old.node.records.noted) }
        ensures connections { (self.new.clients ≡ self.old.clients) × (self.new.hops ≡ self.old.hops) }
        ensures stopped { self.old.node.records.spool.live ≡ false
            → (result ≡ Err NodeFault.Stopped) × (self.new.node ≡ self.old.node) }
        ensures refused { self.old.node.records.spool.live ≡ true → IfErr result (λ fault.
            (fault ≡ NodeFault.Stopped) × IsStopped D.words (trim_calls self.old.node.records.spool.taken.other)
            self.old.node.records self.new.node.records) }
    {
        self.node.trim(most)
    }

    /// Gives up the places of a message that have no hop, as [`Node::give_up_unroutable`]. The connections are
    /// unchanged.
    pub fn give_up_unroutable(&mut self, message: u64, now: Moment) -> Result<u64, NodeFault>
        ensures gives_up { (changes : List Change) → Keeps D.honest D.words self.old.node.records changes
            → IfOk result (AddsUnroutable D.honest D.words (reporter_of self.old.node.config)
            self.old.node.config.routes
            message now changes self.old.node.records self.new.node.records) }
        ensures cut { (changes : List Change) → Keeps D.honest D.words self.old.node.records changes
            → result ≡ Err NodeFault.Stopped
            → CutsUnroutable D.honest D.words (reporter_of self.old.node.config) self.old.node.config.routes message now
            changes self.old.node.records self.new.node.records }
        ensures ends { IfOk result (EndsUnroutable D.words (reporter_of self.old.node.config)
            self.old.node.config.routes message now self.old.node.records self.new.node.records) }
        ensures rest { (self.new.node.config ≡ self.old.node.config) × (self.new.node.seats ≡ self.old.node.seats)
            × (self.new.node.attempts ≡ self.old.node.attempts) }
        ensures connections { (self.new.clients ≡ self.old.clients) × (self.new.hops ≡ self.old.hops) }
        ensures refused { IfErr result (RefusesToGiveUp D.words (reporter_of self.old.node.config)
            self.old.node.config.routes message now self.old.node.records self.new.node.records) }
        ensures stopped { self.old.node.records.spool.live ≡ false
            → (result ≡ Err NodeFault.Stopped) × (self.new.node ≡ self.old.node) }
    {
        self.node.give_up_unroutable(message, now)
    }

    /// As [`Node::withdraw`]. All connections stay.
    pub fn withdraw(
        &mut self,
        message: u64,
        places: &[u8],
        withdrawal: Withdrawal,
        now: Moment,
    ) -> Result<u64, NodeFault>
        ensures withdraws { (changes : List Change) → Keeps D.honest D.words self.old.node.records changes
            → IfOk result (AddsWithdrawal D.honest D.words (reporter_of self.old.node.config) message now withdrawal
            places.now changes self.old.node.records self.new.node.records) }
        ensures cut { (changes : List Change) → Keeps D.honest D.words self.old.node.records changes
            → result ≡ Err NodeFault.Stopped
            → CutsWithdrawal D.honest D.words (reporter_of self.old.node.config) message now withdrawal places.now
            changes self.old.node.records self.new.node.records }
        ensures ends { IfOk result (EndsWithdrawal D.words (reporter_of self.old.node.config) self.old.node.attempts
            message now withdrawal places.now self.old.node.records self.new.node.records) }
        ensures rest { (self.new.node.config ≡ self.old.node.config) × (self.new.node.seats ≡ self.old.node.seats)
            × (self.new.node.attempts ≡ self.old.node.attempts) }
        ensures connections { (self.new.clients ≡ self.old.clients) × (self.new.hops ≡ self.old.hops) }
        ensures refused { IfErr result (RefusesToWithdraw D.words (reporter_of self.old.node.config)
            self.old.node.attempts message now withdrawal places.now self.old.node.records self.new.node.records) }
        ensures stopped { self.old.node.records.spool.live ≡ false
            → (result ≡ Err NodeFault.Stopped) × (self.new.node ≡ self.old.node) }
    {
        self.node.withdraw(message, places, withdrawal, now)
    }
}
