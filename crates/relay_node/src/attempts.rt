//! Mail that is relayed.
ghost use Rattle.std.specs.Prelude.{◌≡◌, ◌<◌, ◌↔◌, ◌⊎◌, ℕ, false, List, Some, Err, IfErr, IfOk, IsTrue};
ghost use Rattle.relay_report.specs.Report.{reporter_of};
ghost use Rattle.relay_attempts.specs.Attempts.{RefusesToStart, RefusesToStartAtMost, Serves, Starts, StartsAtMost};
ghost use Rattle.relay_attempts.specs.Outcomes.{AddsUnroutable, CutsUnroutable, EndsUnroutable, RefusesToGiveUp};
ghost use Rattle.relay_attempts.specs.Withdrawals.{AddsWithdrawal, CutsWithdrawal, EndsWithdrawal, RefusesToWithdraw};
ghost use Rattle.relay_attempts.specs.Next.{IsNextDue};
ghost use Rattle.relay_attempts.specs.Work.{works_of};
ghost use Rattle.relay_book.specs.declared.change.Change.{Change};
ghost use Rattle.relay_book.specs.Book.{Rise};
ghost use Rattle.relay_book.specs.Queue.{Queue, queue_of};
ghost use Rattle.relay_node.specs.Attempts.{Begins, BeginsAtMost};
ghost use Rattle.relay_node.specs.Node.{TakesIn};
ghost use Rattle.relay_records.specs.Records.{Keeps};
ghost use Rattle.relay_slots.specs.Slots.{IsFull};

use crate::node::Node;
use crate::receive::Received;
use relay_attempts::{Attempts, Started, Work};
use relay_book::Withdrawal;
use relay_disk::Disk;
use relay_records::{NodeFault, Records};
use relay_routes::{Config, HostName};
use relay_trace::Moment;
use std::alloc::Global;

impl<D: Disk> Node<D> {
    /// Returns what there is to do at a time, in order of the messages' numbers: that a held place has no hop, and then
    /// each hop with a due place for which no attempt is running, in the order of their first due places.
    pub fn due(&self, alloc: Global, now: Moment) -> Result<Vec<Work>, NodeFault>
        ensures works { IfOk result (λ works. works.items
            ≡ works_of self.now.config.routes self.now.attempts now self.now.records.queue) }
        ensures kept { (changes : List Change) → Keeps D.honest D.words self.now.records changes
            → IfOk result (λ works. works.items
            ≡ works_of self.now.config.routes self.now.attempts now (queue_of changes)) }
        ensures stopped { (result ≡ Err NodeFault.Stopped) ↔ (self.now.records.spool.live ≡ false) }
        ensures faults { IfErr result (λ fault. (fault ≡ NodeFault.Stopped) ⊎ (fault ≡ NodeFault.NoMemory)) }
    {
        if !self.records.is_live() {
            return Err(NodeFault::Stopped);
        }
        Ok(
            self.attempts
                .due(alloc, &self.config.routes, &self.records, now)?,
        )
    }

    /// Returns the least time, from this one on, at which [`Node::due`] has work: this one where a held place has no
    /// hop, and else the first at which a place is due that has one, and for whose message and hop no attempt is
    /// running. None if there is no work at any time. It checks the places in the order of their times, at none after
    /// the first that is to be tried, and takes no memory. `Stopped` is its only fault.
    pub fn next_due(&self, now: Moment) -> Result<Option<Moment>, NodeFault>
        ensures next { IfOk result (IsNextDue self.now.config.routes self.now.attempts self.now.records.queue now) }
        ensures kept { (changes : List Change) → Keeps D.honest D.words self.now.records changes
            → IfOk result (IsNextDue self.now.config.routes self.now.attempts (queue_of changes) now) }
        ensures stopped { (result ≡ Err NodeFault.Stopped) ↔ (self.now.records.spool.live ≡ false) }
        ensures faults { IfErr result (λ fault. fault ≡ NodeFault.Stopped) }
    {
        if !self.records.is_live() {
            return Err(NodeFault::Stopped);
        }
        Ok(
            self.attempts
                .next_due(&self.config.routes, &self.records, now),
        )
    }

    /// Returns whether 64 attempts are running, so that [`Node::start`] begins none.
    pub fn is_full_of_attempts(&self) -> bool
        ensures { IsTrue result ↔ IsFull self.now.attempts }
    {
        self.attempts.is_full()
    }

    /// Begins an attempt for the places of a message that are due and go to this hop, under the least free number. The
    /// first fault in this order is answered, and nothing is changed then: `Stopped`, `Unknown` where no place of such
    /// a message is held, `TooMany` where 64 attempts are running, `Busy` where one for this message and hop is,
    /// `NotDue` where no place is due that goes there; then lack of memory.
    pub fn start(&mut self, message: u64, hop: &HostName, now: Moment) -> Result<Started, NodeFault>
        ensures starts { IfOk result (Starts self.old.config.host self.old.config.routes message hop.now now
            self.old.records.queue self.old.attempts self.new.attempts) }
        ensures begins { (changes : List Change) → Keeps D.honest D.words self.old.records changes
            → IfOk result (Begins self.old.config changes message hop.now now
            self.old.attempts self.new.attempts) }
        ensures rest { (self.new.records ≡ self.old.records) × (self.new.config ≡ self.old.config)
            × (self.new.seats ≡ self.old.seats) }
        ensures refused { IfErr result (RefusesToStart self.old.config.host self.old.config.routes message
            hop.now now self.old.records self.old.attempts) }
        ensures unchanged { IfErr result (λ _. self.new ≡ self.old) }
        ensures stopped { (result ≡ Err NodeFault.Stopped) ↔ (self.old.records.spool.live ≡ false) }
    {
        self.attempts
            .start(self.alloc, &self.config, &self.records, message, hop, now)
    }

    /// Begins an attempt as [`Node::start`], for at most `most` of those places, the first in order. The others stay
    /// due: what was tried is put off, so the next attempt takes them. Where `most` is 0, it is `NotDue`.
    pub fn start_some(
        &mut self,
        message: u64,
        hop: &HostName,
        most: usize,
        now: Moment,
    ) -> Result<Started, NodeFault>
        ensures starts { IfOk result (StartsAtMost self.old.config.host self.old.config.routes message hop.now
            (Some most) now self.old.records.queue self.old.attempts self.new.attempts) }
        ensures begins { (changes : List Change) → Keeps D.honest D.words self.old.records changes
            → IfOk result (BeginsAtMost self.old.config changes message hop.now (Some most) now
            self.old.attempts self.new.attempts) }
        ensures rest { (self.new.records ≡ self.old.records) × (self.new.config ≡ self.old.config)
            × (self.new.seats ≡ self.old.seats) }
        ensures refused { IfErr result (RefusesToStartAtMost self.old.config.host self.old.config.routes message
            hop.now (Some most) now self.old.records self.old.attempts) }
        ensures unchanged { IfErr result (λ _. self.new ≡ self.old) }
        ensures stopped { (result ≡ Err NodeFault.Stopped) ↔ (self.old.records.spool.live ≡ false) }
    {
        self.attempts.start_some(
            self.alloc,
            &self.config,
            &self.records,
            message,
            hop,
            most,
            now,
        )
    }

    /// Ends the held places of a message that have no hop (RFC 5321, section 6.1), all in one change with the report
    /// that is owed, whose number is the answer. The first fault in this order is answered: `Stopped`, `Unknown` where
    /// no place of such a message is held, `NotDue` where each held place has a hop; then `NoMemory` and `Full`, for
    /// lack of memory or of room. Nothing is changed then.
    pub fn give_up_unroutable(&mut self, message: u64, now: Moment) -> Result<u64, NodeFault>
        ensures gives_up { (changes : List Change) → Keeps D.honest D.words self.old.records changes
            → IfOk result (AddsUnroutable D.honest D.words (reporter_of self.old.config) self.old.config.routes message
            now changes self.old.records self.new.records) }
        ensures cut { (changes : List Change) → Keeps D.honest D.words self.old.records changes
            → result ≡ Err NodeFault.Stopped
            → CutsUnroutable D.honest D.words (reporter_of self.old.config) self.old.config.routes message now changes
            self.old.records self.new.records }
        ensures ends { IfOk result (EndsUnroutable D.words (reporter_of self.old.config) self.old.config.routes
            message now self.old.records self.new.records) }
        ensures rest { (self.new.config ≡ self.old.config) × (self.new.seats ≡ self.old.seats)
            × (self.new.attempts ≡ self.old.attempts) }
        ensures refused { IfErr result (RefusesToGiveUp D.words (reporter_of self.old.config) self.old.config.routes
            message now self.old.records self.new.records) }
        ensures stopped { self.old.records.spool.live ≡ false
            → (result ≡ Err NodeFault.Stopped) × (self.new ≡ self.old) }
    {
        if !self.records.is_live() {
            return Err(NodeFault::Stopped);
        }
        self.attempts
            .give_up_unroutable(self.alloc, &self.config, &mut self.records, message, now)
    }
}

impl<D: Disk> Node<D> {
    /// Ends places of a message as the postmaster asks: as failed, with the report that is owed, or without a report;
    /// all in one change, whose number is the answer. The places may be named in any order, and more than once. The
    /// first fault in this order is answered: `Stopped`; `Unknown` where no such message has a held place, no place is
    /// named, or one that isn't held; `Busy` where a running attempt tries one of them; then `NoMemory` and `Full`, for
    /// lack of memory or of room. Nothing is changed then.
    pub fn withdraw(
        &mut self,
        message: u64,
        places: &[u8],
        withdrawal: Withdrawal,
        now: Moment,
    ) -> Result<u64, NodeFault>
        ensures withdraws { (changes : List Change) → Keeps D.honest D.words self.old.records changes
            → IfOk result (AddsWithdrawal D.honest D.words (reporter_of self.old.config) message now withdrawal
            places.now changes self.old.records self.new.records) }
        ensures cut { (changes : List Change) → Keeps D.honest D.words self.old.records changes
            → result ≡ Err NodeFault.Stopped
            → CutsWithdrawal D.honest D.words (reporter_of self.old.config) message now withdrawal places.now changes
            self.old.records self.new.records }
        ensures ends { IfOk result (EndsWithdrawal D.words (reporter_of self.old.config) self.old.attempts message now
            withdrawal places.now self.old.records self.new.records) }
        ensures rest { (self.new.config ≡ self.old.config) × (self.new.seats ≡ self.old.seats)
            × (self.new.attempts ≡ self.old.attempts) }
        ensures refused { IfErr result (RefusesToWithdraw D.words (reporter_of self.old.config) self.old.attempts
            message now withdrawal places.now self.old.records self.new.records) }
        ensures stopped { self.old.records.spool.live ≡ false
            → (result ≡ Err NodeFault.Stopped) × (self.new ≡ self.old) }
    {
        if !self.records.is_live() {
            return Err(NodeFault::Stopped);
        }
        self.attempts.withdraw(
            self.alloc,
            &self.config,
            &mut self.records,
            message,
            places,
            withdrawal,
            now,
        )
    }
}

/// Tells the attempts of the mail that a call has accepted, if it accepted any. Allocates nothing.
pub(crate) fn note<D: Disk>(
    attempts: &mut Attempts,
    config: &Config,
    records: &Records<D>,
    received: &Received,
)
    requires { 0 < attempts.old.room }
    ensures serves { (host : List ℕ) (queue : Queue) → Rise 0 queue.next queue.messages
        → TakesIn queue received.now.change records.now.queue
        → Serves host config.now.routes attempts.old queue
        → Serves host config.now.routes attempts.new records.now.queue }
    ensures runs { attempts.new.runs ≡ attempts.old.runs }
{
    if let Some(number) = received.change {
        attempts.accepted(&config.routes, records, number);
    }
}
