//! Compacts the spool when much of it is free: when the relay is idle, or at once if the spool is more than half full,
//! or was full.
ghost use Rattle.std.specs.Prelude.{◌≡◌, ◌≤◌, ◌⊎◌, IfErr, List, MatchResult, None, Ok, OnOk, Some, false, true};
ghost use Rattle.relay_book.specs.declared.change.Change.{Change};
ghost use Rattle.relay_connections.specs.Carried.{Setting};
ghost use Rattle.relay_connections.specs.Readiness.{clients_of};
ghost use Rattle.relay_connections.specs.Served.{AreServed};
ghost use Rattle.relay_records.specs.Records.{Compacts, Halted, Keeps};
ghost use Rattle.relay_run.specs.Tidying.{FailsToCompact, IsCompacted, KeepsRest, MayBeTrimmed, compacted_size_of};

use crate::shell::Shell;
use relay_connections::{Now, Stream};
use relay_disk::Disk;
use relay_files::Fault;
use relay_limits::is_worth_compacting;
use relay_log::Log;
use relay_loop::Relay;
use relay_node::NodeFault;

/// The least number of milliseconds between two compactions.
const PAUSE: u64 = 1_000;

/// While the relay is busy, a spool of which more octets than this would be left isn't compacted, because all
/// connections wait for some 3 ms per MiB of them; unless mail is refused because the spool is full.
const MOST_LEFT: usize = 32 * 1024 * 1024;

/// The most octets of the spool's other file that are dropped in one turn; connections wait for some 1.5 ms per MiB of
/// them.
const MOST_TRIMMED: usize = 4 * 1024 * 1024;

/// How many seconds pass between two log lines about a full spool.
const TELLING_SECONDS: u64 = 60;

/// What has happened to the spool since it was last considered for compaction.
#[derive(Clone, Copy)]
pub(crate) struct Tidying {
    /// Whether something was removed from the queue.
    has_shrunk: bool,
    /// Whether mail was refused because the spool is full.
    was_full: bool,
    /// Whether the other file may have octets to drop before the next compaction.
    has_spare: bool,
    /// The tick before which the spool isn't compacted.
    next: u64,
    /// The tick before which a full spool isn't logged again.
    next_telling: u64,
}

impl Tidying {
    /// Returns the state before any event. The other file may be from before the last compaction.
    pub(crate) fn new() -> Self {
        Tidying {
            has_shrunk: true,
            was_full: false,
            has_spare: true,
            next: 0,
            next_telling: 0,
        }
    }

    /// Notes that an attempt has ended, or a message was given up.
    pub(crate) fn note_shrunk(&mut self) {
        self.has_shrunk = true;
    }

    /// Notes that mail was refused because the spool is full, and logs that once per minute.
    pub(crate) fn note_full(&mut self, now: &Now, log: &mut Log<'_, Vec<u8>>) {
        self.was_full = true;
        if self.next_telling <= now.tick {
            log.spool_full();
            self.next_telling = now.after(TELLING_SECONDS);
        }
    }

    /// Returns whether compaction may be due: the spool was full, or something was removed from the queue, and the
    /// pause is over.
    pub(crate) fn may_be_due(&self, now: &Now) -> bool {
        self.next <= now.tick && (self.was_full || self.has_shrunk)
    }

    /// Returns whether compaction is due: the spool was full, or something was removed from the queue, and the relay is
    /// idle or the spool is more than half full.
    pub(crate) fn is_due<D: Disk>(&self, relay: &Relay<D>, is_quiet: bool, now: &Now) -> bool {
        let node = relay.node();
        self.may_be_due(now)
            && (self.was_full || is_quiet || node.config().spool_limit / 2 < node.size() as u64)
    }

    /// Postpones compaction for a short time, because there is no room for it.
    pub(crate) fn pause(&mut self, now: &Now) {
        self.next = now.tick.saturating_add(PAUSE);
    }

    /// Returns the tick at which compaction may be due, or `otherwise` if that is earlier. While the other file has
    /// octets to drop, that is at once.
    pub(crate) fn next_deadline(&self, otherwise: u64) -> u64
        ensures { result ≤ otherwise }
    {
        if self.has_spare {
            0
        } else if self.was_full || self.has_shrunk {
            otherwise.min(self.next)
        } else {
            otherwise
        }
    }

    /// Compacts the spool to `left` octets, if that is worth it and takes no longer than connections may wait, and
    /// returns whether it did. Leaves the spool unchanged if it has no second file or holds too much, or if memory runs
    /// out. Compaction isn't due again for a second.
    pub(crate) fn tidy<D: Disk>(
        &mut self,
        relay: &mut Relay<D>,
        left: usize,
        is_quiet: bool,
        now: &Now,
        log: &mut Log<'_, Vec<u8>>,
    ) -> Result<bool, Fault>
        requires { left ≡ compacted_size_of relay.old }
        ensures unchanged { result ≡ Ok false → relay.new ≡ relay.old }
        ensures compacted { result ≡ Ok true → IsCompacted D.honest D.words self.old.was_full relay.old relay.new }
        ensures failed { IfErr result (λ fault. (fault ≡ Fault.Device)
            × FailsToCompact self.old.was_full relay.old relay.new) }
        ensures kept { (changes : List Change) → Keeps D.honest D.words relay.old.node.records changes
            → MatchResult result (λ _. Keeps D.honest D.words relay.new.node.records changes)
            (λ _. Halted D.honest D.words relay.new.node.records changes None) }
    {
        let was_full = self.was_full;
        self.has_shrunk = false;
        self.was_full = false;
        self.next = now.tick.saturating_add(PAUSE);
        let node = relay.node();
        let limit = node.config().spool_limit;
        if !is_worth_compacting(node.size(), left, limit, was_full) {
            return Ok(false);
        }
        if MOST_LEFT < left && !is_quiet && !was_full {
            self.has_shrunk = true;
            return Ok(false);
        }
        let is_compacted = compact(relay, log)?;
        self.has_spare = self.has_spare || is_compacted;
        Ok(is_compacted)
    }

    /// Drops some octets of the spool's other file, if it may have any. They are of no use, and the next compaction
    /// would have to drop all of them first.
    pub(crate) fn trim<D: Disk>(&mut self, relay: &mut Relay<D>) -> Result<(), Fault>
        ensures trimmed { OnOk result ((relay.new ≡ relay.old) ⊎ MayBeTrimmed D.honest D.words relay.old relay.new) }
        ensures failed { IfErr result (λ fault. (fault ≡ Fault.Device) × KeepsRest relay.old relay.new) }
        ensures kept { (changes : List Change) → Keeps D.honest D.words relay.old.node.records changes
            → MatchResult result (λ _. Keeps D.honest D.words relay.new.node.records changes)
            (λ _. Halted D.honest D.words relay.new.node.records changes None) }
    {
        if !self.has_spare {
            return Ok(());
        }
        match relay.trim(MOST_TRIMMED) {
            Ok(has_more) => {
                self.has_spare = has_more;
                Ok(())
            }
            Err(_) => Err(Fault::Device),
        }
    }
}

impl<S: Stream + Drop, D: Disk + Drop, F: Disk + Drop> Shell<S, D, F> {
    /// Compacts the spool after a turn, if that is due and worth it, and there is room for it. Clients are served as
    /// before. A fault means that a compaction has failed; its size is known then.
    pub(crate) fn tidy(&mut self, now: &Now, log: &mut Log<'_, Vec<u8>>) -> Result<(), Fault>
        ensures tidies { OnOk result ((self.new.relay ≡ self.old.relay)
            ⊎ IsCompacted D.honest D.words self.old.tidying.was_full self.old.relay self.new.relay) }
        ensures failed { IfErr result (λ fault. (fault ≡ Fault.Device)
            × FailsToCompact self.old.tidying.was_full self.old.relay self.new.relay
            × (self.new.known.compacted ≡ Some (compacted_size_of self.old.relay))) }
        ensures known { (self.new.known.next_number ≡ self.old.known.next_number)
            × (self.new.known.size ≡ self.old.known.size) }
        ensures rest { (self.new.clients ≡ self.old.clients) × (self.new.next_hops ≡ self.old.next_hops)
            × (self.new.leaving ≡ self.old.leaving) × (self.new.acceptor ≡ self.old.acceptor)
            × (self.new.steering ≡ self.old.steering) }
        ensures served { (changes : List Change) (setting : Setting)
            → AreServed D.honest D.words S.remaining S.contents changes setting (clients_of self.old.clients)
            self.old.relay → OnOk result (AreServed D.honest D.words S.remaining S.contents changes setting
            (clients_of self.new.clients) self.new.relay) }
    {
        if !self.tidying.may_be_due(now) {
            return Ok(());
        }
        let is_quiet = !self.is_ready(now);
        if !self.tidying.is_due(&self.relay, is_quiet, now) {
            return Ok(());
        }
        // To compute this takes a walk over the whole queue.
        let node = self.relay.node();
        let left = node.compacted_size();
        if !self.room.has_room_for(left, node.size()) {
            self.tidying.pause(now);
            return Ok(());
        }
        self.known = self.known.compacting(left);
        if self
            .tidying
            .tidy(&mut self.relay, left, is_quiet, now, log)?
        {
            self.room.note_compacted();
        }
        Ok(())
    }

    /// Drops some octets of the spool's other file after a turn, if it may have any. Clients are served as before.
    pub fn trim(&mut self) -> Result<(), Fault>
        ensures trimmed { OnOk result ((self.new.relay ≡ self.old.relay)
            ⊎ MayBeTrimmed D.honest D.words self.old.relay self.new.relay) }
        ensures failed { IfErr result (λ fault. (fault ≡ Fault.Device) × KeepsRest self.old.relay self.new.relay) }
        ensures rest { (self.new.clients ≡ self.old.clients) × (self.new.next_hops ≡ self.old.next_hops)
            × (self.new.leaving ≡ self.old.leaving) × (self.new.acceptor ≡ self.old.acceptor)
            × (self.new.known ≡ self.old.known) × (self.new.steering ≡ self.old.steering) }
        ensures served { (changes : List Change) (setting : Setting)
            → AreServed D.honest D.words S.remaining S.contents changes setting (clients_of self.old.clients)
            self.old.relay → OnOk result (AreServed D.honest D.words S.remaining S.contents changes setting
            (clients_of self.new.clients) self.new.relay) }
    {
        self.tidying.trim(&mut self.relay)
    }
}

/// Compacts the spool of a relay, logs that, and returns whether it did.
fn compact<D: Disk>(relay: &mut Relay<D>, log: &mut Log<'_, Vec<u8>>) -> Result<bool, Fault>
    ensures unchanged { result ≡ Ok false → relay.new ≡ relay.old }
    ensures compacted { result ≡ Ok true → Compacts D.honest D.words relay.old.node.records relay.new.node.records }
    ensures failed { IfErr result (λ fault. fault ≡ Fault.Device) }
    ensures rest { KeepsRest relay.old relay.new }
    ensures kept { (changes : List Change) → Keeps D.honest D.words relay.old.node.records changes
        → MatchResult result (λ _. Keeps D.honest D.words relay.new.node.records changes)
        (λ _. Halted D.honest D.words relay.new.node.records changes None) }
{
    match relay.compact() {
        Ok((before, after)) => {
            log.compacted(before, after);
            Ok(true)
        }
        Err(NodeFault::Stopped) => Err(Fault::Device),
        Err(_) => Ok(false),
    }
}
