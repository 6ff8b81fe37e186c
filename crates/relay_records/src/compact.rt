//! Compaction: the snapshot of the queue in place of all bodies.
ghost use Rattle.std.specs.Prelude.{◌≡◌, ◌≢◌, ◌⊎◌, ◌↔◌, ◌+◌, ◌-◌, ◌^◌, min, List, None, Err, length, IfErr, OnOk};
ghost use Rattle.std.specs.Prelude.{IsTrue};
ghost use Rattle.relay_spool.specs.Pair.{HasBodies, IsTooMuch};
ghost use Rattle.relay_spool.specs.Spool.{AtEachMoment};
ghost use Rattle.relay_book.specs.declared.change.Change.{Change};
ghost use Rattle.relay_book.specs.Snapshot.{snapshot};
ghost use Rattle.relay_book.specs.StandsFor.{StandsFor};
ghost use Rattle.relay_records.specs.Records.{Compacts, Halted, Keeps, RefusesToCompact};

use crate::fault::NodeFault;
use crate::records::Records;
use relay_disk::Disk;
use relay_spool::{RENEWAL_OVERHEAD, SpoolFault};
use std::alloc::Global;

/// The octets of a spool around its one body: its head, and the body's gates and length.
const AROUND_ONE_BODY: usize = 23;

impl<D: Disk> Records<D> {
    /// Returns how many octets the spool takes once it is compacted as it stands. Allocates nothing, and 2^64 - 1
    /// octets stand for as many and more.
    pub fn compacted_size(&self) -> usize
        ensures { result ≡ min (23 + length (snapshot self.now.queue)) (2 ^ 64 - 1) }
    {
        self.is_queue();
        self.book.snapshot_length().saturating_add(AROUND_ONE_BODY)
    }

    /// Puts the snapshot of the queue in place of all bodies. The changes are unchanged, and so does the note, whatever
    /// is answered. `NoSecond`, `Full` and `NoMemory` change nothing, and are searched for in this order. At `Stopped`
    /// the device failed: a stop leaves the changes as they were. It needs memory for one copy of the snapshot.
    pub fn compact(&mut self, alloc: Global) -> Result<(), NodeFault>
        requires { IsTrue self.old.spool.live }
        ensures kept { (changes : List Change) → Keeps D.honest D.words self.old changes
            → OnOk result (Keeps D.honest D.words self.new changes) }
        ensures cut { (changes : List Change) → Keeps D.honest D.words self.old changes
            → result ≡ Err NodeFault.Stopped → Halted D.honest D.words self.new changes None }
        // A stop at any time of the call leaves the changes as they were.
        ensures stop { (changes : List Change) → Keeps D.honest D.words self.old changes → D.honest
            → AtEachMoment D.words self.old.spool.disk self.new.spool.disk
            (HasBodies (λ bodies. StandsFor bodies changes)) }
        ensures compacts { OnOk result (Compacts D.honest D.words self.old self.new) }
        ensures same { (self.new.queue ≡ self.old.queue) × (self.new.noted ≡ self.old.noted) }
        ensures refused { IfErr result (RefusesToCompact D.words self.old self.new) }
        ensures no_second { (result ≡ Err NodeFault.NoSecond) ↔ (self.old.spool.taken.other ≡ None) }
        ensures full { (result ≡ Err NodeFault.Full) ↔ ((self.old.spool.taken.other ≢ None)
            × IsTooMuch self.old.spool.taken (length (snapshot self.old.queue))) }
    {
        match self.spool.may_compact(self.book.snapshot_length()) {
            Ok(()) => {}
            Err(SpoolFault::NoSecond) => return Err(NodeFault::NoSecond),
            Err(_) => return Err(NodeFault::Full),
        }
        let octets = self.book.encode_snapshot(alloc, RENEWAL_OVERHEAD)?;
        match self.spool.compact(octets) {
            Ok(()) => Ok(()),
            Err(SpoolFault::Device) => Err(NodeFault::Stopped),
            Err(_) => Err(NodeFault::NoMemory),
        }
    }
}
