//! A node whose spool is compacted, as small as what it holds.
ghost use Rattle.std.specs.Prelude.{◌≡◌, ◌+◌, ◌-◌, ◌^◌, length, min, List, None, Err, IfOk, OnOk};
ghost use Rattle.relay_book.specs.declared.change.Change.{Change};
ghost use Rattle.relay_book.specs.Snapshot.{snapshot};
ghost use Rattle.relay_book.specs.StandsFor.{StandsFor};
ghost use Rattle.relay_spool.specs.Pair.{HasBodies};
ghost use Rattle.relay_spool.specs.Spool.{AtEachMoment};
ghost use Rattle.relay_records.specs.Records.{Compacts, Halted, Keeps};
ghost use Rattle.relay_node.specs.Compaction.{RefusesToCompact};

use crate::node::Node;
use relay_disk::Disk;
use relay_records::NodeFault;

impl<D: Disk> Node<D> {
    /// Returns how many octets the spool takes. Allocates nothing.
    pub fn size(&self) -> usize
        ensures { result ≡ self.now.records.spool.size }
    {
        self.records.size()
    }

    /// Returns how many octets the spool takes once it is compacted as it stands. Allocates nothing, and 2^64 - 1
    /// octets stand for as many and more.
    pub fn compacted_size(&self) -> usize
        ensures { result ≡ min (23 + length (snapshot self.now.records.queue)) (2 ^ 64 - 1) }
    {
        self.records.compacted_size()
    }

    /// Compacts the spool, on the other of its two disks, as one record of all that is held: its sizes before and after
    /// that, in octets. No change is added, and the sessions, the attempts, the note and the configuration stay,
    /// whatever is answered. `NoSecond` (the other disk has no head of a spool), `Full` (what is held passes
    /// 4,294,967,295 octets, or no generation is left) and `NoMemory` change nothing, and are searched for in this
    /// order; at `Stopped` a stop leaves the changes as they were. It needs memory for one copy of the record.
    pub fn compact(&mut self) -> Result<(usize, usize), NodeFault>
        ensures kept { (changes : List Change) → Keeps D.honest D.words self.old.records changes
            → OnOk result (Keeps D.honest D.words self.new.records changes) }
        ensures cut { (changes : List Change) → Keeps D.honest D.words self.old.records changes
            → result ≡ Err NodeFault.Stopped → Halted D.honest D.words self.new.records changes None }
        // A stop at any time of the call leaves the changes as they were.
        ensures stop { (changes : List Change) → Keeps D.honest D.words self.old.records changes → D.honest
            → AtEachMoment D.words self.old.records.spool.disk self.new.records.spool.disk
            (HasBodies (λ bodies. StandsFor bodies changes)) }
        ensures compacts { OnOk result (Compacts D.honest D.words self.old.records self.new.records) }
        ensures sizes { IfOk result (λ sizes. (sizes.0 ≡ self.old.records.spool.size)
            × (sizes.1 ≡ self.new.records.spool.size)) }
        ensures rest { (self.new.config ≡ self.old.config) × (self.new.seats ≡ self.old.seats)
            × (self.new.attempts ≡ self.old.attempts)
            × (self.new.records.queue ≡ self.old.records.queue)
            × (self.new.records.noted ≡ self.old.records.noted) }
        ensures refused { RefusesToCompact D.words self.old self.new result }
    {
        if !self.records.is_live() {
            return Err(NodeFault::Stopped);
        }
        let before = self.records.size();
        self.records.compact(self.alloc)?;
        Ok((before, self.records.size()))
    }
}
