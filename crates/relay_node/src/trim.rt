//! The disk of a node's spool that isn't taken, made shorter a turn at a time.
ghost use Rattle.std.specs.Prelude.{◌≡◌, List, None, Err, IfErr, IfOk, OnOk, false, true};
ghost use Rattle.relay_book.specs.declared.change.Change.{Change};
ghost use Rattle.relay_book.specs.StandsFor.{StandsFor};
ghost use Rattle.relay_spool.specs.Pair.{HasBodies};
ghost use Rattle.relay_spool.specs.Spool.{AtEachMoment, Makes};
ghost use Rattle.relay_spool.specs.Trim.{IsTrimmed, trim_calls};
ghost use Rattle.relay_records.specs.Records.{Halted, IsStopped, Keeps};

use crate::node::Node;
use relay_disk::Disk;
use relay_records::NodeFault;

impl<D: Disk> Node<D> {
    /// Makes the disk of the spool that isn't taken shorter, by `most` octets at most, so that the next compaction has
    /// fewer to drop, and returns whether there may be more. One call closes the head of that disk where it is open,
    /// and each later one cuts it; a spool without a second disk is unchanged. No change is added, and the sessions,
    /// the attempts, the note and the configuration stay, whatever is answered. A stopped node answers `Stopped`, and
    /// nothing changes; otherwise it is the answer where the device failed, and a stop leaves the changes as they were.
    /// Allocates nothing.
    pub fn trim(&mut self, most: usize) -> Result<bool, NodeFault>
        ensures kept { (changes : List Change) → Keeps D.honest D.words self.old.records changes
            → OnOk result (Keeps D.honest D.words self.new.records changes) }
        ensures cut { (changes : List Change) → Keeps D.honest D.words self.old.records changes
            → result ≡ Err NodeFault.Stopped → Halted D.honest D.words self.new.records changes None }
        // A stop at any time of the call leaves the changes as they were.
        ensures stop { (changes : List Change) → Keeps D.honest D.words self.old.records changes → D.honest
            → AtEachMoment D.words self.old.records.spool.disk self.new.records.spool.disk
            (HasBodies (λ bodies. StandsFor bodies changes)) }
        ensures trimmed { IfOk result
            (IsTrimmed D.honest D.words most self.old.records.spool self.new.records.spool) }
        ensures rest { (self.new.config ≡ self.old.config) × (self.new.seats ≡ self.old.seats)
            × (self.new.attempts ≡ self.old.attempts)
            × (self.new.records.queue ≡ self.old.records.queue)
            × (self.new.records.noted ≡ self.old.records.noted) }
        ensures stopped { self.old.records.spool.live ≡ false
            → (result ≡ Err NodeFault.Stopped) × (self.new ≡ self.old) }
        ensures refused { self.old.records.spool.live ≡ true → IfErr result (λ fault.
            (fault ≡ NodeFault.Stopped) × IsStopped D.words (trim_calls self.old.records.spool.taken.other)
            self.old.records self.new.records) }
        ensures calls { self.old.records.spool.live ≡ true
            → Makes D.words (trim_calls self.old.records.spool.taken.other)
            self.old.records.spool.disk self.new.records.spool.disk result }
    {
        if !self.records.is_live() {
            return Err(NodeFault::Stopped);
        }
        self.records.trim(most)
    }
}
