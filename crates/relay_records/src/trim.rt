//! The disk of a spool that isn't taken, made shorter a turn at a time.
ghost use Rattle.std.specs.Prelude.{◌≡◌, List, None, Err, IfErr, IfOk, IsTrue, OnOk};
ghost use Rattle.relay_spool.specs.Pair.{HasBodies};
ghost use Rattle.relay_spool.specs.Spool.{AtEachMoment, Makes};
ghost use Rattle.relay_spool.specs.Trim.{IsTrimmed, trim_calls};
ghost use Rattle.relay_book.specs.declared.change.Change.{Change};
ghost use Rattle.relay_book.specs.StandsFor.{StandsFor};
ghost use Rattle.relay_records.specs.Records.{Halted, IsStopped, Keeps};

use crate::fault::NodeFault;
use crate::records::Records;
use relay_disk::{Disk, DiskFault};

impl<D: Disk> Records<D> {
    /// Makes the disk of the spool that isn't taken shorter, by `most` octets at most, and returns whether there may be
    /// more to drop: as [`Spool::trim`](relay_spool::Spool::trim). The changes are unchanged, and so do the queue and
    /// the note, whatever is answered. The one fault is `Stopped`: the device failed, and a stop leaves the changes as
    /// they were. Allocates nothing.
    pub fn trim(&mut self, most: usize) -> Result<bool, NodeFault>
        requires { IsTrue self.old.spool.live }
        ensures kept { (changes : List Change) → Keeps D.honest D.words self.old changes
            → OnOk result (Keeps D.honest D.words self.new changes) }
        ensures cut { (changes : List Change) → Keeps D.honest D.words self.old changes
            → result ≡ Err NodeFault.Stopped → Halted D.honest D.words self.new changes None }
        // A stop at any time of the call leaves the changes as they were.
        ensures stop { (changes : List Change) → Keeps D.honest D.words self.old changes → D.honest
            → AtEachMoment D.words self.old.spool.disk self.new.spool.disk
            (HasBodies (λ bodies. StandsFor bodies changes)) }
        ensures trimmed { IfOk result (IsTrimmed D.honest D.words most self.old.spool self.new.spool) }
        ensures same { (self.new.queue ≡ self.old.queue) × (self.new.noted ≡ self.old.noted) }
        ensures refused { IfErr result (λ fault.
            (fault ≡ NodeFault.Stopped)
            × IsStopped D.words (trim_calls self.old.spool.taken.other) self.old self.new) }
        ensures calls { Makes D.words (trim_calls self.old.spool.taken.other)
            self.old.spool.disk self.new.spool.disk result }
    {
        match self.spool.trim(most) {
            Ok(has_more) => Ok(has_more),
            Err(DiskFault::Device) => Err(NodeFault::Stopped),
        }
    }
}
