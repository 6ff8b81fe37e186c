// The disk that isn't taken, made shorter a turn at a time.
ghost use Rattle.std.specs.Prelude.{◌≡◌, ◌≢◌, List, None, Ok, Some, IfOk, OnErr, OnOk, IsTrue, ℕ, slice_index};
ghost use Rattle.relay_disk.specs.Device.{CountsFailure as CountsDiskFailure, IsSettled};
ghost use Rattle.relay_disk.specs.Disks.{CountsFailure, mine, other};
ghost use Rattle.relay_spool.specs.declared.taken.HeadGate.TheVariants.{Closed};
ghost use Rattle.relay_spool.specs.Head.{HasHeadGate, IsClosedOr, IsGateOf};
ghost use Rattle.relay_spool.specs.Pair.{HasBodies};
ghost use Rattle.relay_spool.specs.Run.{AtEachMoment as AtEachDiskMoment, Makes as DiskMakes};
ghost use Rattle.relay_spool.specs.Spool.{AtEachMoment, Makes, Rests};
ghost use Rattle.relay_spool.specs.Trim.{Trims, trim_calls, trimmed, trimmed_taken};

use crate::Spool;
use crate::head::GENERATION;
use crate::renewal::close_head;
use crate::taken::{HeadGate, Taken};
use relay_disk::{Disk, DiskFault, Disks};

impl<D: Disk> Spool<D> {
    ghost use Rattle.std.specs.Prelude.{false};
    ghost use Rattle.relay_spool.specs.Trim.{FailsToTrim, IsTrimmed};

    /// Makes the disk that isn't taken shorter, so that the next compaction has fewer octets to drop, and returns
    /// whether there may be more to drop. One call closes the head of that disk where it is open, by two calls of the
    /// device; each later one drops `most` octets of it, or all but the head gate if there are fewer, by three. A disk
    /// without a head gate is unchanged. The bodies stay the same, whatever is answered, and every stop leaves just
    /// these; at a fault the spool is spent. Allocates nothing.
    pub fn trim(&mut self, most: usize) -> Result<bool, DiskFault>
        requires { IsTrue self.old.live }
        ensures trimmed { IfOk result (IsTrimmed D.honest D.words most self.old self.new) }
        ensures none { self.old.taken.other ≡ None → (result ≡ Ok false) × (self.new ≡ self.old) }
        ensures stop { D.honest → AtEachMoment D.words self.old.disk self.new.disk
            (HasBodies (λ bodies. bodies ≡ self.old.bodies)) }
        ensures failed { OnErr result (FailsToTrim D.words self.old self.new) }
        ensures calls { Makes D.words (trim_calls self.old.taken.other) self.old.disk self.new.disk result }
    {
        let Some(gate) = self.taken.other else {
            return Ok(false);
        };
        self.live = false;
        let has_more = trim_other(&mut self.disk, self.taken, gate, most)?;
        self.taken.other = Some(HeadGate::Closed);
        self.live = true;
        Ok(has_more)
    }
}

/// Makes the disk shorter that isn't taken, and returns whether there may be more to drop. The disk that is taken is
/// unchanged.
fn trim_other<D: Disk>(
    disks: &mut Disks<D>,
    taken: Taken,
    gate: HeadGate,
    most: usize,
) -> Result<bool, DiskFault>
    requires { D.honest → IsGateOf (D.words.seen (other taken.side disks.old)) (Some gate) }
    ensures trimmed { D.honest → IfOk result (Trims most gate
        (D.words.seen (other taken.side disks.old)) (D.words.seen (other taken.side disks.new))) }
    ensures mine { D.honest → D.words.seen (mine taken.side disks.new) ≡ D.words.seen (mine taken.side disks.old) }
    ensures rests { D.honest → (bodies : List (List ℕ)) → Rests D.words disks.old taken bodies
        → taken.other ≡ Some gate → OnOk result (Rests D.words disks.new (trimmed_taken taken) bodies) }
    ensures stop { D.honest → (bodies : List (List ℕ)) → Rests D.words disks.old taken bodies
        → AtEachMoment D.words disks.old disks.new (HasBodies (λ found. found ≡ bodies)) }
    ensures failures { CountsFailure D.words disks.old disks.new result }
    ensures calls { Makes D.words (trim_calls (Some gate)) disks.old disks.new result }
{
    let side = taken.side.turned();
    disks.turn(side);
    let answer = shorten(&mut disks.first, gate, most);
    disks.turn(side);
    answer
}

/// Makes a disk shorter that has a head gate, and returns whether there may be more to drop: an open one is closed
/// first.
fn shorten<D: Disk>(disk: &mut D, gate: HeadGate, most: usize) -> Result<bool, DiskFault>
    requires { D.honest → IsGateOf (D.words.seen disk.old) (Some gate) }
    ensures trimmed { D.honest → IfOk result (Trims most gate (D.words.seen disk.old) (D.words.seen disk.new)) }
    ensures closed { D.honest → OnOk result (IsGateOf (D.words.seen disk.new) (Some Closed)) }
    ensures settled { D.honest → OnOk result (IsSettled D.words disk.new) }
    ensures stop { D.honest → IsSettled D.words disk.old → AtEachDiskMoment D.words disk.old disk.new
        (IsClosedOr (D.words.seen disk.old)) }
    ensures failures { CountsDiskFailure D.words disk.old disk.new result }
    ensures calls { DiskMakes D.words (trim_calls (Some gate)) disk.old disk.new result }
{
    match gate {
        HeadGate::Open => {
            close_head(disk)?;
            Ok(true)
        }
        HeadGate::Closed => cut_back(disk, most),
    }
}

/// Cuts this many octets at most after a closed head gate, and returns whether there are more.
fn cut_back<D: Disk>(disk: &mut D, most: usize) -> Result<bool, DiskFault>
    requires { D.honest → HasHeadGate (D.words.seen disk.old) × (slice_index (D.words.seen disk.old) 8 ≢ 1) }
    ensures trimmed { D.honest → IfOk result (Trims most Closed (D.words.seen disk.old) (D.words.seen disk.new)) }
    ensures closed { D.honest → OnOk result (IsGateOf (D.words.seen disk.new) (Some Closed)) }
    ensures settled { D.honest → OnOk result (IsSettled D.words disk.new) }
    ensures stop { D.honest → IsSettled D.words disk.old → AtEachDiskMoment D.words disk.old disk.new
        (IsClosedOr (D.words.seen disk.old)) }
    ensures failures { CountsDiskFailure D.words disk.old disk.new result }
    ensures calls { DiskMakes D.words 3 disk.old disk.new result }
{
    let size = disk.size()?;
    // A file that something else has made shorter isn't made longer by this.
    let left = size.saturating_sub(most).max(GENERATION).min(size);
    disk.cut(left)?;
    disk.sync()?;
    Ok(GENERATION < left)
}
