// A disk as a spool sees it: the octets that a read gives, and those that a stop at any time may leave.
ghost use Rattle.std.specs.Prelude.{◌≡◌, ◌+◌, ◌≤◌, ℕ, List, length, take, drop, None, Some, IfOk, OnOk, OnErr};
ghost use Rattle.std.specs.Prelude.{MatchResult};
ghost use Rattle.std.specs.Result.{result_ok};
ghost use Rattle.relay_disk.specs.Device.{DiskWords, written, Writes, Cuts, IsSettled, Steps, AddsNoImage};
ghost use Rattle.relay_disk.specs.Device.{ImagesWithin, FailsNot, CountsFailure, Burns, OnlyFuseChanges, Rises};

use std::alloc::AllocFailed;
use thiserror::Error;

/// Why a call of a disk failed.
#[derive(Clone, Copy, Debug, PartialEq, Eq, Error)]
pub enum DiskFault {
    /// The device failed, and the disk has counted it. What the call was to do may be done, or not,
    /// or in part.
    #[error("device")]
    Device,
}

/// Returns what a device answered, with a failure counted where it is an error.
pub(crate) fn counted<T, E: Drop>(failures: &mut u64, answer: Result<T, E>) -> Result<T, DiskFault>
    ensures value { result_ok result ≡ result_ok answer }
    ensures ok { OnOk result (failures.new ≡ failures.old) }
    ensures fault { OnErr result (Rises failures.old failures.new) }
{
    match answer {
        Ok(value) => Ok(value),
        Err(_) => {
            *failures = failures.saturating_add(1);
            Err(DiskFault::Device)
        }
    }
}

/// A row of octets that outlives a stop. Places and sizes are in octets, from 0.
///
/// Between two syncs a stop leaves each range that a write was given, and what lies past the old
/// end, with any octets; a cut has happened, or not, or in part; the other octets stay. After a
/// sync that succeeds it leaves what a read gives. This is promised of a disk that says it is
/// honest, and of no other.
pub trait Disk {
    /// The promises on octets hold: `Unit` for a type that says so, `⊥` for one that doesn't.
    ghost honest: { Type 0 };

    /// What the clauses say of a disk: what a read gives, what a stop may leave, which calls have failed.
    ghost words: { DiskWords Self };

    /// Returns how many calls have failed, up to 2^64 - 1.
    fn failures(&self) -> u64
        ensures { result ≡ words.failed self.now };

    /// Returns how many octets a read gives.
    fn size(&mut self) -> Result<usize, DiskFault>
        ensures size { honest → IfOk result (λ size. size ≡ length (words.seen self.old)) }
        ensures seen { honest → words.seen self.new ≡ words.seen self.old }
        ensures stop { honest → AddsNoImage words self.old self.new }
        ensures failures { CountsFailure words self.old self.new result }
        ensures fuse { Burns words self.old self.new result };

    /// Fills `into` with the octets from `place` on. At a fault it may hold any octets.
    fn read(&mut self, place: usize, into: &mut [u8]) -> Result<(), DiskFault>
        requires { honest → place + length into.old ≤ length (words.seen self.old) }
        ensures read { honest → OnOk result
            (into.new ≡ take (length into.old) (drop place (words.seen self.old))) }
        ensures seen { honest → words.seen self.new ≡ words.seen self.old }
        ensures stop { honest → AddsNoImage words self.old self.new }
        ensures failures { CountsFailure words self.old self.new result }
        ensures fuse { Burns words self.old self.new result };

    /// Overwrites the octets from `place` on, and extends the disk if needed. A failed write may have changed its
    /// range, like one that a stop interrupts.
    fn write_at(&mut self, place: usize, octets: &[u8]) -> Result<(), DiskFault>
        requires { honest → place ≤ length (words.seen self.old) }
        ensures ok { honest → OnOk result
            (words.seen self.new ≡ written (words.seen self.old) place octets.now) }
        ensures fault { honest → OnErr result
            (Writes place (length octets.now) (words.seen self.old) (words.seen self.new)) }
        ensures stop { honest → Steps words (Writes place (length octets.now))
            self.old self.new }
        ensures failures { CountsFailure words self.old self.new result }
        ensures fuse { Burns words self.old self.new result };

    /// Drops the octets from `size` on. A cut that failed may have happened, or not, or in part.
    fn cut(&mut self, size: usize) -> Result<(), DiskFault>
        requires { honest → size ≤ length (words.seen self.old) }
        ensures ok { honest → OnOk result (words.seen self.new ≡ take size (words.seen self.old)) }
        ensures fault { honest → OnErr result
            (Cuts size (words.seen self.old) (words.seen self.new)) }
        ensures stop { honest → Steps words (Cuts size) self.old self.new }
        ensures failures { CountsFailure words self.old self.new result }
        ensures fuse { Burns words self.old self.new result };

    /// After it, a stop leaves what a read gives.
    fn sync(&mut self) -> Result<(), DiskFault>
        ensures ok { honest → OnOk result (IsSettled words self.new) }
        ensures seen { honest → words.seen self.new ≡ words.seen self.old }
        ensures stop { honest → AddsNoImage words self.old self.new }
        ensures failures { CountsFailure words self.old self.new result }
        ensures fuse { Burns words self.old self.new result };

    /// Exchanges the fuses of two disks, and changes nothing else. It is no call of the device: no fuse counts it, and
    /// no time goes by. Allocates nothing.
    fn swap_fuse(&mut self, other: &mut Self)
        ensures fuse { words.calls_left self.new ≡ words.calls_left other.old }
        ensures other_fuse { words.calls_left other.new ≡ words.calls_left self.old }
        ensures same { OnlyFuseChanges honest words self.old self.new }
        ensures other_same { OnlyFuseChanges honest words other.old other.new };

    /// A stop of the program alone leaves what a read gives, so that is one of the images.
    ghost sees_now: { honest → (disk : Self) → words.may_leave disk (words.seen disk) };

    /// This time is one of those since an earlier one.
    ghost counts_now: { honest → (disk : Self) (since : ℕ) (image : List ℕ)
        → since ≤ words.moment disk → words.may_leave disk image
        → words.left_since disk since image };

    /// Since this time there is no other.
    ghost only_now: { honest → (disk : Self) (image : List ℕ)
        → words.left_since disk (words.moment disk) image → words.may_leave disk image };
}

/// A disk that can be stopped at a chosen call and opened again, for tests and for runs that span a stop.
pub trait Reboot: Disk {
    /// Lets that many calls of `size`, `read`, `write_at`, `cut` and `sync` pass. Each later one fails.
    fn fuse(&mut self, calls: u64)
        ensures fuse { Self.Disk.words.calls_left self.new ≡ Some calls }
        ensures same { OnlyFuseChanges Self.Disk.honest Self.Disk.words self.old self.new };

    /// Returns the disk after a stop at this time, without a fuse. `pick` chooses the image among those that a stop may
    /// leave. If memory runs out, the disk comes back, with the fuse that it had.
    fn after_stop(self, pick: u64) -> Result<Self, AllocFailed<Self>>
        ensures left { Self.Disk.honest → IfOk result
            (λ disk. Self.Disk.words.may_leave self (Self.Disk.words.seen disk)) }
        ensures settled { Self.Disk.honest → IfOk result
            (IsSettled Self.Disk.words) }
        ensures within { Self.Disk.honest → MatchResult result
            (λ disk. ImagesWithin Self.Disk.words self disk)
            (λ refused. ImagesWithin Self.Disk.words self refused.value) }
        ensures fuse { MatchResult result (λ disk. Self.Disk.words.calls_left disk ≡ None)
            (λ refused. Self.Disk.words.calls_left refused.value ≡ Self.Disk.words.calls_left self) }
        ensures failures { IfOk result (FailsNot Self.Disk.words self) };
}
