// Two disks that are stopped together.
ghost use Rattle.std.specs.Prelude.{◌≡◌, None, Some, IfOk, MatchResult};
ghost use Rattle.relay_disk.specs.Device.{OnlyFuseChanges};
ghost use Rattle.relay_disk.specs.Disks.{AddsNoImage, FailsNot, ImagesWithin, IsSettled, IsTurned, LosesFuseOrNot};
ghost use Rattle.relay_disk.specs.Disks.{calls_left_of, may_leave_of, seen_of};

use crate::{Disk, Reboot};
use std::alloc::AllocFailed;
use std::mem;

/// One of two disks.
#[derive(Clone, Copy, Debug, Drop)]
pub enum Side {
    First,
    Second,
}

impl Side {
    ghost use Rattle.relay_disk.specs.Disks.{turned};

    /// Returns the other side.
    pub fn turned(self) -> Side
        ensures { result ≡ turned self }
    {
        match self {
            Side::First => Side::Second,
            Side::Second => Side::First,
        }
    }
}

/// Two disks of one spool. An image of them is a pair, one of each.
#[derive(Debug, Drop)]
pub struct Disks<D> {
    pub first: D,
    pub second: D,
}

impl<D: Disk> Disks<D> {
    /// Brings the disk of this side to the front, and the other after it; done twice, it changes nothing. The fuse
    /// stays in front: so it counts the calls of either disk while that is there.
    pub fn turn(&mut self, side: Side)
        ensures { IsTurned D.honest D.words side self.old self.new }
    {
        match side {
            Side::First => {}
            Side::Second => {
                mem::swap(&mut self.first, &mut self.second);
                self.first.swap_fuse(&mut self.second);
            }
        }
    }
}

impl<D: Reboot> Disks<D> {
    /// Sets the fuse of the first disk, which counts the calls of both where each is brought to the front for its own:
    /// this many pass, and each later one fails.
    pub fn fuse(&mut self, calls: u64)
        ensures fuse { calls_left_of D.Disk.words self.new ≡ Some calls }
        ensures first { OnlyFuseChanges D.Disk.honest D.Disk.words self.old.first self.new.first }
        ensures second { self.new.second ≡ self.old.second }
        ensures seen { D.Disk.honest → seen_of D.Disk.words self.new ≡ seen_of D.Disk.words self.old }
        ensures stop { D.Disk.honest → AddsNoImage D.Disk.words self.old self.new }
        ensures failures { FailsNot D.Disk.words self.old self.new }
    {
        self.first.fuse(calls);
    }

    /// Returns the disks after a stop at this time, without fuses: of each the image that `pick` chooses among those
    /// that a stop may leave. If memory runs out, both come back; the first may be stopped then, and else it has the
    /// fuse that it had.
    pub fn after_stop(self, pick: u64) -> Result<Self, AllocFailed<Self>>
        ensures left { D.Disk.honest → IfOk result
            (λ disks. may_leave_of D.Disk.words self (seen_of D.Disk.words disks)) }
        ensures settled { D.Disk.honest → IfOk result (IsSettled D.Disk.words) }
        ensures within { D.Disk.honest → MatchResult result
            (λ disks. ImagesWithin D.Disk.words self disks)
            (λ refused. ImagesWithin D.Disk.words self refused.value) }
        ensures fuse { MatchResult result (λ disks. calls_left_of D.Disk.words disks ≡ None)
            (λ refused. LosesFuseOrNot D.Disk.words self refused.value) }
        ensures failures { IfOk result (FailsNot D.Disk.words self) }
    {
        let Disks { first, second } = self;
        match first.after_stop(pick) {
            Err(refused) => Err(AllocFailed {
                value: Disks {
                    first: refused.value,
                    second,
                },
            }),
            Ok(first) => match second.after_stop(pick) {
                Ok(second) => Ok(Disks { first, second }),
                Err(refused) => Err(AllocFailed {
                    value: Disks {
                        first,
                        second: refused.value,
                    },
                }),
            },
        }
    }
}
