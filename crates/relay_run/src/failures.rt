//! Which file of a spool has failed.
use relay_disk::{Disk, Disks, Side};

/// How many calls on each file of a spool had failed at some time.
#[derive(Clone, Copy)]
pub(crate) struct Failures {
    first: u64,
    second: u64,
}

impl Failures {
    /// Returns a count of no failures.
    pub(crate) fn none() -> Self {
        Failures {
            first: 0,
            second: 0,
        }
    }

    /// Returns how many calls have failed on these files.
    pub(crate) fn of<D: Disk>(disks: &Disks<D>) -> Self {
        Failures {
            first: disks.first.failures(),
            second: disks.second.failures(),
        }
    }

    /// Returns the file on which a call has failed since then, if any.
    pub(crate) fn side<D: Disk>(&self, disks: &Disks<D>) -> Option<Side> {
        let now = Failures::of(disks);
        if self.first != now.first {
            Some(Side::First)
        } else if self.second != now.second {
            Some(Side::Second)
        } else {
            None
        }
    }
}
