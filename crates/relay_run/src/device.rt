//! Disks on which a running relay opens its spool again after a failure.
ghost use Rattle.relay_disk.specs.File.{sync_failed};

use relay_disk::{Disk, DiskFault, FileDisk};

/// A disk on which a spool may be opened again after a call has failed, unless that was a sync.
pub trait Device: Disk {
    ghost use Rattle.std.specs.Prelude.{IsErr};

    // a sync has failed, so written octets may be lost
    ghost has_failed_to_sync: { Self → Type 0 };

    /// Syncs the disk. Fails if a sync has failed before.
    fn sync_again(&mut self) -> Result<(), DiskFault>
        ensures { has_failed_to_sync self.old → IsErr result };
}

impl Device for FileDisk {
    ghost use Rattle.std.specs.Prelude.{IsTrue};

    ghost has_failed_to_sync = { λ disk. IsTrue (sync_failed disk) };

    fn sync_again(&mut self) -> Result<(), DiskFault> {
        self.sync()
    }
}
