//! What a disk of the box holds, beside the relay that uses it.
use relay_disk::{MemoryDisk, Reboot};
use std::alloc::{AllocFailed, Global};
use std::cell::{Cell, RefCell};
use std::io::{self, Error, ErrorKind};

/// How many more calls on the disks pass before one fails.
pub struct Plan {
    calls: Cell<Option<u64>>,
}

impl Drop for Plan {
    fn drop(self) {
        let Plan { calls: _ } = self;
    }
}

impl Plan {
    /// Returns a plan by which no call fails.
    pub fn new() -> Self {
        Plan {
            calls: Cell::new(None),
        }
    }

    /// Lets this many calls pass, and fails the next one, if there is a number.
    pub fn set(&self, calls: Option<u64>) {
        self.calls.set(calls);
    }

    /// Counts a call, and returns whether it fails.
    pub fn fails(&self) -> bool {
        match self.calls.get() {
            None => false,
            Some(0) => {
                self.calls.set(None);
                true
            }
            Some(calls) => {
                self.calls.set(Some(calls - 1));
                false
            }
        }
    }
}

/// The octets of a disk, which outlive the relay that uses it, and whether a sync of it has failed.
pub struct Store {
    pub memory: RefCell<MemoryDisk>,
    pub sync_failed: Cell<bool>,
}

impl Drop for Store {
    fn drop(self) {
        let Store {
            memory: _memory,
            sync_failed: _,
        } = self;
    }
}

impl Store {
    /// Returns a store without octets.
    pub fn new(alloc: Global) -> Self {
        Store {
            memory: RefCell::new(MemoryDisk::new(alloc)),
            sync_failed: Cell::new(false),
        }
    }

    /// Replaces what is held by what a stop leaves, by this pick. No relay may use it meanwhile.
    pub fn stop(&self, alloc: Global, pick: u64) -> io::Result<()> {
        let Ok(disk) = self.memory.try_replace(MemoryDisk::new(alloc)) else {
            return Err(Error::from(ErrorKind::ResourceBusy));
        };
        let disk = match disk.after_stop(pick) {
            Ok(disk) => disk,
            Err(AllocFailed { value: _value, .. }) => return Err(Error::from(
                ErrorKind::OutOfMemory,
            )),
        };
        let _ = self.memory.try_replace(disk);
        self.sync_failed.set(false);
        Ok(())
    }
}
