//! The ballast file of the box: it has zeros, and as much room as the script says.
use relay_disk::{Disk, DiskFault};
use relay_run::Ballast;
use std::cell::Cell;
use std::io;
use std::rc::Rc;

/// A file of zeros. A write fails that passes the room.
pub struct BoxBallast {
    pub size: usize,
    /// How many octets there is room for.
    pub room: Rc<Cell<usize>>,
    pub failures: u64,
}

// Written out, so that the proof of a caller that drops it stops at this function.
impl Drop for BoxBallast {
    fn drop(self) {
        let BoxBallast {
            size: _,
            room: _room,
            failures: _,
        } = self;
    }
}

impl BoxBallast {
    /// Returns an empty file with this room.
    pub fn new(room: Rc<Cell<usize>>) -> Self {
        BoxBallast {
            size: 0,
            room,
            failures: 0,
        }
    }
}

impl Disk for BoxBallast {
    ghost use Rattle.relay_box_tests.specs.Words.{box_ballast_words};

    ghost honest = { ⊥ };

    ghost words = { box_ballast_words };

    ghost sees_now = { λ honest. absurd honest };

    ghost counts_now = { λ honest. absurd honest };

    ghost only_now = { λ honest. absurd honest };

    fn failures(&self) -> u64 {
        self.failures
    }

    fn size(&mut self) -> Result<usize, DiskFault> {
        Ok(self.size)
    }

    fn read(&mut self, _place: usize, into: &mut [u8]) -> Result<(), DiskFault> {
        into.fill(0);
        Ok(())
    }

    fn write_at(&mut self, place: usize, octets: &[u8]) -> Result<(), DiskFault> {
        let end = place.saturating_add(octets.len());
        if self.room.get() < end {
            self.failures = self.failures.saturating_add(1);
            return Err(DiskFault::Device);
        }
        self.size = self.size.max(end);
        Ok(())
    }

    fn cut(&mut self, size: usize) -> Result<(), DiskFault> {
        self.size = self.size.min(size);
        Ok(())
    }

    fn sync(&mut self) -> Result<(), DiskFault> {
        Ok(())
    }

    fn swap_fuse(&mut self, other: &mut Self) {
        let _ = other;
    }
}

impl Ballast for BoxBallast {
    fn reason(&mut self, _size: usize) -> Option<io::Error> {
        None
    }
}
