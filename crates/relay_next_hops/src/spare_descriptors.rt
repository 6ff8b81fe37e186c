//! Spare file descriptors for attempts, so that clients can't take all there are.
ghost use Rattle.std.specs.Prelude.{◌≡◌, ◌-◌, ◌↔◌, ◌≤◌, ◌<◌, IfOk, IsTrue};
ghost use Rattle.relay_next_hops.specs.SpareDescriptors.{held_of};
ghost use Rattle.relay_next_hops.specs.declared.spare_descriptors.TheConstants.{SPARE_COUNT};

use std::alloc::{AllocError, Global};
use std::fs::File;

/// How many spare descriptors are kept.
pub(crate) const SPARE_COUNT: usize = 4;

/// Duplicates of an open file, each of which keeps a descriptor: four, if the system has them.
pub struct SpareDescriptors {
    file: File,
    copies: Vec<File>,
}

// Written out, so that the proof of a caller that drops them stops at this function.
impl Drop for SpareDescriptors {
    fn drop(self) {
        let SpareDescriptors {
            file: _file,
            copies: _copies,
        } = self;
    }
}

impl SpareDescriptors {
    /// Returns no descriptors yet; they will be duplicates of this file. Fails if memory runs out.
    pub fn new(alloc: Global, file: File) -> Result<Self, AllocError>
        ensures { IfOk result (λ spares. held_of spares ≡ 0) }
    {
        Ok(SpareDescriptors {
            file,
            copies: Vec::with_capacity(alloc, SPARE_COUNT)?,
        })
    }

    /// Takes descriptors until all four are kept, and returns whether they are: only then may a client be accepted.
    pub(crate) fn fill(&mut self) -> bool
        ensures { IsTrue result ↔ (SPARE_COUNT ≤ held_of self.new) }
    {
        for _ in self.copies.len()..SPARE_COUNT {
            match self.file.try_clone() {
                Ok(copy) => {
                    let _ = self.copies.push(copy);
                }
                Err(_) => break,
            }
        }
        SPARE_COUNT <= self.copies.len()
    }

    /// Gives one up, and returns whether there was one.
    pub(crate) fn give(&mut self) -> bool
        ensures given { IsTrue result ↔ (0 < held_of self.old) }
        ensures fewer { held_of self.new ≡ held_of self.old - 1 }
    {
        self.copies.pop().is_some()
    }
}
