//! A disk of the box: it fails when the script says so.
ghost use Rattle.std.specs.Prelude.{◌≡◌, OnErr, OnOk};
ghost use Rattle.std.specs.Result.{result_ok};
ghost use Rattle.relay_disk.specs.Device.{Rises};

use crate::store::{Plan, Store};
use relay_disk::{Disk, DiskFault, Reboot};
use relay_run::Device;
use std::rc::Rc;

/// A disk over a store. A call that the plan fails does what a write that a stop interrupts may do, or nothing.
pub struct BoxDisk {
    pub store: Rc<Store>,
    pub plan: Rc<Plan>,
    pub failures: u64,
}

// Written out, so that the proof of a caller that drops it stops at this function.
impl Drop for BoxDisk {
    fn drop(self) {
        let BoxDisk {
            store: _store,
            plan: _plan,
            failures: _,
        } = self;
    }
}

impl BoxDisk {
    /// Returns a disk over this store, of which no call has failed.
    pub fn new(store: Rc<Store>, plan: Rc<Plan>) -> Self {
        BoxDisk {
            store,
            plan,
            failures: 0,
        }
    }

    /// Returns the answer of a call, and counts a failure.
    fn counted<T>(&mut self, answer: Result<T, DiskFault>) -> Result<T, DiskFault>
        ensures value { result_ok result ≡ result_ok answer }
        ensures ok { OnOk result (self.new.failures ≡ self.old.failures) }
        ensures fault { OnErr result (Rises self.old.failures self.new.failures) }
    {
        if answer.is_err() {
            self.failures = self.failures.saturating_add(1);
        }
        answer
    }
}

/// Returns how many octets a store has.
fn size_of(store: &Store, fails: bool) -> Result<usize, DiskFault> {
    match store.memory.try_borrow() {
        Ok(memory) if !fails => Ok(memory.image().len()),
        _ => Err(DiskFault::Device),
    }
}

/// Reads octets of a store from a place on.
fn read_from(store: &Store, fails: bool, place: usize, into: &mut [u8]) -> Result<(), DiskFault> {
    match store.memory.try_borrow() {
        Ok(memory) if !fails => copy_from(memory.image(), place, into),
        _ => Err(DiskFault::Device),
    }
}

/// Copies octets of an image from a place on. Fails if there are fewer.
fn copy_from(image: &[u8], place: usize, into: &mut [u8]) -> Result<(), DiskFault> {
    let rest = image.get(place..).unwrap_or(&[]);
    match rest.get(..into.len()) {
        Some(found) => {
            into.copy_from_slice(found);
            Ok(())
        }
        None => Err(DiskFault::Device),
    }
}

/// Writes octets to a store from a place on.
fn write_to(store: &Store, fails: bool, place: usize, octets: &[u8]) -> Result<(), DiskFault> {
    let Ok(mut memory) = store.memory.try_borrow_mut() else {
        return Err(DiskFault::Device);
    };
    memory.fuse(if fails { 0 } else { u64::MAX });
    if memory.image().len() < place {
        return Err(DiskFault::Device);
    }
    memory.write_at(place, octets)
}

/// Drops the octets of a store from a place on.
fn cut_at(store: &Store, fails: bool, size: usize) -> Result<(), DiskFault> {
    let Ok(mut memory) = store.memory.try_borrow_mut() else {
        return Err(DiskFault::Device);
    };
    memory.fuse(if fails { 0 } else { u64::MAX });
    if memory.image().len() < size {
        return Err(DiskFault::Device);
    }
    memory.cut(size)
}

/// Syncs a store. After a failed sync each later one fails, as with a file.
fn sync_of(store: &Store, fails: bool) -> Result<(), DiskFault> {
    let Ok(mut memory) = store.memory.try_borrow_mut() else {
        return Err(DiskFault::Device);
    };
    if fails {
        store.sync_failed.set(true);
    }
    if store.sync_failed.get() {
        return Err(DiskFault::Device);
    }
    memory.fuse(u64::MAX);
    memory.sync()
}

impl Disk for BoxDisk {
    ghost use Rattle.relay_box_tests.specs.Words.{box_disk_words};

    ghost honest = { ⊥ };

    ghost words = { box_disk_words };

    ghost sees_now = { λ honest. absurd honest };

    ghost counts_now = { λ honest. absurd honest };

    ghost only_now = { λ honest. absurd honest };

    fn failures(&self) -> u64 {
        self.failures
    }

    fn size(&mut self) -> Result<usize, DiskFault> {
        let answer = size_of(&self.store, self.plan.fails());
        self.counted(answer)
    }

    fn read(&mut self, place: usize, into: &mut [u8]) -> Result<(), DiskFault> {
        let answer = read_from(&self.store, self.plan.fails(), place, into);
        self.counted(answer)
    }

    fn write_at(&mut self, place: usize, octets: &[u8]) -> Result<(), DiskFault> {
        let answer = write_to(&self.store, self.plan.fails(), place, octets);
        self.counted(answer)
    }

    fn cut(&mut self, size: usize) -> Result<(), DiskFault> {
        let answer = cut_at(&self.store, self.plan.fails(), size);
        self.counted(answer)
    }

    fn sync(&mut self) -> Result<(), DiskFault> {
        let answer = sync_of(&self.store, self.plan.fails());
        self.counted(answer)
    }

    fn swap_fuse(&mut self, other: &mut Self) {
        let _ = other;
    }
}

impl Device for BoxDisk {
    // The octets of a store that failed to sync are there until a stop, which contracts don't say.
    ghost has_failed_to_sync = { λ _. ⊥ };

    fn sync_again(&mut self) -> Result<(), DiskFault> {
        self.sync()
    }
}
