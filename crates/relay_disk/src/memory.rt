// A disk in memory. It stores its calls, so that what a stop may leave of it is known at each time.
ghost use Rattle.std.specs.Prelude.{◌≡◌, ◌⊎◌, ◌↔◌, ◌-◌, ◌<◌, ◌≤◌, true, [], ◌∷◌, length, take, reverse, None, Some};
ghost use Rattle.std.specs.Prelude.{IsErr, OnOk, OnErr};
ghost use Rattle.std.specs.Option.{option_map};
ghost use Rattle.std.specs.Vec.{vec_len, vec_capacity};
ghost use Rattle.relay_disk.specs.Device.{written};
ghost use Rattle.relay_disk.specs.MayLeave.{seen_after, are_within};
ghost use Rattle.relay_disk.specs.declared.call.Call.TheVariants.{Write, FailedWrite, Cut, Sync};

use crate::call::{Call, overwrite};
use crate::disk::counted;
use crate::pick::picked;
use crate::{Disk, DiskFault, Reboot};
use std::alloc::{AllocError, AllocFailed, Global};
use std::mem;

/// A disk in memory, and an honest one. A call that fails changes nothing that a read gives, and a disk that
/// can't grow is a device that failed.
///
/// It stores each write, cut and sync for as long as it lives: its memory grows with all that was
/// ever written to it, and not with its size alone. `read` and `write_at` take time by their range,
/// but for growth, which may move all octets. A stop takes time by the octets that were ever
/// written, and by the octets of its image times the calls since the last sync; it drops the stored
/// calls.
pub struct MemoryDisk {
    start: Vec<u8>,
    calls: Vec<Call>,
    image: Vec<u8>,
    failures: u64,
    fuse: Option<u64>,
    ghost replayed: { image.items ≡ seen_after start.items (reverse calls.items) },
    ghost within: { are_within start.items (reverse calls.items) ≡ true },
}

// Written out, so that the proof of a caller that drops a disk stops at this function.
impl Drop for MemoryDisk {
    fn drop(self) {
        let MemoryDisk {
            start: _start,
            calls: _calls,
            image: _image,
            failures: _,
            fuse: _,
        } = self;
    }
}

impl MemoryDisk {
    ghost use Rattle.std.specs.Prelude.{◌≡◌, [], IfOk};
    ghost use Rattle.relay_disk.specs.Device.{Only};
    ghost use Rattle.relay_disk.specs.Memory.{image_of, images_of, failures_of, IsFresh, LeavesByPick};

    /// Makes a disk of size 0, without a fuse.
    pub fn new(alloc: Global) -> Self
        ensures fresh { IsFresh [] result }
        ensures settled { Only [] (images_of result) }
        ensures failures { failures_of result ≡ 0 }
    {
        MemoryDisk::fresh(alloc, Vec::new(alloc), Vec::new(alloc))
    }

    /// Returns a disk that holds these octets, all of them synced, without a fuse.
    pub fn with_image(alloc: Global, image: &[u8]) -> Result<Self, AllocError>
        ensures fresh { IfOk result (IsFresh image.now) }
        ensures settled { IfOk result (λ disk. Only image.now (images_of disk)) }
        ensures failures { IfOk result (λ disk. failures_of disk ≡ 0) }
    {
        let start = Vec::from_slice(alloc, image)?;
        Ok(MemoryDisk::fresh(alloc, start, Vec::from_slice(alloc, image)?))
    }

    /// Returns the octets that a read gives.
    pub fn image(&self) -> &[u8]
        ensures { result.now ≡ image_of self.now }
    {
        self.image.as_slice()
    }

    // A disk that began with these octets and has stored no call.
    fn fresh(alloc: Global, start: Vec<u8>, image: Vec<u8>) -> MemoryDisk
        requires { start.items ≡ image.items }
        ensures fresh { IsFresh image.items result }
        ensures settled { Only image.items (images_of result) }
        ensures failures { failures_of result ≡ 0 }
    {
        MemoryDisk {
            start,
            calls: Vec::new(alloc),
            image,
            failures: 0,
            fuse: None,
        }
    }

    // The disk after a stop by this pick.
    fn stopped(&self, pick: u64) -> Result<MemoryDisk, AllocError>
        ensures image { IfOk result (λ disk. LeavesByPick self.now pick (image_of disk)) }
        ensures fresh { IfOk result (λ disk. IsFresh (image_of disk) disk) }
        ensures settled { IfOk result (λ disk. Only (image_of disk) (images_of disk)) }
        ensures failures { IfOk result (λ disk. failures_of disk ≡ failures_of self.now) }
    {
        let alloc = *self.calls.allocator();
        let image = picked(alloc, &self.start, &self.calls, &self.image, pick)?;
        let mut disk = MemoryDisk::fresh(alloc, Vec::from_slice(alloc, &image)?, image);
        disk.failures = self.failures;
        Ok(disk)
    }
}

// Takes a call off the fuse. One that passes no call more fails this one.
fn burn(fuse: &mut Option<u64>) -> Result<(), DiskFault>
    ensures burnt { fuse.new ≡ option_map (λ calls. calls - 1) fuse.old }
    ensures blown { IsErr result ↔ (fuse.old ≡ Some 0) }
{
    match fuse {
        None => Ok(()),
        Some(0) => Err(DiskFault::Device),
        Some(calls) => {
            *calls -= 1;
            Ok(())
        }
    }
}

fn store(calls: &mut Vec<Call>, call: Call) -> Result<(), AllocError>
    ensures ok { OnOk result (reverse calls.new.items ≡ call ∷ reverse calls.old.items) }
    ensures err { OnErr result (calls.new.items ≡ calls.old.items) }
    ensures cause { IsErr result → vec_capacity calls.old ≤ vec_len calls.old }
{
    calls.push(call)?;
    Ok(())
}

// Stores a write and does it. If memory runs out, nothing has changed.
fn write(
    calls: &mut Vec<Call>,
    image: &mut Vec<u8>,
    place: usize,
    octets: &[u8],
) -> Result<(), AllocError>
    requires { place ≤ length image.old.items }
    ensures ok { OnOk result (image.new.items ≡ written image.old.items place octets.now) }
    ensures stored { OnOk result ((copy : _) × (copy.items ≡ octets.now)
        × (reverse calls.new.items ≡ Write place copy ∷ reverse calls.old.items)) }
    ensures kept { OnErr result ((image.new.items ≡ image.old.items)
        × (calls.new.items ≡ calls.old.items)) }
    ensures cause { IsErr result
        → (0 < length octets.now) ⊎ (vec_capacity calls.old ≤ vec_len calls.old) }
{
    let mut copy = Vec::new(*calls.allocator());
    copy.extend_from_slice(octets)?;
    calls.reserve(1)?;
    overwrite(image, place, octets)?;
    calls
        .push(Call::Write {
            place,
            octets: copy,
        })
        .unwrap();
    Ok(())
}

// The same, where the fuse lets it pass.
fn try_write(
    fuse: &mut Option<u64>,
    calls: &mut Vec<Call>,
    image: &mut Vec<u8>,
    place: usize,
    octets: &[u8],
) -> Result<(), DiskFault>
    requires { place ≤ length image.old.items }
    ensures ok { OnOk result (image.new.items ≡ written image.old.items place octets.now) }
    ensures stored { OnOk result ((copy : _) × (copy.items ≡ octets.now)
        × (reverse calls.new.items ≡ Write place copy ∷ reverse calls.old.items)) }
    ensures kept { OnErr result ((image.new.items ≡ image.old.items)
        × (calls.new.items ≡ calls.old.items)) }
    ensures cause { IsErr result → (fuse.old ≡ Some 0)
        ⊎ (0 < length octets.now) ⊎ (vec_capacity calls.old ≤ vec_len calls.old) }
    ensures burnt { fuse.new ≡ option_map (λ calls. calls - 1) fuse.old }
    ensures blown { fuse.old ≡ Some 0 → IsErr result }
{
    burn(fuse)?;
    match write(calls, image, place, octets) {
        Ok(()) => Ok(()),
        Err(_) => Err(DiskFault::Device),
    }
}

// Stores a call where memory allows.
fn note(calls: &mut Vec<Call>, call: Call)
    ensures stored { (reverse calls.new.items ≡ call ∷ reverse calls.old.items)
        ⊎ (calls.new.items ≡ calls.old.items) }
    ensures room { vec_len calls.old < vec_capacity calls.old
        → reverse calls.new.items ≡ call ∷ reverse calls.old.items }
{
    let _ = store(calls, call);
}

// Stores a cut and does it. If memory runs out, nothing has changed.
fn cut_to(calls: &mut Vec<Call>, image: &mut Vec<u8>, size: usize) -> Result<(), AllocError>
    ensures ok { OnOk result (image.new.items ≡ take size image.old.items) }
    ensures stored { OnOk result (reverse calls.new.items ≡ Cut size ∷ reverse calls.old.items) }
    ensures kept { OnErr result ((image.new.items ≡ image.old.items)
        × (calls.new.items ≡ calls.old.items)) }
    ensures cause { IsErr result → vec_capacity calls.old ≤ vec_len calls.old }
{
    store(calls, Call::Cut { size })?;
    image.truncate(size);
    Ok(())
}

impl Disk for MemoryDisk {
    ghost use Rattle.std.specs.Prelude.{◌≡◌, ◌⊎◌, ◌≤◌, ◌+◌, if◌then◌else◌, length, take, drop, Some, is_ok, IfOk};
    ghost use Rattle.std.specs.Prelude.{IsErr, OnOk, OnErr};
    ghost use Rattle.relay_disk.specs.declared.call.Call.TheVariants.{Write, FailedWrite, Cut, Sync};
    ghost use Rattle.relay_disk.specs.Device.{written, AddsNoImage, CountsFailure, Burns};
    ghost use Rattle.relay_disk.specs.Memory.{image_of, fuse_of, memory_words, IsBlown, IsFull, TakesMemory, Stores};
    ghost use Rattle.relay_disk.specs.Memory.{KeepsAll};
    ghost use Rattle.relay_disk.specs.MemoryLaws.{sees_image, counts_image, leaves_image};

    ghost honest = { Unit {0} };

    ghost words = { memory_words };

    ghost sees_now = { λ _. sees_image };

    ghost counts_now = { λ _. counts_image };

    ghost only_now = { λ _. leaves_image };

    fn failures(&self) -> u64 {
        self.failures
    }

    fn size(&mut self) -> Result<usize, DiskFault>
        ensures size { IfOk result (λ size. size ≡ length (image_of self.old)) }
        ensures kept { KeepsAll self.old self.new }
        ensures cause { IsErr result → IsBlown self.old }
        ensures failures { CountsFailure memory_words self.old self.new result }
        ensures fuse { Burns memory_words self.old self.new result }
    {
        counted(&mut self.failures, burn(&mut self.fuse))?;
        Ok(self.image.len())
    }

    fn read(&mut self, place: usize, into: &mut [u8]) -> Result<(), DiskFault>
        requires { place + length into.old ≤ length (image_of self.old) }
        ensures read { OnOk result
            (into.new ≡ take (length into.old) (drop place (image_of self.old))) }
        ensures kept { KeepsAll self.old self.new }
        ensures cause { IsErr result → IsBlown self.old }
        ensures failures { CountsFailure memory_words self.old self.new result }
        ensures fuse { Burns memory_words self.old self.new result }
    {
        counted(&mut self.failures, burn(&mut self.fuse))?;
        into.copy_from_slice(&self.image[place..place + into.len()]);
        Ok(())
    }

    fn write_at(&mut self, place: usize, octets: &[u8]) -> Result<(), DiskFault>
        requires { place ≤ length (image_of self.old) }
        ensures image { image_of self.new ≡ (if is_ok result
            then written (image_of self.old) place octets.now else image_of self.old) }
        ensures stored { OnOk result ((copy : _) × (copy.items ≡ octets.now)
            × Stores (Write place copy) self.old self.new) }
        ensures cause { IsErr result → IsBlown self.old ⊎ TakesMemory self.old octets.now }
        // Of a write that failed nothing but its range is stored, and that only if memory allows.
        ensures torn { OnErr result
            (Stores (FailedWrite place (length octets.now)) self.old self.new
            ⊎ KeepsAll self.old self.new) }
        ensures failures { CountsFailure memory_words self.old self.new result }
        ensures fuse { Burns memory_words self.old self.new result }
    {
        match try_write(
            &mut self.fuse,
            &mut self.calls,
            &mut self.image,
            place,
            octets,
        ) {
            Ok(()) => Ok(()),
            Err(fault) => {
                let count = octets.len();
                note(&mut self.calls, Call::FailedWrite { place, count });
                counted(&mut self.failures, Err(fault))
            }
        }
    }

    fn cut(&mut self, size: usize) -> Result<(), DiskFault>
        requires { size ≤ length (image_of self.old) }
        ensures ok { OnOk result (Stores (Cut size) self.old self.new
            × (image_of self.new ≡ take size (image_of self.old))) }
        ensures err { OnErr result (KeepsAll self.old self.new) }
        ensures cause { IsErr result → IsBlown self.old ⊎ IsFull self.old }
        ensures failures { CountsFailure memory_words self.old self.new result }
        ensures fuse { Burns memory_words self.old self.new result }
    {
        counted(&mut self.failures, burn(&mut self.fuse))?;
        counted(
            &mut self.failures,
            cut_to(&mut self.calls, &mut self.image, size),
        )
    }

    #[tactic(auto, using(crate::specs::MemoryLaws::seen_is_left))]
    fn sync(&mut self) -> Result<(), DiskFault>
        ensures ok { OnOk result (Stores Sync self.old self.new
            × (image_of self.new ≡ image_of self.old)) }
        ensures err { OnErr result (KeepsAll self.old self.new) }
        ensures cause { IsErr result → IsBlown self.old ⊎ IsFull self.old }
        ensures stop { AddsNoImage memory_words self.old self.new }
        ensures failures { CountsFailure memory_words self.old self.new result }
        ensures fuse { Burns memory_words self.old self.new result }
    {
        counted(&mut self.failures, burn(&mut self.fuse))?;
        counted(&mut self.failures, store(&mut self.calls, Call::Sync))
    }

    fn swap_fuse(&mut self, other: &mut Self) {
        mem::swap(&mut self.fuse, &mut other.fuse);
    }
}

impl Reboot for MemoryDisk {
    ghost use Rattle.std.specs.Prelude.{◌≡◌, IfOk, IfErr};
    ghost use Rattle.relay_disk.specs.Device.{Only, ImagesWithin};
    ghost use Rattle.relay_disk.specs.Memory.{image_of, images_of, memory_words, failures_of, IsFresh, LeavesByPick};

    fn fuse(&mut self, calls: u64) {
        self.fuse = Some(calls);
    }

    fn after_stop(self, pick: u64) -> Result<Self, AllocFailed<Self>>
        ensures image { IfOk result (λ disk. LeavesByPick self pick (image_of disk)) }
        ensures left { IfOk result (λ disk. images_of self (image_of disk)) }
        ensures within { IfOk result (λ disk. ImagesWithin memory_words self disk) }
        ensures fresh { IfOk result (λ disk. IsFresh (image_of disk) disk) }
        ensures settled { IfOk result (λ disk. Only (image_of disk) (images_of disk)) }
        ensures same { IfErr result (λ refused. refused.value ≡ self) }
        ensures failures { IfOk result (λ disk. failures_of disk ≡ failures_of self) }
    {
        match self.stopped(pick) {
            Ok(disk) => Ok(disk),
            Err(_) => Err(AllocFailed { value: self }),
        }
    }
}
