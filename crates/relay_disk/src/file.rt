// A file of the operating system as a disk. No contract can say what a real file holds, so it isn't honest.
ghost use Rattle.std.specs.Prelude.{◌≡◌, false, pos, ◌<ℤ◌, IfOk};

use crate::disk::counted;
use crate::{Disk, DiskFault};
use std::fs::{File, OpenOptions, TryLockError};
use std::io;
use std::os::fd::{AsRawFd, RawFd};
use std::os::unix::fs::{FileExt, MetadataExt, OpenOptionsExt};
use std::path::Path;
use std::rt::Files;

/// Who may read and write a file that `FileDisk::open` makes: its owner alone, since the mail of others is in it.
const OWNER_ALONE: u32 = 0o600;

/// The greatest descriptor of a standard stream: that of standard error.
const STANDARD_ERROR: RawFd = 2;

/// An open file. Reads and writes are positioned, and `sync` hands its octets and its length to the device.
///
/// Lack of space is a failure like any other: the octets that were there stay. After a failed sync each later one
/// fails, until the file is opened again: the system may have dropped octets that it couldn't write, and would answer
/// the second sync well.
#[derive(Drop)]
pub struct FileDisk {
    file: File,
    failures: u64,
    sync_failed: bool,
    /// The octet that reads as 0 and as the last of the file, where not all of the file is read.
    last: Option<usize>,
}

impl FileDisk {
    ghost use Rattle.relay_disk.specs.File.{descriptor_of, failures_of, sync_failed};

    /// Opens the file at this path, or makes an empty one where none is, which only its owner may
    /// read and write. Its folder is synced, so that a file that was made outlives a stop. A file that
    /// the system gives the descriptor of a standard stream is refused, since what is written to that
    /// stream would be written into it: that happens where the stream was closed.
    pub fn open<R: Files<File = File>>(rt: &R, path: &str) -> io::Result<FileDisk>
        ensures failures { IfOk result (λ disk. failures_of disk ≡ 0) }
        ensures syncs { IfOk result (λ disk. sync_failed disk ≡ false) }
        ensures apart { IfOk result (λ disk. pos 2 <ℤ descriptor_of disk) }
    {
        let file = OpenOptions::new()
            .read(true)
            .write(true)
            .create(true)
            .mode(OWNER_ALONE)
            .open(rt, path)?;
        let disk = FileDisk::apart(file)?;
        File::open(rt, folder_of(path))?.sync_all()?;
        Ok(disk)
    }

    /// Opens the file at this path for reading alone: it must be there, and each write and each cut fails. It is
    /// refused as by `open` where it has the descriptor of a standard stream.
    pub fn open_to_read<R: Files<File = File>>(rt: &R, path: &str) -> io::Result<FileDisk>
        ensures failures { IfOk result (λ disk. failures_of disk ≡ 0) }
        ensures syncs { IfOk result (λ disk. sync_failed disk ≡ false) }
        ensures apart { IfOk result (λ disk. pos 2 <ℤ descriptor_of disk) }
    {
        FileDisk::apart(File::open(rt, path)?)
    }

    // The disk of an open file, unless this has the descriptor of a standard stream.
    fn apart(file: File) -> io::Result<FileDisk>
        ensures failures { IfOk result (λ disk. failures_of disk ≡ 0) }
        ensures syncs { IfOk result (λ disk. sync_failed disk ≡ false) }
        ensures apart { IfOk result (λ disk. pos 2 <ℤ descriptor_of disk) }
    {
        if file.as_raw_fd() <= STANDARD_ERROR {
            return Err(io::Error::from(io::ErrorKind::Unsupported));
        }
        Ok(FileDisk {
            file,
            failures: 0,
            sync_failed: false,
            last: None,
        })
    }

    /// Locks the file for this disk until the disk is dropped, without waiting. Returns `false` if another open of the
    /// file has the lock. A program that doesn't ask for the lock isn't kept out.
    pub fn try_lock(&self) -> io::Result<bool> {
        match self.file.try_lock() {
            Ok(()) => Ok(true),
            Err(TryLockError::WouldBlock) => Ok(false),
            Err(TryLockError::Error(error)) => Err(error),
        }
    }

    /// Reads the file from now on as it was when the octet at this place was its last, and 0. If that is a gate of a
    /// spool, what was appended after it isn't read. Writes are as before.
    pub fn reads_up_to(&mut self, place: usize)
        ensures failures { failures_of self.new ≡ failures_of self.old }
        ensures syncs { sync_failed self.new ≡ sync_failed self.old }
    {
        self.last = Some(place);
    }

    /// Returns whether both are one file under two names, by hard or symbolic links.
    pub fn is_same_file(&self, other: &FileDisk) -> io::Result<bool> {
        let own = self.file.metadata()?;
        let others = other.file.metadata()?;
        Ok(own.dev() == others.dev() && own.ino() == others.ino())
    }
}

// The folder that the file at this path is in.
fn folder_of(path: &str) -> &str {
    match Path::new(path).parent() {
        Some(folder) if !folder.as_str().is_empty() => folder.as_str(),
        _ => ".",
    }
}

impl Disk for FileDisk {
    ghost use Rattle.std.specs.Prelude.{◌≡◌, ◌||◌, IsTrue, IsErr, is_err};
    ghost use Rattle.relay_disk.specs.Device.{CountsFailure, OnlyFuseChanges};
    ghost use Rattle.relay_disk.specs.File.{file_words, sync_failed};

    ghost honest = { ⊥ };

    ghost words = { file_words };

    ghost sees_now = { λ honest. absurd honest };

    ghost counts_now = { λ honest. absurd honest };

    ghost only_now = { λ honest. absurd honest };

    fn failures(&self) -> u64 {
        self.failures
    }

    fn size(&mut self) -> Result<usize, DiskFault>
        ensures failures { CountsFailure file_words self.old self.new result }
        ensures syncs { sync_failed self.new ≡ sync_failed self.old }
    {
        let size = self.file.metadata().map(|metadata| metadata.len() as usize);
        let answer = counted(&mut self.failures, size);
        match (answer, self.last) {
            (Ok(size), Some(last)) => Ok(size.min(last.saturating_add(1))),
            (answer, _) => answer,
        }
    }

    fn read(&mut self, place: usize, into: &mut [u8]) -> Result<(), DiskFault>
        ensures failures { CountsFailure file_words self.old self.new result }
        ensures syncs { sync_failed self.new ≡ sync_failed self.old }
    {
        let answer = self.file.read_exact_at(into, place as u64);
        if let Some(last) = self.last {
            if place <= last && last - place < into.len() {
                into[last - place] = 0;
            }
        }
        counted(&mut self.failures, answer)
    }

    fn write_at(&mut self, place: usize, octets: &[u8]) -> Result<(), DiskFault>
        ensures failures { CountsFailure file_words self.old self.new result }
        ensures syncs { sync_failed self.new ≡ sync_failed self.old }
    {
        let answer = self.file.write_all_at(octets, place as u64);
        counted(&mut self.failures, answer)
    }

    fn cut(&mut self, size: usize) -> Result<(), DiskFault>
        ensures failures { CountsFailure file_words self.old self.new result }
        ensures syncs { sync_failed self.new ≡ sync_failed self.old }
    {
        let answer = self.file.set_len(size as u64);
        counted(&mut self.failures, answer)
    }

    fn sync(&mut self) -> Result<(), DiskFault>
        ensures failures { CountsFailure file_words self.old self.new result }
        ensures after { IsTrue (sync_failed self.old) → IsErr result }
        ensures syncs { sync_failed self.new ≡ (sync_failed self.old || is_err result) }
    {
        if self.sync_failed {
            return counted(&mut self.failures, Err(DiskFault::Device));
        }
        let answer = self.file.sync_data();
        self.sync_failed = answer.is_err();
        counted(&mut self.failures, answer)
    }

    fn swap_fuse(&mut self, other: &mut Self)
        ensures same { OnlyFuseChanges ⊥ file_words self.old self.new }
        ensures other_same { OnlyFuseChanges ⊥ file_words other.old other.new }
        ensures syncs { (sync_failed self.new ≡ sync_failed self.old)
            × (sync_failed other.new ≡ sync_failed other.old) }
    {
        let _ = other;
    }
}
