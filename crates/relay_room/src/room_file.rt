ghost use Rattle.std.specs.Prelude.{◌≡◌, ◌<◌, ◌^◌, OnErr, OnOk};
ghost use Rattle.std.specs.Result.{result_ok};
ghost use Rattle.relay_disk.specs.Device.{Rises};

use crate::ballast::write_zeros;
use relay_disk::{Disk, DiskFault};
use std::fs::{File, OpenOptions};
use std::io;
use std::os::unix::fs::{FileExt, MetadataExt, OpenOptionsExt};
use std::rt::Files;

/// Who may read and write the file: its owner alone, as the files of the spool.
const OWNER_ALONE: u32 = 0o600;

/// The file of a ballast. Unlike a file of a spool it can be used after a failed sync: it holds zeros, and each test
/// begins by cutting it to nothing. It remembers the system's error of the last call that failed.
#[derive(Drop)]
pub struct RoomFile {
    file: File,
    failures: u64,
    error: Option<io::Error>,
}

impl RoomFile {
    /// Opens the file at this path, or makes an empty one where none is, which only its owner may read and write.
    pub fn open<R: Files<File = File>>(rt: &R, path: &str) -> io::Result<RoomFile> {
        let file = OpenOptions::new()
            .read(true)
            .write(true)
            .create(true)
            .mode(OWNER_ALONE)
            .open(rt, path)?;
        Ok(RoomFile {
            file,
            failures: 0,
            error: None,
        })
    }

    /// Looks for the reason why a device has just failed: writes up to twice the size of the ballast over the file, as
    /// far as that goes, and returns the system's error where a write fails. Nothing if all of them succeed. What was
    /// written stays until the ballast is given up.
    pub fn reason(&mut self, size: usize) -> Option<io::Error>
        requires { size < 2 ^ 62 }
    {
        self.error = None;
        write_zeros(self, size * 2);
        self.error
    }

    /// Returns the answer of a call, with a failure counted and its error kept.
    fn noted<T>(&mut self, answer: io::Result<T>) -> Result<T, DiskFault>
        ensures value { result_ok result ≡ result_ok answer }
        ensures ok { OnOk result (self.new.failures ≡ self.old.failures) }
        ensures fault { OnErr result (Rises self.old.failures self.new.failures) }
    {
        match answer {
            Ok(value) => Ok(value),
            Err(error) => {
                self.failures = self.failures.saturating_add(1);
                self.error = Some(error);
                Err(DiskFault::Device)
            }
        }
    }
}

impl Disk for RoomFile {
    ghost use Rattle.relay_room.specs.RoomFile.{room_file_words};

    ghost honest = { ⊥ };

    ghost words = { room_file_words };

    ghost sees_now = { λ honest. absurd honest };

    ghost counts_now = { λ honest. absurd honest };

    ghost only_now = { λ honest. absurd honest };

    fn failures(&self) -> u64 {
        self.failures
    }

    fn size(&mut self) -> Result<usize, DiskFault> {
        let size = self.file.metadata().map(|metadata| metadata.len() as usize);
        self.noted(size)
    }

    fn read(&mut self, place: usize, into: &mut [u8]) -> Result<(), DiskFault> {
        let answer = self.file.read_exact_at(into, place as u64);
        self.noted(answer)
    }

    fn write_at(&mut self, place: usize, octets: &[u8]) -> Result<(), DiskFault> {
        let answer = self.file.write_all_at(octets, place as u64);
        self.noted(answer)
    }

    fn cut(&mut self, size: usize) -> Result<(), DiskFault> {
        let answer = self.file.set_len(size as u64);
        self.noted(answer)
    }

    fn sync(&mut self) -> Result<(), DiskFault> {
        let answer = self.file.sync_data();
        self.noted(answer)
    }

    fn swap_fuse(&mut self, other: &mut Self) {
        let _ = other;
    }
}
