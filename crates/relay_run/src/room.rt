//! The room on the spool's disk: a ballast file beside the spool reserves room for outcomes.
ghost use Rattle.std.specs.Prelude.{ℕ, ◌≡◌, ◌≤◌, ◌↔◌, IsTrue};

use relay_connections::Now;
use relay_disk::{Disk, DiskFault};
use relay_files::Fault;
use relay_room::{RoomFile, Standing, ballast_size, give_up, test_room};
use relay_routes::Config;
use std::alloc::Global;
use std::fs::File;
use std::io;
use std::rt::Files;

/// How many seconds are between two tests of the room, while the relay is short of it.
const TEST_SECONDS: u64 = 5;

/// How many seconds running attempts have to end once there is room again; then the spool is opened with its configured
/// limit.
const DRAIN_SECONDS: u64 = 5;

/// The disk of a ballast file.
pub trait Ballast: Disk {
    ghost use Rattle.std.specs.Prelude.{◌<◌, ◌^◌};

    /// Looks for the reason why a device has just failed, by writing up to twice this many octets, the size of the
    /// ballast. Returns the system's error if a write fails. What was written stays until the ballast is given up.
    fn reason(&mut self, size: usize) -> Option<io::Error>
        requires { size < 2 ^ 62 };
}

impl Ballast for RoomFile {
    fn reason(&mut self, size: usize) -> Option<io::Error> {
        RoomFile::reason(self, size)
    }
}

/// The room on the disk of a spool. A fault of the ballast file doesn't end the relay: it counts as no ballast and no
/// room.
pub(crate) struct Room<F = RoomFile> {
    file: F,
    /// The size of the ballast, in octets.
    size: u32,
    /// The configured limit of the spool, in octets.
    configured: u64,
    pub(crate) standing: Standing,
    /// The size of the spool at the last test, in octets.
    tested_size: usize,
    /// The tick of the next test, while the relay is short of room.
    next_test: u64,
    /// The tick at which the spool is opened with its configured limit, once there is room again; 2^64 - 1 for none.
    renewal: u64,
}

// Written out, so that the proof of a caller that drops it stops at this function.
impl<F: Drop> Drop for Room<F> {
    fn drop(self) {
        let Room {
            file: _file,
            size: _,
            configured: _,
            standing: _,
            tested_size: _,
            next_test: _,
            renewal: _,
        } = self;
    }
}

impl Room {
    /// Opens the ballast file, whose name is that of the spool with `.room` appended. The room isn't tested yet.
    pub(crate) fn open<R: Files<File = File>>(
        alloc: Global,
        files: &R,
        config: &Config,
    ) -> Result<Self, Fault> {
        let path = format!(in alloc; "{}.room", config.spool.as_str())?;
        match RoomFile::open(files, path.as_str()) {
            Ok(file) => Ok(Room::beside(file, config)),
            Err(error) => Err(Fault::of_device(&error)),
        }
    }
}

impl<F: Ballast> Room<F> {
    ghost use Rattle.relay_room.specs.Standing.{standing_at_failure};
    ghost use Rattle.relay_run.specs.Room.{MayStart};

    /// Gives up the ballast after the device has failed; nothing is known of the room then. Before that makes a test
    /// write to the ballast file, and returns the system's error if it fails, because the failed call itself didn't
    /// report one.
    pub(crate) fn fail(&mut self) -> Option<io::Error>
        ensures standing { self.new.standing ≡ standing_at_failure self.old.standing self.old.size }
        ensures held { (size : ℕ) → ¬ MayStart self.new size }
    {
        self.standing = self.standing.after_failure(self.size as usize);
        self.renewal = u64::MAX;
        let reason = self.file.reason(self.size as usize);
        // What can't be given up is no ballast either.
        let _ = give_up(&mut self.file);
        reason
    }
}

impl<F: Disk> Room<F> {
    ghost use Rattle.relay_run.specs.Room.{IsTested, MayStart, grown_since, next_look};

    /// Returns the room beside the spool of this configuration, which has this ballast file. It isn't tested yet.
    pub(crate) fn beside(file: F, config: &Config) -> Self {
        Room {
            file,
            size: ballast_size(config.max_content),
            configured: config.spool_limit,
            standing: Standing::untested(),
            tested_size: 0,
            next_test: 0,
            renewal: u64::MAX,
        }
    }

    /// Tests the room beside a spool of this many octets, if the relay is short of it. A fault of the file counts as no
    /// room.
    pub(crate) fn test(&mut self, spool_size: usize)
        ensures standing { IsTested self.old self.new }
    {
        if self.standing == Standing::Roomy {
            return;
        }
        let size = self.size as usize;
        let room = match test_room(&mut self.file, size) {
            Ok(room) => room,
            Err(DiskFault::Device) => 0,
        };
        self.standing = self.standing.after_test(room, size);
        self.tested_size = spool_size;
    }

    /// Tests the room if that is due, and returns whether the shortage has ended. If so, no attempt begins for a while,
    /// and the spool is then opened with its configured limit, unless it has that limit already.
    pub(crate) fn look(&mut self, spool_size: usize, limit: u64, now: &Now) -> bool {
        if !self.is_short() || now.tick < self.next_test {
            return false;
        }
        self.test(spool_size);
        self.next_test = now.after(TEST_SECONDS);
        if self.is_short() {
            return false;
        }
        if limit != self.configured {
            self.renewal = now.after(DRAIN_SECONDS);
        }
        true
    }

    /// Takes the limits of this configuration, and tests the room beside a spool of this many octets, unless the
    /// ballast is there and has the right size.
    pub(crate) fn reconfigure(&mut self, config: &Config, spool_size: usize) {
        self.configured = config.spool_limit;
        let size = ballast_size(config.max_content);
        if size != self.size {
            self.size = size;
            self.standing = Standing::untested();
        }
        self.test(spool_size);
    }

    /// Returns whether the relay is short of room.
    pub(crate) fn is_short(&self) -> bool {
        self.standing != Standing::Roomy
    }

    /// Notes that the spool was opened with the limit that the room allows.
    pub(crate) fn opened(&mut self)
        ensures { (size : ℕ) → MayStart self.old size → MayStart self.new size }
    {
        self.renewal = u64::MAX;
    }

    /// Returns whether the spool is to be opened with its configured limit now.
    pub(crate) fn is_renewed(&self, now: &Now) -> bool {
        self.renewal <= now.tick
    }

    /// Notes that the spool was compacted, which used other room.
    pub(crate) fn note_compacted(&mut self) {
        self.next_test = 0;
    }

    /// Returns whether attempts may begin, with a spool of this many octets.
    pub(crate) fn may_start(&self, spool_size: usize) -> bool
        ensures { IsTrue result ↔ MayStart self.now spool_size }
    {
        self.renewal == u64::MAX && self.standing.may_begin(self.grown(spool_size))
    }

    /// Returns whether there is room for this many octets, with a spool of `spool_size`.
    pub(crate) fn has_room_for(&self, octets: usize, spool_size: usize) -> bool {
        match self.standing {
            Standing::Roomy => true,
            Standing::Short { room, .. } => {
                octets <= room.saturating_sub(self.grown(spool_size))
            }
        }
    }

    /// Returns by how many octets the spool has grown since the last test.
    fn grown(&self, spool_size: usize) -> usize
        ensures { result ≡ grown_since self.now spool_size }
    {
        spool_size.saturating_sub(self.tested_size)
    }

    /// Returns the limit for a spool whose files have this many octets in all.
    pub(crate) fn limit(&self, files: u64) -> u64 {
        self.standing.limit(self.configured, files)
    }

    /// Returns the tick at which the room is looked at again, or `otherwise` if that is earlier.
    pub(crate) fn next_deadline(&self, otherwise: u64) -> u64
        ensures otherwise { result ≤ otherwise }
        ensures look { result ≤ next_look self.now.standing self.now }
    {
        match self.standing {
            Standing::Roomy => otherwise.min(self.renewal),
            Standing::Short { .. } => otherwise.min(self.next_test),
        }
    }
}
